//! The law of the words. The function does nothing: its contract is the law.

ghost use Rattle.std.specs.Prelude.{◌≡◌, ℕ, List};
ghost use Rattle.command_words.specs.Commands.{Spells};
ghost use Rattle.command_words.specs.declared.command.Command.{Command};

/// No words are two commands, and none are one command with two lists of options.
pub fn one_command()
    ensures { (words : List (List ℕ)) (command other : Command) → Spells words command → Spells words other → command ≡ other }
{}
