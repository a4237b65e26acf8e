//! Reading the words.

ghost use Rattle.std.specs.Prelude.{◌≡◌, ◌++◌, ℕ, List, map, string_bytes, Ok, Err, IsSome, IfOk};
ghost use Rattle.command_words.specs.Commands.{Chooses, Gives, Makes, NameFolder, Spells};
ghost use Rattle.command_words.specs.declared.command.Command.{Command};
ghost use Rattle.command_words.specs.declared.command.Options.{Options};
ghost use Rattle.command_words.specs.declared.given.Given.{Given};

use crate::command::{Command, Options, WordsFault};
use crate::given::Given;
use crate::number::read_within;
use crate::setting::{Setting, Verb};
use std::alloc::Global;

/// The most items that are made.
const MOST_MADE: u32 = 60_000;

/// The command that the words are. Memory is taken for the folder's name alone.
pub fn read_words(alloc: Global, words: &[String]) -> Result<Command, WordsFault>
    ensures command { IfOk result (Spells (map string_bytes words.now)) }
    ensures none { result ≡ Err WordsFault.NoCommand → (command : Command) → Spells (map string_bytes words.now) command → ⊥ }
    ensures memory { result ≡ Err WordsFault.Memory → NameFolder (map string_bytes words.now) }
{
    let Some((verb, rest)) = words.split_first() else {
        return Err(WordsFault::NoCommand);
    };
    match verb.as_str() {
        "run" => match read_options(alloc, Verb::Run, rest) {
            Ok(options) => return Ok(Command::Run(options)),
            Err(fault) => return Err(fault),
        },
        "cluster" => match read_options(alloc, Verb::Cluster, rest) {
            Ok(options) => return Ok(Command::Cluster(options)),
            Err(fault) => return Err(fault),
        },
        "make" => return read_make(alloc, rest),
        "check" => {
            if rest.is_empty() {
                return Ok(Command::Check);
            }
            return Err(WordsFault::NoCommand);
        }
        _ => return Err(WordsFault::NoCommand),
    }
}

/// The command that is behind the word `make`.
fn read_make(alloc: Global, words: &[String]) -> Result<Command, WordsFault>
    ensures command { IfOk result (λ command. (options : Options) × (seed : ℕ) × (count : ℕ)
        × (command ≡ Command.Make options seed count) × Makes (map string_bytes words.now) options seed count) }
    ensures none { result ≡ Err WordsFault.NoCommand → (options : Options) (seed count : ℕ)
        → Makes (map string_bytes words.now) options seed count → ⊥ }
    ensures memory { result ≡ Err WordsFault.Memory → (options : Options) (seed count : ℕ)
        → Makes (map string_bytes words.now) options seed count → ⊥ }
{
    if words.len() < 2 {
        return Err(WordsFault::NoCommand);
    }
    let Some(seed) = read_within(words[0].as_str(), 0, u32::MAX) else {
        return Err(WordsFault::NoCommand);
    };
    let Some(count) = read_within(words[1].as_str(), 1, MOST_MADE) else {
        return Err(WordsFault::NoCommand);
    };
    match read_options(alloc, Verb::Make, &words[2..]) {
        Ok(options) => {
            return Ok(Command::Make {
                options,
                seed,
                count,
            });
        }
        Err(fault) => return Err(fault),
    }
}

/// The options that the words choose for a command.
fn read_options(alloc: Global, command: Verb, words: &[String]) -> Result<Options, WordsFault>
    ensures options { IfOk result (Chooses command (map string_bytes words.now)) }
    ensures none { result ≡ Err WordsFault.NoCommand → (options : Options) → Chooses command (map string_bytes words.now) options → ⊥ }
    ensures memory { result ≡ Err WordsFault.Memory → (options : Options) → Chooses command (map string_bytes words.now) options → IsSome options.folder }
{
    let given = read_given(alloc, command, words)?;
    match given.options() {
        Some(options) => return Ok(options),
        None => return Err(WordsFault::NoCommand),
    }
}

/// What the words give for a command.
fn read_given(alloc: Global, command: Verb, words: &[String]) -> Result<Given, WordsFault>
    ensures given { IfOk result (Gives command (map string_bytes words.now)) }
    ensures none { result ≡ Err WordsFault.NoCommand → (given : Given) → Gives command (map string_bytes words.now) given → ⊥ }
    ensures memory { result ≡ Err WordsFault.Memory → (given : Given) → Gives command (map string_bytes words.now) given → IsSome given.folder }
{
    let mut given = Given::nothing();
    let mut rest = words;
    'settings: while !rest.is_empty() {
        let setting = Setting::read(alloc, rest)?;
        if !command.takes(&setting) {
            return Err(WordsFault::NoCommand);
        }
        rest = &rest[setting.word_count()..];
        given.take(setting)?;
    }
    Ok(given)
}
