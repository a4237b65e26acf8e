//! What holds of every history that is written. Each function does nothing: its contract is the law.

ghost use Rattle.history_check.specs.Written.{IsReadAgain, LawfulNames};

/// What is written of a history behind the frames of replies is that history to whoever reads it.
pub fn written_is_read()
    ensures { IsReadAgain }
{}

/// A lawful history says by whom its letters were sent: each is the output that it names.
pub fn letters_are_named()
    ensures { LawfulNames }
{}
