//! What holds of every spelling.

ghost use Rattle.command_frame.specs.Laws.{ReadIsSpelled, SpelledIsRead, OneItem, OneReading};

/// What is read from a frame's kind and body is spelled so, and what is spelled is read again.
pub fn item_spelled()
    ensures read { ReadIsSpelled }
    ensures spelled { SpelledIsRead }
    ensures one { OneReading }
{}

/// No spelling of an item begins another.
pub fn one_spelling()
    ensures item { OneItem }
{}
