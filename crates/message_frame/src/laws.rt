//! Laws of the spellings. The function does nothing: its contract is the laws.

ghost use Rattle.std.specs.Prelude.{◌≡◌, ℕ, List, ◌++◌, Result, Ok, Err};
ghost use Rattle.log_base.specs.Wide.{IsBytes};
ghost use Rattle.message_frame.specs.declared.messages.Message.{Message};
ghost use Rattle.record_frame.specs.declared.refusals.Refusal.TheVariants.{Memory};
ghost use Rattle.record_frame.specs.Fields.{StandsAt};
ghost use Rattle.message_frame.specs.Spelling.{IsMessage, message_spelling};
ghost use Rattle.message_frame.specs.Reading.{message_at, message_of};

/// A message is read where its spelling stands, and nowhere else.
pub fn message_spelled()
    // What is read is spelled so.
    ensures read { (bytes : List ℕ) (at next : ℕ) (message : Message) → IsBytes bytes → message_at bytes at ≡ Ok (message, next)
        → IsMessage message × StandsAt bytes at (message_spelling message) next }
    // What is spelled is read, whatever follows.
    ensures again { (bytes : List ℕ) (at next : ℕ) (message : Message) → IsMessage message → StandsAt bytes at (message_spelling message) next
        → message_at bytes at ≡ Ok (message, next) }
    // No spelling begins another.
    ensures apart { (one other : Message) (x y : List ℕ) → IsMessage one → IsMessage other
        → message_spelling one ++ x ≡ message_spelling other ++ y → (one ≡ other) × (x ≡ y) }
    // All bytes of a message are read, and no others.
    ensures whole { (message : Message) → IsMessage message → message_of (message_spelling message) ≡ Ok message }
    // What bytes spell has nothing to do with memory.
    ensures memory { (bytes : List ℕ) → message_of bytes ≡ Err Memory → ⊥ }
{}
