//! Laws of the spellings. Each function does nothing: its contract is the law.

ghost use Rattle.std.specs.Prelude.{◌≡◌, ℕ, List, ◌++◌, Result, Ok, Err};
ghost use Rattle.log_base.specs.Wide.{IsBytes};
ghost use Rattle.record_frame.specs.declared.entries.Entry.{Entry};
ghost use Rattle.record_frame.specs.declared.values.Value.{Value};
ghost use Rattle.record_frame.specs.declared.refusals.Refusal.TheVariants.{Memory};
ghost use Rattle.record_frame.specs.Fields.{StandsAt};
ghost use Rattle.record_frame.specs.Entries.{IsEntry, entry_spelling, entry_at};
ghost use Rattle.record_frame.specs.Values.{IsValue, value_spelling, value_at};

/// An entry is read where its spelling stands, and nowhere else.
pub fn entry_spelled()
    // What is read is spelled so.
    ensures read { (bytes : List ℕ) (at next : ℕ) (entry : Entry) → IsBytes bytes → entry_at bytes at ≡ Ok (entry, next)
        → IsEntry entry × StandsAt bytes at (entry_spelling entry) next }
    // What is spelled is read, whatever follows.
    ensures again { (bytes : List ℕ) (at next : ℕ) (entry : Entry) → IsEntry entry → StandsAt bytes at (entry_spelling entry) next
        → entry_at bytes at ≡ Ok (entry, next) }
    // No spelling begins another.
    ensures apart { (one other : Entry) (x y : List ℕ) → IsEntry one → IsEntry other
        → entry_spelling one ++ x ≡ entry_spelling other ++ y → (one ≡ other) × (x ≡ y) }
    // What bytes spell has nothing to do with memory.
    ensures memory { (bytes : List ℕ) (at : ℕ) → entry_at bytes at ≡ Err Memory → ⊥ }
{}

/// A value is read where its spelling stands, and nowhere else.
pub fn value_spelled()
    // What is read is spelled so.
    ensures read { (bytes : List ℕ) (at next : ℕ) (value : Value) → IsBytes bytes → value_at bytes at ≡ Ok (value, next)
        → IsValue value × StandsAt bytes at (value_spelling value) next }
    // What is spelled is read, whatever follows.
    ensures again { (bytes : List ℕ) (at next : ℕ) (value : Value) → IsValue value → StandsAt bytes at (value_spelling value) next
        → value_at bytes at ≡ Ok (value, next) }
    // No spelling begins another.
    ensures apart { (one other : Value) (x y : List ℕ) → IsValue one → IsValue other
        → value_spelling one ++ x ≡ value_spelling other ++ y → (one ≡ other) × (x ≡ y) }
    // What bytes spell has nothing to do with memory.
    ensures memory { (bytes : List ℕ) (at : ℕ) → value_at bytes at ≡ Err Memory → ⊥ }
{}
