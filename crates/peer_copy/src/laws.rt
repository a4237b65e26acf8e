//! Laws that show that the spans mean what they should. Each function does nothing: its contract is
//! the law.

ghost use Rattle.std.specs.Prelude.{◌≡◌, ◌<◌, ◌+◌, ◌≤◌, ◌↔◌, ℕ, max};
ghost use Rattle.std.specs.List.{Contains};
ghost use Rattle.peer_copy.specs.declared.span.Span.{Span};
ghost use Rattle.peer_copy.specs.Copying.{IsWithin, offsets_of, span_of_note, window_at};

/// After a note those entries are sent that the window has now and had not before.
pub fn note_opens_the_rest()
    ensures { (acked held len offset : ℕ)
        → IsWithin (span_of_note acked held len) offset
        ↔ (IsWithin (window_at (max acked held) len) offset × (acked + 4 ≤ offset)) }
{}

/// The offsets of a span are those from its first to below its last.
pub fn offsets_within()
    ensures { (span : Span) (offset : ℕ) → Contains (offsets_of span) offset ↔ IsWithin span offset }
{}
