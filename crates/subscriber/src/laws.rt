//! The law that shows that the definitions mean what they should. The function does nothing: its
//! contract is the law.

ghost use Rattle.std.specs.Prelude.{◌≡◌, ◌+◌, ℕ, List, Some};
ghost use Rattle.std.specs.List.{Contains, slice_get};
ghost use Rattle.record_frame.specs.declared.entries.Entry.{Entry};
ghost use Rattle.subscriber.specs.Following.{after_offers, following_from};

/// The k-th entry that is delivered was offered at the k-th position from the first on.
pub fn delivered_in_order()
    ensures { (from k : ℕ) (offers : List (ℕ × Entry)) (entry : Entry)
        → slice_get (after_offers (following_from from) offers).delivered k ≡ Some entry
        → Contains offers (from + k, entry) }
{}
