//! What a crash may leave of several writes, as laws.

ghost use Rattle.std.specs.Prelude.{◌≡◌, ℕ, ◌+◌, ◌<◌, ◌≤◌, List, [], ◌∷◌, ◌++◌, length, slice_index};
ghost use Rattle.disk_base.specs.Images.{Torn, TornBy, Range, IsOutside, end_of, overwritten};

/// Writes may be lost whole, come through whole, and be torn one after the other. A byte that no write
/// covers stays, and the length is from the old one to the farthest end of a write.
pub fn crashes_tear_writes()
    ensures lost { (ranges : List Range) (old : List ℕ) → TornBy ranges old old }
    ensures whole { (at : ℕ) (bytes old : List ℕ) → at ≤ length old → Torn at (length bytes) old (overwritten old at bytes) }
    ensures joined { (some more : List Range) (old between new : List ℕ) → TornBy some old between → TornBy more between new → TornBy (some ++ more) old new }
    ensures split { (some more : List Range) (old new : List ℕ) → TornBy (some ++ more) old new → (between : List ℕ) × TornBy some old between × TornBy more between new }
    ensures stays { (ranges : List Range) (old new : List ℕ) (k : ℕ) → TornBy ranges old new → k < length old → IsOutside ranges k → slice_index new k ≡ slice_index old k }
    ensures no_shorter { (ranges : List Range) (old new : List ℕ) → TornBy ranges old new → length old ≤ length new }
    ensures no_longer { (ranges : List Range) (old new : List ℕ) → TornBy ranges old new → length new ≤ end_of ranges (length old) }
{}
