//! Laws that show that what is heard, and the least of it, mean what they should. Each function does
//! nothing: its contract is the law.

ghost use Rattle.std.specs.Prelude.{◌≡◌, ◌≢◌, ◌<◌, ◌≤◌, ◌↔◌, ℕ, List, [], Option, Some, None, slice_index, max};
ghost use Rattle.std.specs.List.{Contains};
ghost use Rattle.record_frame.specs.Values.{IsLengths};
ghost use Rattle.record_frame.specs.declared.values.Lengths.{Lengths};
ghost use Rattle.aggregator.specs.Hearing.{heard_after, least_of_all};

/// What was heard from a replica holds for each segment the greater of what was heard before and what
/// is said, so that a lower report lowers nothing.
pub fn heard_rises()
    ensures first { (said : Lengths) → heard_after None said ≡ said }
    ensures again { (before said : Lengths) (segment : ℕ)
        → slice_index (heard_after (Some before) said).length segment
        ≡ max (slice_index before.length segment) (slice_index said.length segment) }
{}

/// The least is at most what each replica said.
pub fn least_is_of_all()
    ensures { (cells : List (Option Lengths)) (least heard : Lengths) (segment : ℕ)
        → least_of_all cells ≡ Some least → Contains cells (Some heard)
        → slice_index least.length segment ≤ slice_index heard.length segment }
{}

/// For each segment the least is what one of the replicas said.
pub fn least_is_reached()
    ensures { (cells : List (Option Lengths)) (least : Lengths) (segment : ℕ)
        → least_of_all cells ≡ Some least
        → (heard : Lengths) × Contains cells (Some heard) × (slice_index least.length segment ≡ slice_index heard.length segment) }
{}

/// Of one or more replicas there is no least exactly where one of them said nothing.
pub fn none_where_one_is_missing()
    ensures { (cells : List (Option Lengths)) → cells ≢ [] → least_of_all cells ≡ None ↔ Contains cells None }
{}

/// Where replicas say lengths that have a spelling, and as many each time, so have what is heard from
/// them and the least of it.
pub fn merged_are_lengths()
    ensures heard { (limit : ℕ) (before said : Lengths)
        → IsLengths limit before → IsLengths limit said → before.count ≡ said.count
        → IsLengths limit (heard_after (Some before) said) }
    ensures least { (limit : ℕ) (cells : List (Option Lengths)) (least : Lengths)
        → ((heard : Lengths) → Contains cells (Some heard) → IsLengths limit heard)
        → least_of_all cells ≡ Some least → IsLengths limit least }
{}
