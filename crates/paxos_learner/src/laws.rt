//! The law that shows that the definitions mean what they should. The function does nothing: its
//! contract is the law.

ghost use Rattle.std.specs.Prelude.{◌≡◌, ◌≢◌, ◌<◌, ◌≤◌, ℕ, List, Some};
ghost use Rattle.std.specs.Option.{MatchOption};
ghost use Rattle.std.specs.List.{slice_get};
ghost use Rattle.record_frame.specs.declared.values.Value.{Value};
ghost use Rattle.paxos_model.specs.Learner.{find_value};

/// The slot that is found holds the value, it is not before the one asked from, and none between
/// holds the value. Where no slot is found, none from that one on holds the value.
pub fn find_is_least()
    ensures { (known : List Value) (value : Value) (from : ℕ)
        → MatchOption (find_value known value from)
        ((k : ℕ) → from ≤ k → slice_get known k ≢ Some value)
        (λ slot. (from ≤ slot) × (slice_get known slot ≡ Some value) × ((k : ℕ) → from ≤ k → k < slot → slice_get known k ≢ Some value)) }
{}
