//! A law that ties a chain to the list of its values. The function does nothing: its contract is the
//! law.

ghost use Rattle.std.specs.Prelude.{◌≡◌, List, [], ◌∷◌, ◌++◌};
ghost use Rattle.log_base.specs.ClusterShape.{Shape};
ghost use Rattle.record_frame.specs.declared.values.Value.{Value};
ghost use Rattle.cut_chain.specs.Known.{known_of, learned};

/// One more value after others makes known what they all make known.
pub fn known_grows()
    ensures { (config : Shape) (values : List Value) (value : Value)
        → learned (known_of config values) value ≡ known_of config (values ++ value ∷ []) }
{}
