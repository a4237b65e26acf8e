//! The law of the lines. The function does nothing: its contract is the law.

ghost use Rattle.std.specs.Prelude.{◌≡◌};
ghost use Rattle.log_base.specs.ClusterShape.{InRange, Shape};
ghost use Rattle.fault_script.specs.Lines.{IsFault, fault_line};
ghost use Rattle.fault_script.specs.declared.fault.Fault.{Fault};

/// No two faults have one text.
pub fn one_text_each()
    ensures { (shape : Shape) (fault other : Fault) → InRange shape → IsFault shape fault → IsFault shape other
        → fault_line fault ≡ fault_line other → fault ≡ other }
{}
