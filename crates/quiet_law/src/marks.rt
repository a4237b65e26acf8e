//! Which events are quiet. The function does nothing: its contract is the law.

ghost use Rattle.std.specs.Prelude.{◌≡◌, ℕ};
ghost use Rattle.history_frame.specs.declared.events.Happened.{Happened};
ghost use Rattle.log_base.specs.ClusterShape.{Shape};
ghost use Rattle.node_model.specs.NodeState.{IsRow, NodeState};
ghost use Rattle.quiet_law.specs.Quiet.{TellsNoFailure, quiet_mark};

/// A row whose mark tells neither of a disk that failed nor of a payload that was in flight is quiet.
pub fn unfailing_rows_are_quiet()
    ensures { (config : Shape) (node : ℕ) (state : NodeState) (happened : Happened)
        → TellsNoFailure happened.mark
        → IsRow config node state happened
        → happened.mark ≡ quiet_mark happened.input }
{}
