//! The law.

ghost use Rattle.std.specs.Prelude.{ℕ, List};
ghost use Rattle.std.specs.List.{AllByRecursion};
ghost use Rattle.answer_law.specs.Frames.{FitsFrame};
ghost use Rattle.history_frame.specs.declared.events.Event.{Event};
ghost use Rattle.history_frame.specs.Spelling.{IsEvent};
ghost use Rattle.log_base.specs.ClusterShape.{Shape};
ghost use Rattle.node_model.specs.Legal.{IsLegal};
ghost use Rattle.node_model.specs.NodeState.{KeptLists};

/// Each event of a legal history has a spelling, where it has few letters and bytes.
pub fn events_have_spellings()
    ensures { (config : Shape) (run : ℕ) (kept : KeptLists) (events : List Event)
        → IsLegal config run kept events
        → AllByRecursion (λ event. FitsFrame event.happened) events
        → AllByRecursion IsEvent events }
{}
