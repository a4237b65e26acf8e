//! The laws. Each function does nothing: its contract is the law.

ghost use Rattle.std.specs.Prelude.{◌≡◌, ◌<◌, ℕ, List, [], ◌∷◌, ◌++◌, Some};
ghost use Rattle.history_frame.specs.declared.events.Event.{Event};
ghost use Rattle.history_frame.specs.declared.events.Sent.{Sent};
ghost use Rattle.history_frame.specs.declared.inputs.Input.{Input};
ghost use Rattle.history_frame.specs.declared.inputs.Mark.{Mark};
ghost use Rattle.log_base.specs.ClusterShape.{InRange, Shape};
ghost use Rattle.log_base.specs.Machines.{DeliveriesFit};
ghost use Rattle.node_table.specs.Numbering.{nodes_of, role_at};
ghost use Rattle.node_model.specs.Histories.{sent_in};
ghost use Rattle.node_model.specs.Legal.{IsLegal};
ghost use Rattle.node_model.specs.Machine.{IsAny, node_meanings};
ghost use Rattle.node_model.specs.NodeState.{KeptLists, NodeOutcome, NodeState, node_after, node_at_first, node_outcome};
ghost use Rattle.node_model.specs.Sound.{AreSound};
ghost use Rattle.safety_law.specs.Events.{IsGoodInput, with_state};
ghost use Rattle.safety_law.specs.Fit.{Fit};
ghost use Rattle.safety_law.specs.Lists.{lists_at};
ghost use Rattle.safety_law.specs.Statements.{CopiesAgree, CutsAreHeld, LengthsAreHeld, LettersAreSpelled, LettersFit, ReplicasHold};

/// Before the first event all holds, where the kept lists are sound, whatever the numbers of their entries.
pub fn sound_lists_are_a_start()
    ensures { (config : Shape) (kept : KeptLists)
        → InRange config
        → AreSound config IsAny kept
        → Fit config (node_at_first config kept) [] }
{}

/// What an event makes of a node keeps all, where its input is a letter that was sent to it, or a call
/// with numbers in range, or none of both. It speaks of any nodes and any letters of which all holds.
pub fn event_keeps_all()
    ensures { (config : Shape) (state : ℕ → NodeState) (sent : List Sent) (node : ℕ) (input : Input) (mark : Mark) (made : NodeOutcome)
        → InRange config
        → Fit config state sent
        → node < nodes_of config
        → IsGoodInput config (lists_at config state) (role_at config node) input
        → node_outcome config node (state node) input mark ≡ Some made
        → Fit config (with_state state node made.state) (sent ++ made.outputs) }
{}

/// All holds after each legal history.
pub fn all_holds()
    ensures { (config : Shape) (run : ℕ) (kept : KeptLists) (events : List Event)
        → IsLegal config run kept events
        → Fit config (node_after config kept events) (sent_in events) }
{}

/// A copy is a prefix of its primary's list, and an entry that was ever sent stands at its offset there.
pub fn copies_are_prefixes()
    ensures { (config : Shape) (run : ℕ) (kept : KeptLists) (events : List Event)
        → IsLegal config run kept events
        → CopiesAgree config kept events }
{}

/// Reported and acknowledged lengths are held by the replica that they speak of.
pub fn lengths_are_held()
    ensures { (config : Shape) (run : ℕ) (kept : KeptLists) (events : List Event)
        → IsLegal config run kept events
        → LengthsAreHeld config kept events }
{}

/// The lengths of each cut that was ever sent, or that an orderer holds, are held by every replica.
pub fn cuts_are_held()
    ensures { (config : Shape) (run : ℕ) (kept : KeptLists) (events : List Event)
        → IsLegal config run kept events
        → CutsAreHeld config kept events }
{}

/// A replica holds what its known values cover, and what is in flight to it still may be put.
pub fn replicas_hold_what_they_know()
    ensures { (config : Shape) (run : ℕ) (kept : KeptLists) (events : List Event)
        → IsLegal config run kept events
        → ReplicasHold config kept events }
{}

/// The numbers of every message that was ever sent are in range, so that it has one spelling.
pub fn letters_are_spelled()
    ensures { (config : Shape) (run : ℕ) (kept : KeptLists) (events : List Event)
        → IsLegal config run kept events
        → LettersAreSpelled config events }
{}

/// Every letter that was ever sent fits its addressee as it is now.
pub fn letters_fit()
    ensures { (config : Shape) (run : ℕ) (kept : KeptLists) (events : List Event)
        → IsLegal config run kept events
        → LettersFit config kept events }
{}

/// The law of a machine: from a sound start an input that delivers an output of the nodes fits its
/// addressee.
pub fn deliveries_fit()
    ensures { DeliveriesFit node_meanings }
{}
