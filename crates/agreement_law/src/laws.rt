//! The steps on which the law rests. Each function does nothing: its contract is the step.

ghost use Rattle.std.specs.Prelude.{◌≡◌, ◌<◌, ◌+◌, ◌-◌, ◌*◌, ℕ, Bool, true, List, [], ◌∷◌, ◌++◌, Option, Some};
ghost use Rattle.history_frame.specs.declared.events.Event.{Event};
ghost use Rattle.history_frame.specs.declared.inputs.Input.{Input};
ghost use Rattle.history_frame.specs.declared.inputs.Mark.{Mark};
ghost use Rattle.log_base.specs.ClusterShape.{Shape};
ghost use Rattle.message_frame.specs.declared.messages.Vote.{Vote};
ghost use Rattle.record_frame.specs.declared.values.Value.{Value};
ghost use Rattle.record_frame.specs.declared.values.Value.TheVariants.{Cut, Noop};
ghost use Rattle.paxos_model.specs.Leader.{Leader, picked};
ghost use Rattle.paxos_model.specs.Learner.{nothing_heard};
ghost use Rattle.paxos_model.specs.Majority.{is_majority, most};
ghost use Rattle.paxos_model.specs.Votes.{Payload};
ghost use Rattle.node_model.specs.Histories.{orderer_after, sent_in};
ghost use Rattle.node_model.specs.OrdererNode.{Node, Outcome};
ghost use Rattle.node_model.specs.OrdererRow.{outcome};
ghost use Rattle.node_model.specs.OrdererLegal.{IsLegalEvent, IsOrdererLegal};
ghost use Rattle.agreement_law.specs.Fine.{IsFineInput, IsFineNode, IsFineOutcome};
ghost use Rattle.agreement_law.specs.Invariant.{Global, Holds, IsGoodLeader, IsOpen};
ghost use Rattle.agreement_law.specs.Statements.{IsPaxosSound};

/// Two majorities of the orderers share one of them.
pub fn majorities_meet()
    ensures { (orderers : ℕ) (one other : ℕ → Bool)
        → is_majority orderers one ≡ true
        → is_majority orderers other ≡ true
        → (i : ℕ) × (i < orderers) × (one i ≡ true) × (other i ≡ true) }
{}

/// The value that a leader picks for a slot of its window, once a majority has promised, is the only one
/// that may be open below its ballot.
pub fn only_open_value_is_picked()
    ensures { (orderers i slot : ℕ) (lists : ℕ → List Payload) (proposals : List Vote) (leader : Leader)
        → Global orderers lists proposals
        → IsGoodLeader orderers lists proposals i slot leader
        → most orderers leader.answered ≡ true
        → slot < leader.window + 64
        → (wish : Option Value) (value : Value)
        → picked leader.best (slot - leader.window) wish ≡ Some value
        → (ballot : ℕ) (rival : Value)
        → ballot < leader.ballot
        → IsOpen orderers lists ballot slot rival
        → rival ≡ value }
{}

/// Before the first event all holds, where the kept lists are sound.
pub fn start_is_good()
    ensures { (shape : Shape) (kept : ℕ → List Payload)
        → IsPaxosSound shape.orderers kept
        → Holds shape.orderers (orderer_after shape kept []) [] }
{}

/// An event that is legal keeps all: one at an orderer, whatever it takes and however its disk turns out,
/// and one at another node.
pub fn event_keeps_all()
    ensures { (shape : Shape) (kept : ℕ → List Payload) (before : List Event) (event : Event)
        → Holds shape.orderers (orderer_after shape kept before) (sent_in before)
        → IsLegalEvent shape kept before event
        → Holds shape.orderers (orderer_after shape kept (before ++ event ∷ [])) (sent_in (before ++ event ∷ [])) }
{}

/// All holds after each legal history from a sound start.
pub fn invariant_holds()
    ensures { (shape : Shape) (kept : ℕ → List Payload) (events : List Event)
        → IsPaxosSound shape.orderers kept
        → IsOrdererLegal shape kept events
        → Holds shape.orderers (orderer_after shape kept events) (sent_in events) }
{}

/// A test that each value passes that an orderer holds and is given is passed by each that it holds and
/// sends afterwards, where a noop and the cut of nothing heard pass it. This asks nothing of the start.
pub fn values_stay_fine()
    ensures { (shape : Shape) (test : Value → Bool)
        → test Noop ≡ true
        → test (Cut (nothing_heard (shape.shards * shape.replicas))) ≡ true
        → (i : ℕ) (node : Node) (input : Input) (mark : Mark) (made : Outcome)
        → IsFineNode (λ v. test v ≡ true) node
        → IsFineInput shape (λ v. test v ≡ true) input
        → outcome shape i node input mark ≡ Some made
        → IsFineOutcome shape (λ v. test v ≡ true) made }
{}
