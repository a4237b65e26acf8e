//! The laws that hold of every history that is legal at its orderers: their events follow their rule,
//! and other nodes are free but send no message of the orderers. Each legal history of a whole cluster is
//! such a one. Letters may be lost, repeated and reordered, orderers may crash within a put, and several
//! may lead at once. Each function does nothing: its contract is the law. No law says that anything is
//! ever decided, or when.

ghost use Rattle.std.specs.Prelude.{◌≡◌, ℕ, List, [], ◌∷◌, ◌++◌};
ghost use Rattle.history_frame.specs.declared.events.Event.{Event};
ghost use Rattle.log_base.specs.ClusterShape.{Shape};
ghost use Rattle.record_frame.specs.declared.values.Value.{Value};
ghost use Rattle.record_frame.specs.declared.values.Value.TheVariants.{Add};
ghost use Rattle.paxos_model.specs.Votes.{Payload};
ghost use Rattle.node_model.specs.Chosen.{decided};
ghost use Rattle.node_model.specs.Durable.{IsFounded as IsFoundedBefore, IsLeft};
ghost use Rattle.node_model.specs.Histories.{durable_after, orderer_after};
ghost use Rattle.node_model.specs.Legal.{IsLegal};
ghost use Rattle.node_model.specs.NodeState.{KeptLists, orderers_kept};
ghost use Rattle.node_model.specs.OrdererLegal.{IsOrdererLegal};
ghost use Rattle.node_model.specs.OrdererNode.{known_of};
ghost use Rattle.node_model.specs.Sequence.{IsChosenBy, decided_by};
ghost use Rattle.agreement_law.specs.Elements.{IsPrefix};
ghost use Rattle.agreement_law.specs.Statements.{AnswersAreTrue, AreLeftBy, BallotsAreOwned, IsAgreed, IsFounded, IsPaxosSound, NoRivalIsOpen, PromisesAreTrue};
ghost use Rattle.core_step.specs.TwoLeaders.{three_orderers, two_leaders};

/// From a sound start, at most one value is chosen for a slot, and what each orderer knows, up or down, is
/// the beginning of the decided list, which has the chosen values up to the first slot without one.
pub fn agreement()
    ensures { (shape : Shape) (kept : ℕ → List Payload) (events : List Event)
        → IsPaxosSound shape.orderers kept
        → IsOrdererLegal shape kept events
        → IsAgreed shape kept events }
{}

/// A history that is legal is so up to each of its moments, so every law holds at each moment.
pub fn legal_at_each_moment()
    ensures { (shape : Shape) (kept : ℕ → List Payload) (events more : List Event)
        → IsOrdererLegal shape kept (events ++ more)
        → IsOrdererLegal shape kept events }
{}

/// What was decided at a moment of a history is the beginning of what is decided at each later one.
pub fn decided_stays()
    ensures { (shape : Shape) (kept : ℕ → List Payload) (events more : List Event)
        → IsPaxosSound shape.orderers kept
        → IsOrdererLegal shape kept (events ++ more)
        → IsPrefix
        (decided shape.orderers (durable_after shape kept events))
        (decided shape.orderers (durable_after shape kept (events ++ more))) }
{}

/// Once a letter of a ballot is sent, its owner has promised the ballot. All that was voted or asked for in
/// one ballot and slot has one value, and what a leader asked for is below its known values, or waits.
pub fn ballots_are_owned()
    ensures { (shape : Shape) (kept : ℕ → List Payload) (events : List Event)
        → IsPaxosSound shape.orderers kept
        → IsOrdererLegal shape kept events
        → BallotsAreOwned shape kept events }
{}

/// A promise lists the greatest votes below its ballot of its window, and stays right.
pub fn promises_are_true()
    ensures { (shape : Shape) (kept : ℕ → List Payload) (events : List Event)
        → IsPaxosSound shape.orderers kept
        → IsOrdererLegal shape kept events
        → PromisesAreTrue shape kept events }
{}

/// Below a vote, or what was asked for, no other value is open for its slot.
pub fn no_rival_is_open()
    ensures { (shape : Shape) (kept : ℕ → List Payload) (events : List Event)
        → IsPaxosSound shape.orderers kept
        → IsOrdererLegal shape kept events
        → NoRivalIsOpen shape kept events }
{}

/// Each acceptance that was sent has its vote, and each decision that was sent is a slot of the decided
/// list.
pub fn answers_are_true()
    ensures { (shape : Shape) (kept : ℕ → List Payload) (events : List Event)
        → IsPaxosSound shape.orderers kept
        → IsOrdererLegal shape kept events
        → AnswersAreTrue shape kept events }
{}

/// The lists that a run leaves, each with or without a payload in flight, are sound again, and what was
/// decided is the beginning of what they decide.
pub fn lists_left_are_sound()
    ensures sound { (shape : Shape) (kept lists : ℕ → List Payload) (events : List Event)
        → IsPaxosSound shape.orderers kept
        → IsOrdererLegal shape kept events
        → AreLeftBy shape kept events lists
        → IsPaxosSound shape.orderers lists }
    ensures decided { (shape : Shape) (kept lists : ℕ → List Payload) (events : List Event)
        → IsPaxosSound shape.orderers kept
        → IsOrdererLegal shape kept events
        → AreLeftBy shape kept events lists
        → IsPrefix
        (decided shape.orderers (durable_after shape kept events))
        (decided shape.orderers (durable_after shape lists [])) }
{}

/// Empty lists are a sound start.
pub fn empty_lists_are_sound()
    ensures { (orderers : ℕ) → IsPaxosSound orderers (λ i. []) }
{}

/// So are the lists that a chain of runs leaves, of which the first began with empty lists.
pub fn founded_lists_are_sound()
    ensures { (shape : Shape) (lists : ℕ → List Payload)
        → IsFounded shape lists
        → IsPaxosSound shape.orderers lists }
{}

/// The whole histories: a legal history of a cluster is legal at its orderers, and lists that are founded,
/// being empty or left by a legal history of an earlier run from founded lists, are a sound start for
/// them. So from founded lists the law of agreement holds of every legal history, and what was decided at
/// a moment stays, also in the next run.
pub fn whole_histories_agree()
    ensures legal { (config : Shape) (run : ℕ) (kept : KeptLists) (events : List Event)
        → IsLegal config run kept events
        → IsOrdererLegal config (orderers_kept config kept) events }
    ensures sound { (config : Shape) (run : ℕ) (kept : KeptLists)
        → IsFoundedBefore config run kept
        → IsPaxosSound config.orderers (orderers_kept config kept) }
    ensures agreed { (config : Shape) (run : ℕ) (kept : KeptLists) (events : List Event)
        → IsFoundedBefore config run kept
        → IsLegal config run kept events
        → IsAgreed config (orderers_kept config kept) events }
    ensures one_value { (config : Shape) (run : ℕ) (kept : KeptLists) (events : List Event)
        → IsFoundedBefore config run kept
        → IsLegal config run kept events
        → (slot : ℕ) (one other : Value)
        → IsChosenBy config kept events slot one
        → IsChosenBy config kept events slot other
        → one ≡ other }
    ensures lists { (config : Shape) (kept : KeptLists) (events : List Event)
        → decided_by config kept events ≡ decided config.orderers (durable_after config (orderers_kept config kept) events) }
    ensures stays { (config : Shape) (run : ℕ) (kept : KeptLists) (events more : List Event)
        → IsFoundedBefore config run kept
        → IsLegal config run kept (events ++ more)
        → IsPrefix (decided_by config kept events) (decided_by config kept (events ++ more)) }
    ensures runs { (config : Shape) (run : ℕ) (kept left : KeptLists) (events : List Event)
        → IsFoundedBefore config run kept
        → IsLegal config run kept events
        → IsLeft config kept events left
        → IsPrefix (decided_by config kept events) (decided_by config left []) }
{}

/// A legal history with two leaders, in which an orderer crashes between its vote and the answer: the
/// second leader finds that vote and proposes its value, which is decided.
pub fn two_leaders_agree()
    ensures legal { IsLegal three_orderers 1 (λ disk. []) two_leaders }
    ensures decided { decided 3 (durable_after three_orderers (λ i. []) two_leaders) ≡ Add (record { 0 = 0 }) ∷ [] }
    ensures known { known_of (orderer_after three_orderers (λ i. []) two_leaders 2).mode ≡ Add (record { 0 = 0 }) ∷ [] }
{}
