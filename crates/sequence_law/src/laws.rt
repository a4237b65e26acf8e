//! The laws. Each function does nothing: its contract is the law.

ghost use Rattle.std.specs.Prelude.{◌≡◌, ℕ, List, [], ◌∷◌, ◌++◌};
ghost use Rattle.history_frame.specs.declared.events.Event.{Event};
ghost use Rattle.log_base.specs.ClusterShape.{Shape};
ghost use Rattle.node_model.specs.Durable.{IsFounded, IsLeft};
ghost use Rattle.node_model.specs.Legal.{IsLegal};
ghost use Rattle.node_model.specs.NodeState.{KeptLists};
ghost use Rattle.node_model.specs.Sound.{IsSound};
ghost use Rattle.sequence_law.specs.Answers.{AcknowledgedOnce, PendingIsUnknown, ReadsAgree, RefusedNowhere};
ghost use Rattle.sequence_law.specs.Known.{DecidedIsHeld, OneDecidedList, SequenceGoesOn, SequenceStays};
ghost use Rattle.sequence_law.specs.Safe.{IsSafe};
ghost use Rattle.sequence_law.specs.Pairs.{EntriesAreSubmitted, NumbersAreBelow, PairsStandOnce};

/// At most one value is chosen for a slot. At each moment the decided list is the beginning of that of
/// the whole history, and what each node knows, up or down, is the beginning of it.
pub fn one_decided_list()
    ensures { (config : Shape) (run : ℕ) (kept : KeptLists) (events : List Event)
        → IsFounded config run kept
        → IsLegal config run kept events
        → OneDecidedList config kept events }
{}

/// Every replica holds what the decided values cover of its shard, so each place of the sequence has its
/// entry.
pub fn decided_is_held()
    ensures { (config : Shape) (run : ℕ) (kept : KeptLists) (events : List Event)
        → IsLegal config run kept events
        → DecidedIsHeld config kept events }
{}

/// What a part of a history decided, and its sequence, are the beginning of those of the whole.
pub fn sequence_stays()
    ensures { (config : Shape) (run : ℕ) (kept : KeptLists) (events more : List Event)
        → IsFounded config run kept
        → IsLegal config run kept (events ++ more)
        → SequenceStays config kept events more }
{}

/// A pair stands in at most one primary's list, once. Each entry there was kept, or was submitted to that
/// primary in this history, and what was kept has numbers below those of the run.
pub fn pairs_stand_once()
    ensures once { (config : Shape) (run : ℕ) (kept : KeptLists) (events : List Event)
        → IsFounded config run kept
        → IsLegal config run kept events
        → PairsStandOnce config kept events }
    ensures submitted { (config : Shape) (run : ℕ) (kept : KeptLists) (events : List Event)
        → IsFounded config run kept
        → IsLegal config run kept events
        → EntriesAreSubmitted config run kept events }
    ensures below { (config : Shape) (run : ℕ) (kept : KeptLists) (events : List Event)
        → IsLegal config run kept events
        → NumbersAreBelow config run kept }
{}

/// A pair of which one who asked was told a position stands there in the sequence of the whole history
/// and nowhere else, with the bytes that were submitted for it, after all that its client, or any other,
/// had seen before it was first submitted.
pub fn acknowledged_once()
    ensures { (config : Shape) (run : ℕ) (kept : KeptLists) (events : List Event)
        → IsFounded config run kept
        → IsLegal config run kept events
        → AcknowledgedOnce config kept events }
{}

/// A pair that was refused as finalised, when it was submitted or when it was asked for, stands nowhere in
/// the sequence of the whole history.
pub fn refused_nowhere()
    ensures { (config : Shape) (run : ℕ) (kept : KeptLists) (events : List Event)
        → IsFounded config run kept
        → IsLegal config run kept events
        → RefusedNowhere config kept events }
{}

/// What a read finds stands in the sequence of the whole history at its position, which is at or above the
/// mark that the replica knew.
pub fn reads_agree()
    ensures { (config : Shape) (run : ℕ) (kept : KeptLists) (events : List Event)
        → IsFounded config run kept
        → IsLegal config run kept events
        → ReadsAgree config kept events }
{}

/// That something waits is answered only where it is not known: a pair whose place is not covered, a
/// position at or past the end, a value that no known slot holds from the asked one on.
pub fn pending_is_unknown()
    ensures { (config : Shape) (run : ℕ) (kept : KeptLists) (events : List Event)
        → IsFounded config run kept
        → IsLegal config run kept events
        → PendingIsUnknown config kept events }
{}

/// Founded kept lists, being empty or left by a legal history of an earlier run from founded lists, are
/// sound, those of storage nodes and those of orderers.
pub fn founded_lists_are_sound()
    ensures { (config : Shape) (run : ℕ) (kept : KeptLists)
        → IsFounded config run kept
        → IsSound config run kept }
{}

/// The decided list and the sequence with which a run begins, by the lists that its disks kept, have those
/// of the history that left the disks at their beginning.
pub fn next_run_goes_on()
    ensures { (config : Shape) (run : ℕ) (kept left : KeptLists) (events : List Event)
        → IsFounded config run kept
        → IsLegal config run kept events
        → IsLeft config kept events left
        → SequenceGoesOn config kept events left }
{}

/// Every legal history with founded kept lists is safe.
pub fn founded_histories_are_safe()
    ensures { (config : Shape) (run : ℕ) (kept : KeptLists) (events : List Event)
        → IsFounded config run kept
        → IsLegal config run kept events
        → IsSafe config kept events }
{}
