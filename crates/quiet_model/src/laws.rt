//! The laws of rounds. Each function does nothing: its contract is the law.

ghost use Rattle.std.specs.Prelude.{◌≡◌, ◌*◌, ℕ, List};
ghost use Rattle.history_frame.specs.declared.inputs.Input.TheVariants.{Tick};
ghost use Rattle.history_frame.specs.declared.inputs.Mark.TheVariants.{Done};
ghost use Rattle.log_base.specs.ClusterShape.{InRange, Shape};
ghost use Rattle.record_frame.specs.declared.values.Value.{Value};
ghost use Rattle.node_table.specs.Numbering.{gatherer_node, orderer_node};
ghost use Rattle.quiet_model.specs.Ahead.{IsAhead};
ghost use Rattle.quiet_model.specs.Deciding.{IsNextDecision, decided_on};
ghost use Rattle.quiet_model.specs.Moments.{IsRound, IsSettling, Moment};
ghost use Rattle.quiet_model.specs.Opening.{IsBeginning, IsOpening, at_first, no_lists};
ghost use Rattle.quiet_model.specs.Settled.{Agreed, AreHeard, AreTold, IsSettled, ListsOf};

/// Where primaries are ahead of their peers by one entry at most, a tick of all storage nodes and the
/// delivery of all letters make all replicas hold the longer lists. Then each primary knows that they do, and
/// each gatherer has heard of it.
pub fn copies_catch_up()
    ensures { (config : Shape) (agreed : Agreed) (from to : ListsOf) (before after : Moment)
        → InRange config
        → IsAhead config agreed from to before
        → IsRound config Tick Done 0 (config.replicas * config.shards) before after
        → IsSettled config agreed to after × AreHeard config to after }
{}

/// The same round leaves a settled moment as it was, and each gatherer has heard how much all replicas
/// hold.
pub fn settled_stays_settled()
    ensures { (config : Shape) (agreed : Agreed) (lists : ListsOf) (before after : Moment)
        → InRange config
        → IsSettled config agreed lists before
        → IsRound config Tick Done 0 (config.replicas * config.shards) before after
        → IsSettled config agreed lists after × AreHeard config lists after }
{}

/// A settled moment is one at which no primary is ahead.
pub fn none_is_ahead()
    ensures { (config : Shape) (agreed : Agreed) (lists : ListsOf) (moment : Moment)
        → IsSettled config agreed lists moment
        → IsAhead config agreed lists lists moment }
{}

/// A tick of the gatherers, once each has heard how much all replicas hold, and the delivery of all letters
/// make each orderer hear of it.
pub fn orderers_are_told()
    ensures { (config : Shape) (agreed : Agreed) (lists : ListsOf) (before after : Moment)
        → InRange config
        → IsSettled config agreed lists before
        → AreHeard config lists before
        → IsRound config Tick Done (gatherer_node config 0) config.gatherers before after
        → IsSettled config agreed lists after × AreHeard config lists after × AreTold config lists after }
{}

/// A tick of the orderers, once each has heard the lengths of all lists, and the delivery of all letters
/// decide the leader's next wish, and all replicas and orderers know it. The wish is the first of those that
/// wait, else the cut of all lengths; it is to be the last for now.
pub fn value_is_decided()
    ensures { (config : Shape) (agreed : Agreed) (lists : ListsOf) (value : Value) (before after : Moment)
        → InRange config
        → IsSettled config agreed lists before
        → AreTold config lists before
        → IsNextDecision config agreed lists value
        → IsRound config Tick Done (orderer_node config 0) config.orderers before after
        → IsSettled config (decided_on agreed value) lists after }
{}

/// Settling makes a moment at which primaries may be ahead, and a value is wished, a settled one: all
/// replicas hold the longer lists, and all nodes know the value.
pub fn settling_settles()
    ensures { (config : Shape) (agreed : Agreed) (from to : ListsOf) (value : Value) (before after : Moment)
        → InRange config
        → IsAhead config agreed from to before
        → IsNextDecision config agreed to value
        → IsSettling config before after
        → IsSettled config (decided_on agreed value) to after × AreHeard config to after }
{}

/// The opening makes nodes that are down, with empty disks, a settled cluster: orderer 0 leads, and no list
/// and no value is known.
pub fn opening_settles()
    ensures { (config : Shape) (before after : Moment)
        → InRange config
        → IsBeginning config before
        → IsOpening config before after
        → IsSettled config (at_first config) (no_lists config) after }
{}
