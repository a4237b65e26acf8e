//! Which value is decided next. Each function does nothing: its contract is the law.

ghost use Rattle.std.specs.Prelude.{◌≡◌, ◌<◌, ℕ, length, Some};
ghost use Rattle.log_base.specs.ClusterShape.{InRange, Shape};
ghost use Rattle.log_model.specs.Chain.{Live};
ghost use Rattle.paxos_model.specs.Leader.{slot_limit};
ghost use Rattle.record_frame.specs.declared.entries.Entry.{Entry};
ghost use Rattle.record_frame.specs.declared.values.Value.{Value};
ghost use Rattle.record_frame.specs.declared.values.Value.TheVariants.{Cut};
ghost use Rattle.plain_log.specs.Coherent.{IsCoherentState};
ghost use Rattle.plain_log.specs.Log.{LogState, cut_of, standing_of, stored, with_value};
ghost use Rattle.quiet_model.specs.Deciding.{IsNextDecision, wishing};
ghost use Rattle.quiet_model.specs.Settled.{AreLists, ListsOf};
ghost use Rattle.quiet_law.specs.Matching.{AreListsOf, agreed_in};

/// Once an entry is stored in a live shard, the cut of all lists is decided next, as the log has it.
pub fn entry_is_covered_next()
    ensures { (config : Shape)
        → InRange config
        → (ballot : ℕ) (lists : ListsOf)
        → AreLists config lists
        → (state : LogState) (shard segment : ℕ) (entry : Entry)
        → shard < config.shards
        → segment < config.replicas
        → standing_of config.replicas state shard ≡ Some Live
        → IsCoherentState config state
        → AreListsOf config (stored config.replicas state shard segment entry) lists
        → length state.values < slot_limit
        → IsNextDecision config (agreed_in ballot state) lists (Cut (cut_of (stored config.replicas state shard segment entry).segments)) }
{}

/// A value that is wished is decided next.
pub fn wish_is_decided_next()
    ensures { (config : Shape)
        → InRange config
        → (ballot : ℕ) (lists : ListsOf)
        → AreLists config lists
        → (state : LogState) (value : Value)
        → AreListsOf config state lists
        → IsCoherentState config (with_value state value)
        → length state.values < slot_limit
        → IsNextDecision config (wishing (agreed_in ballot state) value) lists value }
{}
