//! Quiet runs are answered as the log of one thread answers. Each function does nothing: its contract is the
//! law.

ghost use Rattle.std.specs.Prelude.{◌≡◌, ◌≤◌, ℕ, List, length};
ghost use Rattle.log_base.specs.ClusterShape.{Shape};
ghost use Rattle.paxos_model.specs.Leader.{slot_limit};
ghost use Rattle.command_frame.specs.declared.items.Item.{Item};
ghost use Rattle.history_frame.specs.declared.events.Event.{Event};
ghost use Rattle.plain_log.specs.Log.{log_of, start, state_after};
ghost use Rattle.schedule_model.specs.Driven.{replies_of};
ghost use Rattle.quiet_law.specs.Matching.{Matches};
ghost use Rattle.quiet_law.specs.Quiet.{HasSlots, IsQuietRun, moment_after};

/// A quiet run over empty disks gives its items the replies of the log of one thread. There are to be slots
/// for all values of the log, or at each moment of the run one for the next value.
pub fn quiet_runs_are_answered_as_the_log()
    ensures few { (config : Shape) (run : ℕ) (items : List Item) (events : List Event)
        → IsQuietRun config run items events
        → length (state_after config run (start config) items).values ≤ slot_limit
        → replies_of config run items events ≡ log_of config run items }
    ensures slots { (config : Shape) (run : ℕ) (items : List Item) (events : List Event)
        → IsQuietRun config run items events
        → HasSlots config events
        → replies_of config run items events ≡ log_of config run items }
{}

/// At its end every replica holds the lists of the log, and every node knows the values of the log.
pub fn quiet_runs_end_as_the_log()
    ensures few { (config : Shape) (run : ℕ) (items : List Item) (events : List Event)
        → IsQuietRun config run items events
        → length (state_after config run (start config) items).values ≤ slot_limit
        → Matches config (state_after config run (start config) items) (moment_after config events) }
    ensures slots { (config : Shape) (run : ℕ) (items : List Item) (events : List Event)
        → IsQuietRun config run items events
        → HasSlots config events
        → Matches config (state_after config run (start config) items) (moment_after config events) }
{}
