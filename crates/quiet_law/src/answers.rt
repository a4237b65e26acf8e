//! Items over moments are answered as the log of one thread answers them. Each function does nothing: its
//! contract is the law.

ghost use Rattle.std.specs.Prelude.{◌≡◌, ◌≤◌, ℕ, List, length};
ghost use Rattle.std.specs.List.{AllByRecursion};
ghost use Rattle.log_base.specs.ClusterShape.{InRange, Shape};
ghost use Rattle.paxos_model.specs.Leader.{slot_limit};
ghost use Rattle.command_frame.specs.declared.items.Item.{Item};
ghost use Rattle.command_frame.specs.Items.{IsItem, IsNoFault};
ghost use Rattle.reply_frame.specs.declared.replies.Reply.{Reply};
ghost use Rattle.plain_log.specs.Log.{LogState, after, log_of, reply_to, start, state_after};
ghost use Rattle.schedule_model.specs.Courses.{Scene, beginning};
ghost use Rattle.schedule_model.specs.Scheduling.{stream_before};
ghost use Rattle.subscriber.specs.Following.{Following};
ghost use Rattle.quiet_model.specs.Moments.{Moment};
ghost use Rattle.quiet_model.specs.Opening.{IsBeginning, IsOpening};
ghost use Rattle.quiet_law.specs.Going.{AllGo, Goes};
ghost use Rattle.quiet_law.specs.Matching.{IsInOrder, Matches, primaries_in};

/// The opening leads to a moment at which the cluster is as the log is at its start.
pub fn opening_starts_the_log()
    ensures { (config : Shape)
        → InRange config
        → (run : ℕ) (before after : Moment)
        → IsBeginning config before
        → IsOpening config before after
        → Matches config (start config) after × IsInOrder config run (start config) }
{}

/// An item that is no line of the fault script, and goes from a moment that is as the log has it, is answered as
/// the log answers, and leads to a moment that is as the log has it then, while there are slots for the values of the log.
pub fn item_is_answered_as_in_the_log()
    ensures { (config : Shape)
        → InRange config
        → (run : ℕ) (state : LogState) (item : Item)
        → IsInOrder config run state
        → IsItem config item
        → IsNoFault item
        → length (after config run state item).values ≤ slot_limit
        → (scene : Scene) (stream : Following) (calls : ℕ) (before later : Moment) (answer : Reply)
        → Matches config state before
        → Goes config (stream_before item stream) calls (beginning config run state.draws (primaries_in config state) scene item) before answer later
        → Matches config (after config run state item) later × (answer ≡ reply_to config run state item) × IsInOrder config run (after config run state item) }
{}

/// After the opening of a cluster with empty disks, items that go one after another get the replies of the log
/// of one thread.
pub fn run_is_answered_as_the_log()
    ensures { (config : Shape)
        → InRange config
        → (run : ℕ) (items : List Item)
        → AllByRecursion (IsItem config) items
        → AllByRecursion IsNoFault items
        → length (state_after config run (start config) items).values ≤ slot_limit
        → (before first later : Moment) (answers : List Reply)
        → IsBeginning config before
        → IsOpening config before first
        → AllGo config run (start config).draws (primaries_in config (start config)) items first answers later
        → Matches config (state_after config run (start config) items) later × (answers ≡ log_of config run items) }
{}
