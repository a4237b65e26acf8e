//! The laws. Each function does nothing: its contract is the law.

ghost use Rattle.std.specs.Prelude.{◌≡◌, ℕ, ◌+◌, List, Some, slice_get};
ghost use Rattle.std.specs.List.{AllByRecursion};
ghost use Rattle.cluster_run.specs.Runs.{AreShared};
ghost use Rattle.command_frame.specs.declared.items.Item.{Item};
ghost use Rattle.command_frame.specs.Items.{IsItem};
ghost use Rattle.history_frame.specs.declared.events.Event.{Event};
ghost use Rattle.lane_law.specs.Answers.{MayAnswer};
ghost use Rattle.log_base.specs.ClusterShape.{Shape};
ghost use Rattle.node_model.specs.Durable.{IsFounded};
ghost use Rattle.node_model.specs.Legal.{IsLegal};
ghost use Rattle.node_model.specs.NodeState.{KeptLists};
ghost use Rattle.reply_frame.specs.declared.replies.Reply.{Reply};
ghost use Rattle.stream_law.specs.Streams.{StreamsAgree};

/// The entry at each index of a stream was the answer to a read of its position, the stream's first and the
/// index, and stands in the sequence of the whole history there, at or above the mark that the replica knew when it
/// answered. So the entries are a piece of the sequence, from the stream's first position on.
pub fn served_streams_agree()
    ensures { (config : Shape) (run : ℕ) (kept : KeptLists) (items : List Item) (workers : ℕ) (events : List Event) (replies : List Reply)
        → IsFounded config run kept
        → IsLegal config run kept events
        → AreShared config run items workers events replies
        → StreamsAgree config kept events replies }
{}

/// The reply in the place of an item is one that the item may have, unless the pass of its lane was spent: to a
/// subscription a stream from the position that it names, with as many entries as it wants at most; to any other no
/// stream.
pub fn served_replies_fit()
    ensures { (config : Shape) (run : ℕ) (kept : KeptLists) (items : List Item) (workers : ℕ) (events : List Event) (replies : List Reply)
        → AllByRecursion (IsItem config) items
        → IsLegal config run kept events
        → AreShared config run items workers events replies
        → (k : ℕ) (item : Item) (reply : Reply)
        → slice_get items k ≡ Some item
        → slice_get replies k ≡ Some reply
        → MayAnswer item reply }
{}
