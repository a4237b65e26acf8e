//! The laws. Each function does nothing: its contract is the law.

ghost use Rattle.std.specs.Prelude.{◌≡◌, ℕ, List, Some, slice_get};
ghost use Rattle.std.specs.List.{AllByRecursion};
ghost use Rattle.command_frame.specs.declared.items.Item.{Item};
ghost use Rattle.command_frame.specs.Items.{IsItem};
ghost use Rattle.reply_frame.specs.declared.replies.Reply.{Reply};
ghost use Rattle.history_frame.specs.declared.events.Event.{Event};
ghost use Rattle.log_base.specs.ClusterShape.{Shape};
ghost use Rattle.node_model.specs.Durable.{IsFounded};
ghost use Rattle.node_model.specs.Legal.{IsLegal};
ghost use Rattle.node_model.specs.NodeState.{KeptLists};
ghost use Rattle.schedule_model.specs.Driven.{IsFollowed, replies_of};
ghost use Rattle.stream_law.specs.Replies.{IsReplyTo};
ghost use Rattle.stream_law.specs.Streams.{EachInStream, StreamsAgree, WasFound};

/// The entry at each index of a stream was the answer to a read of its position: the stream's first
/// position and the index.
pub fn streams_were_found()
    ensures { (config : Shape) (run : ℕ) (kept : KeptLists) (items : List Item) (events : List Event)
        → IsLegal config run kept events
        → IsFollowed config run items events
        → AllByRecursion (EachInStream (WasFound events)) (replies_of config run items events) }
{}

/// The entry at each index of a stream stands in the sequence of the whole history at its position, which
/// was at or above the mark that the replica knew when it answered. So the entries are a piece of the
/// sequence, from the stream's first position on.
pub fn streams_agree()
    ensures { (config : Shape) (run : ℕ) (kept : KeptLists) (items : List Item) (events : List Event)
        → IsFounded config run kept
        → IsLegal config run kept events
        → IsFollowed config run items events
        → StreamsAgree config kept events (replies_of config run items events) }
{}

/// The reply in the place of an item is one that the item may have: to a subscription a stream from the
/// position that it names, with as many entries as it wants at most; to any other no stream.
pub fn replies_fit_their_items()
    ensures { (config : Shape) (run : ℕ) (kept : KeptLists) (items : List Item) (events : List Event)
        → AllByRecursion (IsItem config) items
        → IsLegal config run kept events
        → (k : ℕ) (item : Item) (reply : Reply)
        → slice_get items k ≡ Some item
        → slice_get (replies_of config run items events) k ≡ Some reply
        → IsReplyTo item reply }
{}
