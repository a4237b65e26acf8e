//! Whether two replies of nodes are the same.

ghost use Rattle.std.specs.Prelude.{◌≡◌, IsTrue, ◌↔◌};
ghost use Rattle.history_walk.specs.Replies.{IsNodeReply};

use crate::messages::is_entry;
use reply_frame::Reply;

/// Whether a reply is the one that a node gives.
pub(crate) fn is_reply(reply: &Reply, given: &Reply) -> bool
    requires { IsNodeReply given.now }
    ensures { IsTrue result ↔ (reply.now ≡ given.now) }
{
    match given {
        Reply::Stored { offset } =>
            matches!(reply, Reply::Stored { offset: other } if other == offset),
        Reply::At { position } =>
            matches!(reply, Reply::At { position: other } if other == position),
        Reply::Found { position, entry } => match reply {
            Reply::Found {
                position: other,
                entry: found,
            } => other == position && is_entry(found, entry),
            _ => false,
        },
        Reply::PendingAsk { covered } =>
            matches!(reply, Reply::PendingAsk { covered: other } if other == covered),
        Reply::PendingRead { end } =>
            matches!(reply, Reply::PendingRead { end: other } if other == end),
        Reply::PendingWish { known } =>
            matches!(reply, Reply::PendingWish { known: other } if other == known),
        Reply::FinalisedAt { frozen } =>
            matches!(reply, Reply::FinalisedAt { frozen: other } if other == frozen),
        Reply::Stale { last } => matches!(reply, Reply::Stale { last: other } if other == last),
        Reply::Trimmed { mark } => matches!(reply, Reply::Trimmed { mark: other } if other == mark),
        Reply::Elsewhere { shard } =>
            matches!(reply, Reply::Elsewhere { shard: other } if other == shard),
        Reply::Taken { from } => matches!(reply, Reply::Taken { from: other } if other == from),
        Reply::Settled { slot } => matches!(reply, Reply::Settled { slot: other } if other == slot),
        Reply::Nothing => matches!(reply, Reply::Nothing),
        Reply::Finalised => matches!(reply, Reply::Finalised),
        Reply::NotAdded => matches!(reply, Reply::NotAdded),
        Reply::Full => matches!(reply, Reply::Full),
        Reply::Halted => matches!(reply, Reply::Halted),
        Reply::Down => matches!(reply, Reply::Down),
        Reply::Missing => matches!(reply, Reply::Missing),
        Reply::NoSuchShard => matches!(reply, Reply::NoSuchShard),
        Reply::NotLeading => matches!(reply, Reply::NotLeading),
        _ => unreachable!(),
    }
}
