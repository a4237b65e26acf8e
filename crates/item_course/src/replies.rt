//! Keeping replies.

ghost use Rattle.std.specs.Prelude.{◌≡◌, IfOk};
ghost use Rattle.schedule_model.specs.Streams.{IsSingle};

use log_base::{Bytes, Memory};
use record_frame::Entry;
use reply_frame::Reply;
use std::alloc::Global;

/// A copy of an entry.
pub fn copy_entry(alloc: Global, entry: &Entry) -> Result<Entry, Memory>
    ensures { IfOk result (λ copy. copy ≡ entry.now) }
{
    let bytes = Vec::from_slice(alloc, entry.bytes.get())?;
    Ok(Entry {
        client: entry.client,
        number: entry.number,
        bytes: Bytes::of(bytes),
    })
}

/// A copy of a reply that holds no other.
pub fn copy_reply(alloc: Global, reply: &Reply) -> Result<Reply, Memory>
    requires { IsSingle reply.now }
    ensures { IfOk result (λ copy. copy ≡ reply.now) }
{
    let copy = match reply {
        Reply::Nothing => Reply::Nothing,
        Reply::Stored { offset } => Reply::Stored { offset: *offset },
        Reply::At { position } => Reply::At {
            position: *position,
        },
        Reply::Found { position, entry } => Reply::Found {
            position: *position,
            entry: copy_entry(alloc, entry)?,
        },
        Reply::PendingAsk { covered } => Reply::PendingAsk { covered: *covered },
        Reply::PendingRead { end } => Reply::PendingRead { end: *end },
        Reply::PendingWish { known } => Reply::PendingWish { known: *known },
        Reply::Finalised => Reply::Finalised,
        Reply::FinalisedAt { frozen } => Reply::FinalisedAt { frozen: *frozen },
        Reply::NotAdded => Reply::NotAdded,
        Reply::Stale { last } => Reply::Stale { last: *last },
        Reply::Full => Reply::Full,
        Reply::Halted => Reply::Halted,
        Reply::Down => Reply::Down,
        Reply::Missing => Reply::Missing,
        Reply::Trimmed { mark } => Reply::Trimmed { mark: *mark },
        Reply::Elsewhere { shard } => Reply::Elsewhere { shard: *shard },
        Reply::Taken { from } => Reply::Taken { from: *from },
        Reply::NoSuchShard => Reply::NoSuchShard,
        Reply::NotLeading => Reply::NotLeading,
        Reply::Settled { slot } => Reply::Settled { slot: *slot },
        Reply::Stream { .. } => unreachable!(),
        Reply::NoLeader => Reply::NoLeader,
        Reply::NoLetter { waiting } => Reply::NoLetter { waiting: *waiting },
        Reply::NothingKept => Reply::NothingKept,
        Reply::Done => Reply::Done,
        Reply::Spent { used } => Reply::Spent { used: *used },
    };
    Ok(copy)
}
