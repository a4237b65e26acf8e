//! Copies of replies.

ghost use Rattle.std.specs.Prelude.{◌≡◌, ◌≤◌, [], length, vec_len, vec_capacity};
ghost use Rattle.reply_frame.specs.Replies.{reply_bytes};
ghost use Rattle.schedule_model.specs.Streams.{IsSingle};

use log_base::Bytes;
use record_frame::Entry;
use reply_frame::Reply;

/// A copy of an entry, whose bytes go into a buffer with room for them.
fn copy_entry(entry: &Entry, room: Vec<u8>) -> Entry
    requires empty { (room.items ≡ []) × (vec_len room ≡ 0) }
    requires room { length entry.now.bytes ≤ vec_capacity room }
    ensures { result ≡ entry.now }
{
    let mut bytes = room;
    let _ = bytes.extend_from_slice(entry.bytes.get());
    bytes.shrink_to_fit();
    Entry {
        client: entry.client,
        number: entry.number,
        bytes: Bytes::of(bytes),
    }
}

/// A copy of a reply that holds no other. It takes no memory but the buffer.
pub(crate) fn copy_reply(reply: &Reply, room: Vec<u8>) -> Reply
    requires single { IsSingle reply.now }
    requires empty { (room.items ≡ []) × (vec_len room ≡ 0) }
    requires room { length (reply_bytes reply.now) ≤ vec_capacity room }
    ensures { result ≡ reply.now }
{
    match reply {
        Reply::Nothing => Reply::Nothing,
        Reply::Stored { offset } => Reply::Stored { offset: *offset },
        Reply::At { position } => Reply::At {
            position: *position,
        },
        Reply::Found { position, entry } => Reply::Found {
            position: *position,
            entry: copy_entry(entry, room),
        },
        Reply::PendingAsk { covered } => Reply::PendingAsk { covered: *covered },
        Reply::PendingRead { end } => Reply::PendingRead { end: *end },
        Reply::PendingWish { known } => Reply::PendingWish { known: *known },
        Reply::Finalised => Reply::Finalised,
        Reply::FinalisedAt { frozen } => Reply::FinalisedAt { frozen: *frozen },
        Reply::NotAdded => Reply::NotAdded,
        Reply::Stale { last } => Reply::Stale { last: *last },
        Reply::Full => Reply::Full,
        Reply::Halted => Reply::Halted,
        Reply::Down => Reply::Down,
        Reply::Missing => Reply::Missing,
        Reply::Trimmed { mark } => Reply::Trimmed { mark: *mark },
        Reply::Elsewhere { shard } => Reply::Elsewhere { shard: *shard },
        Reply::Taken { from } => Reply::Taken { from: *from },
        Reply::NoSuchShard => Reply::NoSuchShard,
        Reply::NotLeading => Reply::NotLeading,
        Reply::Settled { slot } => Reply::Settled { slot: *slot },
        Reply::Stream { .. } => unreachable!(),
        Reply::NoLeader => Reply::NoLeader,
        Reply::NoLetter { waiting } => Reply::NoLetter { waiting: *waiting },
        Reply::NothingKept => Reply::NothingKept,
        Reply::Done => Reply::Done,
        Reply::Spent { used } => Reply::Spent { used: *used },
    }
}
