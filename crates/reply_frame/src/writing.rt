//! Writing a reply.

ghost use Rattle.std.specs.Prelude.{◌≡◌, ℕ, ◌+◌, ◌≤◌, ◌∷◌, ◌++◌, length, vec_len, vec_capacity, IsOk, OnOk, OnErr};
ghost use Rattle.log_base.specs.Wide.{be2, be4, be8};
ghost use Rattle.reply_frame.specs.Replies.{HasSpelling, IsReply, reply_bytes, reply_spelling};

use crate::entry_writing::{entries_length, entry_length, put_entries, put_entry};
use crate::replies::Reply;
use log_base::{Memory, put_u8, put_u16, put_u32, put_u64};

/// The kind of a reply's frame.
const REPLY: u8 = 0x40;

/// Appends the frame of a reply to a lane.
pub fn write_reply(lane: u8, reply: &Reply, out: &mut Vec<u8>) -> Result<(), Memory>
    requires { HasSpelling reply.now }
    ensures ok { OnOk result (out.new.items ≡ out.old.items ++ reply_spelling lane reply.now) }
    ensures err { OnErr result (out.new.items ≡ out.old.items) }
    ensures room { vec_len out.old + length (reply_spelling lane reply.now) ≤ vec_capacity out.old → IsOk result }
{
    let length = reply_length(reply) + 2;
    out.reserve(length as usize + 4)?;
    put_u32(length, out);
    put_u8(REPLY, out);
    put_u8(lane, out);
    put_reply(reply, out);
    Ok(())
}

/// How many bytes a reply has.
#[tactic(auto, unfolding(log_base::specs::Wide::be2, log_base::specs::Wide::be4, log_base::specs::Wide::be8))]
pub fn reply_length(reply: &Reply) -> u32
    requires is_reply { IsReply reply.now }
    requires fits { length (reply_bytes reply.now) ≤ 2097152 }
    ensures { result ≡ length (reply_bytes reply.now) }
{
    match reply {
        Reply::Nothing
        | Reply::Finalised
        | Reply::NotAdded
        | Reply::Full
        | Reply::Halted
        | Reply::Down
        | Reply::Missing
        | Reply::NoSuchShard
        | Reply::NotLeading
        | Reply::NoLeader
        | Reply::NothingKept
        | Reply::Done => 1,
        Reply::Elsewhere { .. } => 3,
        Reply::Stored { .. }
        | Reply::PendingAsk { .. }
        | Reply::PendingWish { .. }
        | Reply::FinalisedAt { .. }
        | Reply::Taken { .. }
        | Reply::Settled { .. }
        | Reply::NoLetter { .. }
        | Reply::Spent { .. } => 5,
        Reply::At { .. }
        | Reply::PendingRead { .. }
        | Reply::Stale { .. }
        | Reply::Trimmed { .. } => 9,
        Reply::Found { entry, .. } => 9 + entry_length(entry),
        Reply::Stream { entries, last, .. } => {
            11 + entries_length(entries.get()) + reply_length(last)
        }
    }
}

/// Appends a reply, for which there has to be room.
#[tactic(auto, unfolding(log_base::specs::Wide::be2, log_base::specs::Wide::be4, log_base::specs::Wide::be8))]
pub fn put_reply(reply: &Reply, out: &mut Vec<u8>)
    requires is_reply { IsReply reply.now }
    requires room { vec_len out.old + length (reply_bytes reply.now) ≤ vec_capacity out.old }
    ensures { out.new.items ≡ out.old.items ++ reply_bytes reply.now }
{
    match reply {
        Reply::Nothing => put_u8(0, out),
        Reply::Stored { offset } => put_kind_u32(1, *offset, out),
        Reply::At { position } => put_kind_u64(2, position.0, out),
        Reply::Found { position, entry } => {
            put_kind_u64(3, position.0, out);
            put_entry(entry, out);
        }
        Reply::PendingAsk { covered } => put_kind_u32(4, *covered, out),
        Reply::PendingRead { end } => put_kind_u64(5, end.0, out),
        Reply::PendingWish { known } => put_kind_u32(6, *known, out),
        Reply::Finalised => put_u8(7, out),
        Reply::FinalisedAt { frozen } => put_kind_u32(8, *frozen, out),
        Reply::NotAdded => put_u8(9, out),
        Reply::Stale { last } => put_kind_u64(10, last.0, out),
        Reply::Full => put_u8(11, out),
        Reply::Halted => put_u8(12, out),
        Reply::Down => put_u8(13, out),
        Reply::Missing => put_u8(14, out),
        Reply::Trimmed { mark } => put_kind_u64(15, mark.0, out),
        Reply::Elsewhere { shard } => put_kind_u16(16, shard.0, out),
        Reply::Taken { from } => put_kind_u32(17, *from, out),
        Reply::NoSuchShard => put_u8(18, out),
        Reply::NotLeading => put_u8(19, out),
        Reply::Settled { slot } => put_kind_u32(20, slot.0, out),
        Reply::Stream {
            from,
            entries,
            last,
        } => {
            put_kind_u64(21, from.0, out);
            put_u16(entries.get().len() as u16, out);
            put_entries(entries.get(), out);
            put_reply(last, out);
        }
        Reply::NoLeader => put_u8(22, out),
        Reply::NoLetter { waiting } => put_kind_u32(23, *waiting, out),
        Reply::NothingKept => put_u8(24, out),
        Reply::Done => put_u8(25, out),
        Reply::Spent { used } => put_kind_u32(26, *used, out),
    }
}

/// Appends a kind and a number of two bytes.
fn put_kind_u16(kind: u8, number: u16, out: &mut Vec<u8>)
    requires { vec_len out.old + 3 ≤ vec_capacity out.old }
    ensures items { out.new.items ≡ out.old.items ++ kind ∷ be2 number }
    ensures len { vec_len out.new ≡ vec_len out.old + 3 }
    ensures capacity { vec_capacity out.old ≤ vec_capacity out.new }
{
    put_u8(kind, out);
    put_u16(number, out);
}

/// Appends a kind and a number of four bytes.
fn put_kind_u32(kind: u8, number: u32, out: &mut Vec<u8>)
    requires { vec_len out.old + 5 ≤ vec_capacity out.old }
    ensures items { out.new.items ≡ out.old.items ++ kind ∷ be4 number }
    ensures len { vec_len out.new ≡ vec_len out.old + 5 }
    ensures capacity { vec_capacity out.old ≤ vec_capacity out.new }
{
    put_u8(kind, out);
    put_u32(number, out);
}

/// Appends a kind and a number of eight bytes.
fn put_kind_u64(kind: u8, number: u64, out: &mut Vec<u8>)
    requires { vec_len out.old + 9 ≤ vec_capacity out.old }
    ensures items { out.new.items ≡ out.old.items ++ kind ∷ be8 number }
    ensures len { vec_len out.new ≡ vec_len out.old + 9 }
    ensures capacity { vec_capacity out.old ≤ vec_capacity out.new }
{
    put_u8(kind, out);
    put_u64(number, out);
}
