//! Reading replies.

ghost use Rattle.std.specs.Prelude.{◌≡◌, ℕ, ◌+◌, ◌≤◌, length, IfOk};
ghost use Rattle.record_frame.specs.Fields.{Gives};
ghost use Rattle.history_frame.specs.ReplyReading.{told, bytes_end, plain_entry_at, plain_entries_at, is_wide, is_narrow, wide_reply, narrow_reply, bare_reply, wide_reply_at, narrow_reply_at, bare_reply_at, found_at, elsewhere_at, plain_reply_at, answer_at, stream_at, reply_at};

use log_base::{Bytes, Client, List, Number, Position, Shard, Slot};
use record_frame::{Entry, Refusal, field_end, read_u8, read_u16, read_u32, read_u64};
use reply_frame::Reply;
use std::alloc::Global;

/// The greatest length of a record.
const RECORD_LIMIT: u32 = 65_535;

/// The greatest kind of an answer that a node gives.
const LAST_ANSWER: u8 = 20;

/// The end of bytes that stand behind their number.
#[tactic(auto, unfolding(crate::specs::ReplyReading::bytes_end))]
pub fn read_bytes_end(bytes: &[u8], at: usize, limit: u32) -> Result<usize, Refusal>
    requires { at ≤ length bytes.now }
    ensures read { result ≡ bytes_end limit bytes.now at }
    ensures within { IfOk result (λ next. (at + 4 ≤ next) × (next ≤ length bytes.now)) }
{
    let (size, next) = read_u32(bytes, at)?;
    if size > limit {
        return Err(Refusal::TooLong {
            length: u64::from(size),
        });
    }
    field_end(bytes, next, size)
}

/// Reads an entry without a kind.
#[tactic(auto, unfolding(crate::specs::ReplyReading::plain_entry_at, crate::specs::ReplyReading::bytes_at))]
pub fn read_plain_entry(alloc: Global, bytes: &[u8], at: usize) -> Result<(Entry, usize), Refusal>
    requires { at ≤ length bytes.now }
    ensures read { Gives (λ x. x) result (plain_entry_at bytes.now at) }
    ensures within { IfOk result (λ x. x.1 ≤ length bytes.now) }
{
    let (client, next) = read_u16(bytes, at)?;
    let (number, start) = read_u64(bytes, next)?;
    let next = read_bytes_end(bytes, start, RECORD_LIMIT)?;
    let record = Vec::from_slice(alloc, &bytes[start + 4..next])?;
    let entry = Entry {
        client: Client(client),
        number: Number(number),
        bytes: Bytes::of(record),
    };
    Ok((entry, next))
}

/// Reads some entries.
fn read_plain_entries(
    alloc: Global,
    bytes: &[u8],
    at: usize,
    count: u16,
) -> Result<(Vec<Entry>, usize), Refusal>
    requires { at ≤ length bytes.now }
    ensures read { Gives (λ x. (x.0.items, x.1)) result (plain_entries_at count bytes.now at) }
    ensures within { IfOk result (λ x. x.1 ≤ length bytes.now) }
{
    let mut entries = Vec::new(alloc);
    let mut place = at;
    for i in 0..count {
        let (entry, next) = read_plain_entry(alloc, bytes, place)?;
        entries.push(entry)?;
        place = next;
    }
    Ok((entries, place))
}

/// Whether a reply of this kind has a number of eight bytes.
fn has_wide(kind: u8) -> bool
    ensures { result ≡ is_wide kind }
{
    matches!(kind, 2 | 5 | 10 | 15)
}

/// Whether a reply of this kind has a number of four bytes.
fn has_narrow(kind: u8) -> bool
    ensures { result ≡ is_narrow kind }
{
    matches!(kind, 1 | 4 | 6 | 8 | 17 | 20 | 23 | 26)
}

/// The reply of a kind with a number of eight bytes.
#[tactic(auto, unfolding(crate::specs::ReplyReading::wide_reply))]
fn reply_of_wide(kind: u8, number: u64) -> Result<Reply, Refusal>
    ensures { Gives told result (wide_reply kind number) }
{
    match kind {
        2 => Ok(Reply::At {
            position: Position(number),
        }),
        5 => Ok(Reply::PendingRead {
            end: Position(number),
        }),
        10 => Ok(Reply::Stale {
            last: Number(number),
        }),
        15 => Ok(Reply::Trimmed {
            mark: Position(number),
        }),
        _ => Err(Refusal::BadKind { byte: kind }),
    }
}

/// The reply of a kind with a number of four bytes.
#[tactic(auto, unfolding(crate::specs::ReplyReading::narrow_reply))]
fn reply_of_narrow(kind: u8, number: u32) -> Result<Reply, Refusal>
    ensures { Gives told result (narrow_reply kind number) }
{
    match kind {
        1 => Ok(Reply::Stored { offset: number }),
        4 => Ok(Reply::PendingAsk { covered: number }),
        6 => Ok(Reply::PendingWish { known: number }),
        8 => Ok(Reply::FinalisedAt { frozen: number }),
        17 => Ok(Reply::Taken { from: number }),
        20 => Ok(Reply::Settled { slot: Slot(number) }),
        23 => Ok(Reply::NoLetter { waiting: number }),
        26 => Ok(Reply::Spent { used: number }),
        _ => Err(Refusal::BadKind { byte: kind }),
    }
}

/// The reply of a kind alone.
#[tactic(auto, unfolding(crate::specs::ReplyReading::bare_reply))]
fn reply_of_kind(kind: u8) -> Result<Reply, Refusal>
    ensures { Gives told result (bare_reply kind) }
{
    match kind {
        0 => Ok(Reply::Nothing),
        7 => Ok(Reply::Finalised),
        9 => Ok(Reply::NotAdded),
        11 => Ok(Reply::Full),
        12 => Ok(Reply::Halted),
        13 => Ok(Reply::Down),
        14 => Ok(Reply::Missing),
        18 => Ok(Reply::NoSuchShard),
        19 => Ok(Reply::NotLeading),
        22 => Ok(Reply::NoLeader),
        24 => Ok(Reply::NothingKept),
        25 => Ok(Reply::Done),
        _ => Err(Refusal::BadKind { byte: kind }),
    }
}

#[tactic(auto, unfolding(crate::specs::ReplyReading::wide_reply_at))]
fn read_wide_reply(bytes: &[u8], at: usize, kind: u8) -> Result<(Reply, usize), Refusal>
    requires { at ≤ length bytes.now }
    ensures read { Gives (λ x. (told x.0, x.1)) result (wide_reply_at kind bytes.now at) }
    ensures within { IfOk result (λ x. x.1 ≤ length bytes.now) }
{
    let (number, next) = read_u64(bytes, at)?;
    let reply = reply_of_wide(kind, number)?;
    Ok((reply, next))
}

#[tactic(auto, unfolding(crate::specs::ReplyReading::narrow_reply_at))]
fn read_narrow_reply(bytes: &[u8], at: usize, kind: u8) -> Result<(Reply, usize), Refusal>
    requires { at ≤ length bytes.now }
    ensures read { Gives (λ x. (told x.0, x.1)) result (narrow_reply_at kind bytes.now at) }
    ensures within { IfOk result (λ x. x.1 ≤ length bytes.now) }
{
    let (number, next) = read_u32(bytes, at)?;
    let reply = reply_of_narrow(kind, number)?;
    Ok((reply, next))
}

#[tactic(auto, unfolding(crate::specs::ReplyReading::bare_reply_at))]
fn read_bare_reply(at: usize, kind: u8) -> Result<(Reply, usize), Refusal>
    ensures read { Gives (λ x. (told x.0, x.1)) result (bare_reply_at kind at) }
    ensures place { IfOk result (λ x. x.1 ≡ at) }
{
    let reply = reply_of_kind(kind)?;
    Ok((reply, at))
}

#[tactic(auto, unfolding(crate::specs::ReplyReading::found_at))]
fn read_found(alloc: Global, bytes: &[u8], at: usize) -> Result<(Reply, usize), Refusal>
    requires { at ≤ length bytes.now }
    ensures read { Gives (λ x. (told x.0, x.1)) result (found_at bytes.now at) }
    ensures within { IfOk result (λ x. x.1 ≤ length bytes.now) }
{
    let (position, next) = read_u64(bytes, at)?;
    let (entry, next) = read_plain_entry(alloc, bytes, next)?;
    let reply = Reply::Found {
        position: Position(position),
        entry,
    };
    Ok((reply, next))
}

#[tactic(auto, unfolding(crate::specs::ReplyReading::elsewhere_at))]
fn read_elsewhere(bytes: &[u8], at: usize) -> Result<(Reply, usize), Refusal>
    requires { at ≤ length bytes.now }
    ensures read { Gives (λ x. (told x.0, x.1)) result (elsewhere_at bytes.now at) }
    ensures within { IfOk result (λ x. x.1 ≤ length bytes.now) }
{
    let (shard, next) = read_u16(bytes, at)?;
    let reply = Reply::Elsewhere {
        shard: Shard(shard),
    };
    Ok((reply, next))
}

/// Reads the fields of a reply that is no stream.
#[tactic(auto, unfolding(crate::specs::ReplyReading::plain_reply_at))]
fn read_plain_reply(
    alloc: Global,
    bytes: &[u8],
    at: usize,
    kind: u8,
) -> Result<(Reply, usize), Refusal>
    requires { at ≤ length bytes.now }
    ensures read { Gives (λ x. (told x.0, x.1)) result (plain_reply_at kind bytes.now at) }
    ensures within { IfOk result (λ x. x.1 ≤ length bytes.now) }
{
    if kind == 3 {
        return read_found(alloc, bytes, at);
    }
    if kind == 16 {
        return read_elsewhere(bytes, at);
    }
    if has_wide(kind) {
        return read_wide_reply(bytes, at, kind);
    }
    if has_narrow(kind) {
        return read_narrow_reply(bytes, at, kind);
    }
    read_bare_reply(at, kind)
}

/// Reads the answer of a node.
#[tactic(auto, unfolding(crate::specs::ReplyReading::answer_at))]
fn read_answer(alloc: Global, bytes: &[u8], at: usize) -> Result<(Reply, usize), Refusal>
    requires { at ≤ length bytes.now }
    ensures read { Gives (λ x. (told x.0, x.1)) result (answer_at bytes.now at) }
    ensures within { IfOk result (λ x. x.1 ≤ length bytes.now) }
{
    let (kind, next) = read_u8(bytes, at)?;
    if kind > LAST_ANSWER {
        return Err(Refusal::BadKind { byte: kind });
    }
    read_plain_reply(alloc, bytes, next, kind)
}

#[tactic(auto, unfolding(crate::specs::ReplyReading::stream_at))]
fn read_stream(alloc: Global, bytes: &[u8], at: usize) -> Result<(Reply, usize), Refusal>
    requires { at ≤ length bytes.now }
    ensures read { Gives (λ x. (told x.0, x.1)) result (stream_at bytes.now at) }
    ensures within { IfOk result (λ x. x.1 ≤ length bytes.now) }
{
    let (from, next) = read_u64(bytes, at)?;
    let (count, next) = read_u16(bytes, next)?;
    let (entries, next) = read_plain_entries(alloc, bytes, next, count)?;
    let (last, next) = read_answer(alloc, bytes, next)?;
    let reply = Reply::Stream {
        from: Position(from),
        entries: List::of(entries),
        last: Box::new(alloc, last)?,
    };
    Ok((reply, next))
}

/// Reads a reply.
#[tactic(auto, unfolding(crate::specs::ReplyReading::reply_at))]
pub fn read_reply(alloc: Global, bytes: &[u8], at: usize) -> Result<(Reply, usize), Refusal>
    requires { at ≤ length bytes.now }
    ensures read { Gives (λ x. (told x.0, x.1)) result (reply_at bytes.now at) }
    ensures within { IfOk result (λ x. x.1 ≤ length bytes.now) }
{
    let (kind, next) = read_u8(bytes, at)?;
    if kind == 21 {
        return read_stream(alloc, bytes, next);
    }
    read_plain_reply(alloc, bytes, next, kind)
}
