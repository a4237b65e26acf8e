//! A reply of each kind.

ghost use Rattle.std.specs.Prelude.{◌≡◌, length, IfOk};
ghost use Rattle.reply_frame.specs.Replies.{HasSpelling};

use crate::{Reply, write_reply};
use log_base::{Bytes, Client, List, Memory, Number, Position, Shard, Slot};
use record_frame::Entry;
use std::alloc::{AllocError, Global};
use std::test::Fail;

/// A reply of each kind but for those with entries.
#[tactic(auto, unfolding(log_base::specs::Wide::be2, log_base::specs::Wide::be4, log_base::specs::Wide::be8))]
fn sample(kind: u8) -> Reply
    ensures { HasSpelling result }
{
    let position = Position(0x0102_0304_0506_0708);
    let number = 0x0102_0304;
    match kind {
        0 => Reply::Nothing,
        1 => Reply::Stored { offset: number },
        2 => Reply::At { position },
        4 => Reply::PendingAsk { covered: number },
        5 => Reply::PendingRead { end: position },
        6 => Reply::PendingWish { known: number },
        7 => Reply::Finalised,
        8 => Reply::FinalisedAt { frozen: number },
        9 => Reply::NotAdded,
        10 => Reply::Stale {
            last: Number(position.0),
        },
        11 => Reply::Full,
        12 => Reply::Halted,
        13 => Reply::Down,
        14 => Reply::Missing,
        15 => Reply::Trimmed { mark: position },
        16 => Reply::Elsewhere {
            shard: Shard(0x0102),
        },
        17 => Reply::Taken { from: number },
        18 => Reply::NoSuchShard,
        19 => Reply::NotLeading,
        20 => Reply::Settled { slot: Slot(number) },
        22 => Reply::NoLeader,
        23 => Reply::NoLetter { waiting: number },
        24 => Reply::NothingKept,
        25 => Reply::Done,
        _ => Reply::Spent { used: number },
    }
}

/// The kinds without a field, and those with one of two, four and eight bytes.
const NONE: [u8; 12] = [0, 7, 9, 11, 12, 13, 14, 18, 19, 22, 24, 25];

const FOUR: [u8; 8] = [1, 4, 6, 8, 17, 20, 23, 26];

const EIGHT: [u8; 4] = [2, 5, 10, 15];

#[test]
fn replies_with_a_number_or_none(rt: HostRuntime) -> Result<(), Fail> {
    let table: [(&[u8], &[u8]); 4] = [
        (&NONE, &[]),
        (&[16], &[1, 2]),
        (&FOUR, &[1, 2, 3, 4]),
        (&EIGHT, &[1, 2, 3, 4, 5, 6, 7, 8]),
    ];
    for (kinds, field) in table {
        for kind in kinds {
            let mut out = vec![in rt.alloc(); 7]?;
            write_reply(63, &sample(*kind), &mut out)?;
            let mut want = vec![in rt.alloc(); 7, 0, 0, 0, 3 + field.len() as u8, 0x40, 63, *kind]?;
            want.extend_from_slice(field)?;
            assert_eq!(rt; out.as_slice(), want.as_slice(), "kind {kind}");
        }
    }
    Ok(())
}

/// The entry of client 0, number 2^32, and a record.
fn entry(alloc: Global, bytes: &[u8]) -> Result<Entry, AllocError>
    ensures { IfOk result (λ entry. length entry.bytes ≡ length bytes.now) }
{
    Ok(Entry {
        client: Client(0),
        number: Number(1 << 32),
        bytes: Bytes::of(Vec::from_slice(alloc, bytes)?),
    })
}

/// Two entries from position 0 on, and an answer that ended them.
#[tactic(auto, unfolding(log_base::specs::Wide::be2, log_base::specs::Wide::be4, log_base::specs::Wide::be8))]
fn stream(alloc: Global) -> Result<Reply, Memory>
    ensures { IfOk result HasSpelling }
{
    let mut entries = Vec::new(alloc);
    entries.push(entry(alloc, b"a")?)?;
    entries.push(entry(alloc, b"")?)?;
    let last = Reply::PendingRead { end: Position(2) };
    Ok(Reply::Stream {
        from: Position(0),
        entries: List::of(entries),
        last: Box::new(alloc, last)?,
    })
}

#[test]
#[tactic(auto, unfolding(log_base::specs::Wide::be2, log_base::specs::Wide::be4, log_base::specs::Wide::be8))]
fn replies_with_entries(rt: HostRuntime) -> Result<(), Fail> {
    let found = Reply::Found {
        position: Position(0),
        entry: entry(rt.alloc(), b"a")?,
    };
    let mut out = Vec::new(rt.alloc());
    write_reply(0, &found, &mut out)?;
    write_reply(1, &stream(rt.alloc())?, &mut out)?;
    let want = [
        0, 0, 0, 26, 0x40, 0, 3, 0, 0, 0, 0, 0, 0, 0, 0, 0, 0, 0, 0, 0, 1, 0, 0, 0, 0, 0, 0, 0, 1,
        97, 0, 0, 0, 51, 0x40, 1, 21, 0, 0, 0, 0, 0, 0, 0, 0, 0, 2, 0, 0, 0, 0, 0, 1, 0, 0, 0, 0,
        0, 0, 0, 1, 97, 0, 0, 0, 0, 0, 1, 0, 0, 0, 0, 0, 0, 0, 0, 5, 0, 0, 0, 0, 0, 0, 0, 2,
    ];
    assert_eq!(rt; out.as_slice(), want.as_slice());
    Ok(())
}
