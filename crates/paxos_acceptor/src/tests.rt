//! What no history shows: bytes that spell no payload.

use crate::payloads::{Entry, read_entry};
use crate::*;
use disk_base::MemoryDisk;
use log_base::{Ballot, Shard, Slot};
use message_frame::Vote;
use record_frame::Value;
use segment_journal::SegmentJournal;
use std::alloc::Global;
use std::test::Fail;

// A promise of ballot 4, and the vote of a noop for slot 0 in ballot 4.
const PROMISE: &[u8] = &[2, 0, 0, 0, 0, 0, 0, 0, 4];

const VOTE: &[u8] = &[3, 0, 0, 0, 0, 0, 0, 0, 4, 0, 0, 0, 0, 0];

// The acceptor of a file, or why it is none.
fn open(
    alloc: Global,
    file: &[u8],
) -> Result<Result<Acceptor<SegmentJournal<MemoryDisk>>, BadList>, Fail> {
    let disk = MemoryDisk::of(alloc, file.to_vec(alloc)?);
    let journal = match SegmentJournal::load(alloc, disk) {
        Ok(journal) => journal,
        Err(_) => return Err("load".into()),
    };
    match Acceptor::new(alloc, journal) {
        Ok(acceptor) => return Ok(Ok(acceptor)),
        Err((bad, _journal)) => return Ok(Err(bad)),
    }
}

fn vote(ballot: u64, slot: u32, value: Value) -> Vote {
    Vote {
        slot: Slot(slot),
        ballot: Ballot(ballot),
        value,
    }
}

// A file whose second payload is one byte.
#[test]
fn a_bad_payload_is_told_at_its_offset(rt: HostRuntime) -> Result<(), Fail> {
    let file = [
        1, 0, 0, 0, 9, 2, 0, 0, 0, 0, 0, 0, 0, 4, 1, 0, 0, 0, 1, 7, 1, 0, 0, 0, 0, 0,
    ];
    assert!(rt; open(rt.alloc(), &file)?.err() == Some(BadList::Payload { offset: 1 }));
    Ok(())
}

// The law of the definitions.
fn laws_hold() {
    payloads_are_listed();
}

// Bytes, and what they spell.
#[test]
fn bytes_spell_promises_and_votes(rt: HostRuntime) -> Result<(), Fail> {
    let table: [(&[u8], Option<Entry>); 9] = [
        (PROMISE, Some(Entry::Promise(Ballot(4)))),
        (VOTE, Some(Entry::Vote(vote(4, 0, Value::Noop)))),
        (
            &[3, 0, 0, 0, 0, 0, 0, 0, 4, 0, 0, 0x3f, 0xff, 2, 0, 1],
            Some(Entry::Vote(vote(4, 16_383, Value::Add(Shard(1))))),
        ),
        (&[3, 0, 0, 0, 0, 0, 0, 0, 4, 0, 0, 0x40, 0, 0], None),
        (&[2, 0, 0, 0, 0, 0, 0, 0, 0], None),
        (&[2, 1, 0, 0, 0, 0, 0, 0, 0], None),
        (&[2, 0, 0, 0, 0, 0, 0, 0, 4, 0], None),
        (&[1, 0, 0, 0, 0, 0, 0, 0, 4], None),
        (&[], None),
    ];
    laws_hold();
    for (bytes, want) in table {
        assert!(rt; read_entry(bytes) == want, "{bytes:?}");
    }
    Ok(())
}
