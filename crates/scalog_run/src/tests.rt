//! Runs of the top call over sources and sinks in memory.

ghost use Rattle.std.specs.Prelude.{◌<◌};

use crate::{scalog, status};
use disk_base::{Disk, MemoryDisk, MemoryRack, Plan};
use log_base::{MemorySink, MemorySource};
use std::alloc::Global;
use std::sync::Wait;
use std::test::Fail;
use std::thread::Threads;

// Two replicas of each of two shards, three orderers and one gatherer.
pub(crate) const RUN: [&str; 1] = ["run"];

const BRIEF: [&str; 2] = ["run", "--brief"];

const CHECK: [&str; 1] = ["check"];

const MAKE: [&str; 3] = ["make", "7", "3"];

const SECOND_RUN: [&str; 3] = ["run", "--run", "2"];

// A call that no run makes.
pub(crate) const NEVER: u32 = u32::MAX;

const ADD: &[u8] = b"\0\0\0\x04\x05\0\0\0";

pub(crate) const ADD_APPEND_READ: &[u8] =
    b"\0\0\0\x04\x05\0\0\0\0\0\0\x06\x01\0\0\0\0a\0\0\0\x0d\x02\0\0\0\0\0\0\0\0\0\0\0\0";

// Add 0, Append "a", Finalise 0, Append "b", Read @0.
const FINALISED: &[u8] =
    b"\0\0\0\x04\x05\0\0\0\0\0\0\x06\x01\0\0\0\0a\0\0\0\x04\x06\0\0\0\0\0\0\x06\x01\0\0\0\0b\0\0\0\x0d\x02\0\0\0\0\0\0\0\0\0\0\0\0";

// Append "a", Ask, Finalise 0, and Ask on lane 1.
const ASKED: &[u8] =
    b"\0\0\0\x06\x01\0\0\0\0a\0\0\0\x02\x07\0\0\0\0\x04\x06\0\0\0\0\0\0\x02\x07\x01";

// Not added, missing, no such shard, and nothing kept.
const ASKED_ANSWERED: &[u8] =
    b"\0\0\0\x03\x40\0\x09\0\0\0\x03\x40\0\x0e\0\0\0\x03\x40\0\x12\0\0\0\x03\x40\x01\x18";

// Settled at slot 0, at position 0, settled at slot 2, finalised, and the first record found.
const FINALISED_ANSWERED: &[u8] =
    b"\0\0\0\x07\x40\0\x14\0\0\0\0\0\0\0\x0b\x40\0\x02\0\0\0\0\0\0\0\0\0\0\0\x07\x40\0\x14\0\0\0\x02\0\0\0\x03\x40\0\x07\0\0\0\x1a\x40\0\x03\0\0\0\0\0\0\0\0\0\0\0\0\0\x01\0\0\0\0\0\0\0\x01a";

// Add 0, Append "p", Trim 1, Read @0, Finalise 1.
const TRIMMED: &[u8] =
    b"\0\0\0\x04\x05\0\0\0\0\0\0\x06\x01\0\0\0\0p\0\0\0\x0a\x04\0\0\0\0\0\0\0\0\x01\0\0\0\x0d\x02\0\0\0\0\0\0\0\0\0\0\0\0\0\0\0\x04\x06\0\0\x01";

// Settled at slot 0, at position 0, settled at slot 2, trimmed up to 1, and no such shard.
const TRIMMED_ANSWERED: &[u8] =
    b"\0\0\0\x07\x40\0\x14\0\0\0\0\0\0\0\x0b\x40\0\x02\0\0\0\0\0\0\0\0\0\0\0\x07\x40\0\x14\0\0\0\x02\0\0\0\x0b\x40\0\x0f\0\0\0\0\0\0\0\x01\0\0\0\x03\x40\0\x12";

// Add 0, Append "a", "b" and "c", Trim 2, Read @1, Subscribe from 2 to 10, Trim 99, Read @2, Ask.
const SUBSCRIBED: &[u8] =
    b"\0\0\0\x04\x05\0\0\0\0\0\0\x06\x01\0\0\0\0a\0\0\0\x06\x01\0\0\0\0b\0\0\0\x06\x01\0\0\0\0c\0\0\0\x0a\x04\0\0\0\0\0\0\0\0\x02\0\0\0\x0d\x02\0\0\0\0\0\0\0\0\0\0\0\x01\0\0\0\x0f\x03\0\0\0\0\0\0\0\0\0\0\0\x02\0\x0a\0\0\0\x0a\x04\0\0\0\0\0\0\0\0\x63\0\0\0\x0d\x02\0\0\0\0\0\0\0\0\0\0\0\x02\0\0\0\x02\x07\0";

// Settled at slot 0, at positions 0, 1 and 2, settled at slot 4, trimmed up to 2, the record "c" and an end at 3, settled at slot 5,
// trimmed up to 3, and the number of the last append that is stored.
const SUBSCRIBED_ANSWERED: &[u8] =
    b"\0\0\0\x07\x40\0\x14\0\0\0\0\0\0\0\x0b\x40\0\x02\0\0\0\0\0\0\0\0\0\0\0\x0b\x40\0\x02\0\0\0\0\0\0\0\x01\0\0\0\x0b\x40\0\x02\0\0\0\0\0\0\0\x02\0\0\0\x07\x40\0\x14\0\0\0\x04\0\0\0\x0b\x40\0\x0f\0\0\0\0\0\0\0\x02\0\0\0\x25\x40\0\x15\0\0\0\0\0\0\0\x02\0\x01\0\0\0\0\0\x01\0\0\0\x02\0\0\0\x01c\x05\0\0\0\0\0\0\0\x03\0\0\0\x07\x40\0\x14\0\0\0\x05\0\0\0\x0b\x40\0\x0f\0\0\0\0\0\0\0\x03\0\0\0\x0b\x40\0\x0a\0\0\0\x01\0\0\0\x02";

// Add 0, Add 1, Append "x" to 0.0 and "y" to 1.1, and Subscribe from 0 to 2 at 0.0.
const SUBSCRIBED_ELSEWHERE: &[u8] =
    b"\0\0\0\x04\x05\0\0\0\0\0\0\x04\x05\0\0\x01\0\0\0\x06\x01\0\0\0\0x\0\0\0\x06\x01\0\0\x01\x01y\0\0\0\x0f\x03\0\0\0\0\0\0\0\0\0\0\0\0\0\x02";

// Settled at slots 0 and 1, at positions 0 and 1, and both records.
const SUBSCRIBED_ELSEWHERE_ANSWERED: &[u8] =
    b"\0\0\0\x07\x40\0\x14\0\0\0\0\0\0\0\x07\x40\0\x14\0\0\0\x01\0\0\0\x0b\x40\0\x02\0\0\0\0\0\0\0\0\0\0\0\x0b\x40\0\x02\0\0\0\0\0\0\0\x01\0\0\0\x2c\x40\0\x15\0\0\0\0\0\0\0\0\0\x02\0\0\0\0\0\x01\0\0\0\0\0\0\0\x01x\0\0\0\0\0\x01\0\0\0\x01\0\0\0\x01y\0";

// Settled at slot 0, at position 0, and the record found there.
const SETTLED_AT_FOUND: &[u8] =
    b"\0\0\0\x07\x40\0\x14\0\0\0\0\0\0\0\x0b\x40\0\x02\0\0\0\0\0\0\0\0\0\0\0\x1a\x40\0\x03\0\0\0\0\0\0\0\0\0\0\0\0\0\x01\0\0\0\0\0\0\0\x01a";

const TWO_SHARDS: &[u8] =
    b"\0\0\0\x04\x05\0\0\0\0\0\0\x04\x05\0\0\x01\0\0\0\x06\x01\0\0\0\0x\0\0\0\x06\x01\0\0\x01\x01y\0\0\0\x06\x01\0\0\0\x01z\0\0\0\x0d\x02\0\0\0\0\0\0\0\0\0\0\0\x01";

// Settled at slots 0 and 1, at positions 0, 1 and 2, and the record y found at position 1.
const TWO_SHARDS_ANSWERED: &[u8] =
    b"\0\0\0\x07\x40\0\x14\0\0\0\0\0\0\0\x07\x40\0\x14\0\0\0\x01\0\0\0\x0b\x40\0\x02\0\0\0\0\0\0\0\0\0\0\0\x0b\x40\0\x02\0\0\0\0\0\0\0\x01\0\0\0\x0b\x40\0\x02\0\0\0\0\0\0\0\x02\0\0\0\x1a\x40\0\x03\0\0\0\0\0\0\0\x01\0\0\0\0\0\x01\0\0\0\x01\0\0\0\x01y";

const EMPTY_RECORD: &[u8] =
    b"\0\0\0\x04\x05\0\0\0\0\0\0\x05\x01\0\0\0\0\0\0\0\x0d\x02\0\0\0\0\0\0\0\0\0\0\0\0";

// Settled at slot 0, at position 0, and the empty record found there.
const EMPTY_RECORD_ANSWERED: &[u8] =
    b"\0\0\0\x07\x40\0\x14\0\0\0\0\0\0\0\x0b\x40\0\x02\0\0\0\0\0\0\0\0\0\0\0\x19\x40\0\x03\0\0\0\0\0\0\0\0\0\0\0\0\0\x01\0\0\0\0\0\0\0\0";

// What is made from seed 7: the additions of two shards, a read, a subscription and an append of 20 letters.
const MADE: &[u8] =
    b"\0\0\0\x04\x05\0\0\0\0\0\0\x04\x05\0\0\x01\0\0\0\x0d\x02\x03\0\0\0\0\0\0\0\0\0\0\0\0\0\0\x0f\x03\x03\0\x01\x01\0\0\0\0\0\0\0\x01\0\x04\0\0\0\x19\x01\x02\0\x01\x01cdefghijklmnopqrstuv";

const READ_APPEND: &[u8] = b"\0\0\0\x0d\x02\0\0\0\0\0\0\0\0\0\0\0\0\0\0\0\x06\x01\0\0\0\0b";

// The record found at position 0, and the new one at position 1.
const FOUND_AT: &[u8] =
    b"\0\0\0\x1a\x40\0\x03\0\0\0\0\0\0\0\0\0\0\0\0\0\x01\0\0\0\0\0\0\0\x01a\0\0\0\x0b\x40\0\x02\0\0\0\0\0\0\0\x01";

// The heads of the histories of runs 1 and 2.
const HEAD: &[u8] = b"\0\0\0\x09\x60\x02\x02\x03\x01\0\0\0\x01";

const SECOND_HEAD: &[u8] = b"\0\0\0\x09\x60\x02\x02\x03\x01\0\0\0\x02";

// Orderer 0 leads, and its first letter prepares ballot 6.
const LEADS_AGAIN: &[u8] = b"\x62\0\x05\x04\0\x03\0\x05\0\0\0\x0d\x05\0\0\0\0\0\0\0\x06\0\0\0\0";

// The entry of an append of a, behind its open gate, and a closed gate.
const ENTRY: &[u8] = b"\x01\0\0\0\x10\x01\0\0\0\0\0\x01\0\0\0\0\0\0\0\x01a\0";

const DAMAGED: &[u8] = b"\x01\0\0\0\x05A";

const KEPT: u8 = 0x61;

const EVENT: u8 = 0x62;

// The status of a run and what its sink has taken.
#[derive(Drop)]
pub(crate) struct Outcome {
    pub(crate) status: u8,
    pub(crate) sent: Vec<u8>,
}

fn run_on<R: Threads + Wait + Sync>(
    rt: &R,
    alloc: Global,
    words: &[&str],
    input: &[u8],
    failing_read: u32,
    failing_write: u32,
    rack: &mut MemoryRack,
) -> Result<Outcome, Fail> {
    let mut texts = Vec::new(alloc);
    for word in words {
        texts.push(String::from_str(alloc, word)?)?;
    }
    let bytes = Vec::from_slice(alloc, input)?;
    let mut source = MemorySource::new(bytes, 5, vec![in alloc; failing_read]?);
    let fails = vec![in alloc; failing_write]?;
    let mut sink = MemorySink::new(alloc, 16_777_216, 4, fails)
        .ok()
        .ok_or("memory")?;
    let status = scalog(rt, alloc, &texts, &mut source, &mut sink, rack);
    let sent = Vec::from_slice(alloc, sink.bytes())?;
    Ok(Outcome { status, sent })
}

pub(crate) fn run_anew<R: Threads + Wait + Sync>(
    rt: &R,
    alloc: Global,
    words: &[&str],
    input: &[u8],
) -> Result<Outcome, Fail> {
    let mut rack = MemoryRack::new(alloc);
    run_on(rt, alloc, words, input, NEVER, NEVER, &mut rack)
}

// How many frames of a kind stand in the bytes.
pub(crate) fn count_frames(bytes: &[u8], kind: u8) -> usize {
    let mut at = 0;
    let mut count: usize = 0;
    for _ in 0..bytes.len() {
        if at >= bytes.len() || bytes.len() - at < 5 {
            break;
        }
        let length = u32::from_be_bytes([bytes[at], bytes[at + 1], bytes[at + 2], bytes[at + 3]]);
        if bytes[at + 4] == kind {
            count = count.saturating_add(1);
        }
        if length as usize > bytes.len() - at - 4 {
            break;
        }
        at += 4 + length as usize;
    }
    count
}

#[test]
fn inputs_are_answered(rt: HostRuntime) -> Result<(), Fail> {
    let table = [
        ("nothing", b"".as_slice(), b"".as_slice(), Some(15)),
        ("one record", ADD_APPEND_READ, SETTLED_AT_FOUND, Some(118)),
        ("two shards", TWO_SHARDS, TWO_SHARDS_ANSWERED, None),
        (
            "an empty record",
            EMPTY_RECORD,
            EMPTY_RECORD_ANSWERED,
            Some(118),
        ),
        ("a finalised shard", FINALISED, FINALISED_ANSWERED, None),
        ("a trimmed log", TRIMMED, TRIMMED_ANSWERED, None),
        ("no shard", ASKED, ASKED_ANSWERED, None),
        ("a subscription", SUBSCRIBED, SUBSCRIBED_ANSWERED, None),
        (
            "a subscription to two shards",
            SUBSCRIBED_ELSEWHERE,
            SUBSCRIBED_ELSEWHERE_ANSWERED,
            None,
        ),
    ];
    for (name, input, replies, events) in table {
        let outcome = run_anew(&rt, rt.alloc(), &RUN, input)?;
        assert_eq!(rt; outcome.status, status::DONE, "{name}");
        assert!(rt; outcome.sent.starts_with(replies), "{name}");
        let history = &outcome.sent[replies.len()..];
        assert!(rt; history.starts_with(HEAD), "{name}");
        assert_eq!(rt; count_frames(history, KEPT), 0, "{name}");
        if let Some(events) = events {
            assert_eq!(rt; count_frames(history, EVENT), events, "{name}");
        }
    }
    Ok(())
}

// The words of a command, its input, and what it sends.
#[test]
fn lines_and_made_inputs_are_sent(rt: HostRuntime) -> Result<(), Fail> {
    let table = [
        (
            BRIEF.as_slice(),
            b"".as_slice(),
            b"items 0 events 15 slots 0 end 0 trim 0\n".as_slice(),
        ),
        (
            BRIEF.as_slice(),
            ADD_APPEND_READ,
            b"items 3 events 118 slots 2 end 1 trim 0\n",
        ),
        (
            CHECK.as_slice(),
            b"\0\0\0\x09\x60\x02\x02\x03\x01\0\0\0\x01",
            b"\0\0\0\x05\x63\0\0\0\0",
        ),
        (MAKE.as_slice(), b"", MADE),
    ];
    for (words, input, sent) in table {
        let outcome = run_anew(&rt, rt.alloc(), words, input)?;
        assert_eq!(rt; outcome.status, status::DONE);
        assert_eq!(rt; outcome.sent.as_slice(), sent);
    }
    Ok(())
}

// A second run over the disks of the first one.
#[test]
fn disks_go_on(rt: HostRuntime) -> Result<(), Fail> {
    let mut rack = MemoryRack::new(rt.alloc());
    let first = run_on(
        &rt,
        rt.alloc(),
        &RUN,
        ADD_APPEND_READ,
        NEVER,
        NEVER,
        &mut rack,
    )?;
    assert_eq!(rt; first.status, status::DONE);
    for number in [0, 8] {
        let disk = rack.disk(number).ok_or("disk")?;
        assert_eq!(rt; disk.bytes(), ENTRY, "disk {number}");
    }
    let second = run_on(
        &rt,
        rt.alloc(),
        &SECOND_RUN,
        READ_APPEND,
        NEVER,
        NEVER,
        &mut rack,
    )?;
    assert_eq!(rt; second.status, status::DONE);
    assert!(rt; second.sent.starts_with(FOUND_AT));
    let history = &second.sent[FOUND_AT.len()..];
    assert!(rt; history.starts_with(SECOND_HEAD));
    assert_eq!(rt; count_frames(history, KEPT), 11);
    let mut led = history.windows(LEADS_AGAIN.len());
    assert!(rt; led.any(|bytes| bytes.starts_with(LEADS_AGAIN)));
    Ok(())
}

#[test]
fn bad_inputs_are_refused(rt: HostRuntime) -> Result<(), Fail> {
    let table = [
        ("length 0", b"\0\0\0\0".as_slice(), 0_u8),
        ("length 65,542", b"\0\x01\0\x06\x01\0\0\0\0", 0),
        ("length 2^32 - 1", b"\xff\xff\xff\xff\x01\0\0\0\0", 0),
        ("kind 9", b"\0\0\0\x02\x09\0", 0),
        ("a line that is none", b"\0\0\0\x07\x08\0holds", 0),
        (
            "a plan without a disk",
            b"\0\0\0\x17\x08\0stop 4 after 0 keep 0",
            0,
        ),
        ("lane 64", b"\0\0\0\x04\x05\x40\0\0", 0),
        ("shard 2", b"\0\0\0\x04\x05\0\0\x02", 0),
        ("replica 2", b"\0\0\0\x06\x01\0\0\0\x02a", 0),
        ("one byte too many", b"\0\0\0\x05\x05\0\0\0\0", 0),
        ("six bytes", &ADD_APPEND_READ[..6], 0),
        ("ten bytes", &ADD_APPEND_READ[..10], 8),
    ];
    for (name, input, place) in table {
        let outcome = run_anew(&rt, rt.alloc(), &RUN, input)?;
        let frame = [
            0, 0, 0, 15, 0x7f, 3, 0, 0, 0, 0, 0, 0, 0, 0, 0, 0, 0, 0, place,
        ];
        assert_eq!(rt; outcome.status, status::BAD_INPUT, "{name}");
        assert_eq!(rt; outcome.sent.as_slice(), frame.as_slice(), "{name}");
    }
    Ok(())
}

#[test]
fn words_and_faults_are_told(rt: HostRuntime) -> Result<(), Fail> {
    let words = [
        [].as_slice(),
        &["--help"],
        &["run", "--run=2"],
        &["run", "--shards", "8", "--replicas", "5"],
        &["check", "--brief"],
    ];
    for words in words {
        let outcome = run_anew(&rt, rt.alloc(), words, ADD_APPEND_READ)?;
        assert_eq!(rt; outcome.status, status::BAD_WORDS);
        assert_eq!(rt;
            outcome.sent.as_slice(),
            b"\0\0\0\x0f\x7f\x02\0\0\0\0\0\0\0\0\0\0\0\0\0".as_slice()
        );
    }
    let mut rack = MemoryRack::new(rt.alloc());
    let read = run_on(&rt, rt.alloc(), &RUN, ADD_APPEND_READ, 3, NEVER, &mut rack)?;
    assert_eq!(rt; read.status, status::READ_FAULT);
    assert_eq!(rt;
        read.sent.as_slice(),
        b"\0\0\0\x0f\x7f\x04\0\0\0\0\0\0\0\0\0\0\0\0\x0f".as_slice()
    );
    let write = run_on(&rt, rt.alloc(), &RUN, ADD_APPEND_READ, NEVER, 1, &mut rack)?;
    assert_eq!(rt; write.status, status::WRITE_FAULT);
    assert_eq!(rt; write.sent.as_slice(), b"\0\0\0\x07".as_slice());
    Ok(())
}

// Bytes that a run may not begin with, on the disk of a primary, of a copy and of an orderer. A copy past the
// end of its primary's list breaks it in the second run too.
#[test]
fn bad_disks_are_told(rt: HostRuntime) -> Result<(), Fail> {
    let table = [
        ("damaged", RUN.as_slice(), 0_u8, DAMAGED),
        ("an entry of this run", RUN.as_slice(), 0, ENTRY),
        ("an entry of this run", RUN.as_slice(), 25, ENTRY),
        ("a copy of nothing", SECOND_RUN.as_slice(), 8, ENTRY),
        ("no promise", SECOND_RUN.as_slice(), 40, ENTRY),
    ];
    for (name, words, number, bytes) in table {
        let mut rack = MemoryRack::new(rt.alloc());
        let disk = MemoryDisk::of(rt.alloc(), bytes.to_vec(rt.alloc())?);
        rack.place(u32::from(number), disk).ok().ok_or("place")?;
        let outcome = run_on(&rt, rt.alloc(), words, ADD, NEVER, NEVER, &mut rack)?;
        let frame = [
            0, 0, 0, 15, 0x7f, 6, 1, 0, 0, 0, number, 0, 0, 0, 0, 0, 0, 0, 0,
        ];
        assert_eq!(rt; outcome.status, status::DISK_FAULT, "{name}");
        assert_eq!(rt; outcome.sent.as_slice(), frame.as_slice(), "{name}");
        let back = rack.disk(u32::from(number)).ok_or("disk")?;
        assert_eq!(rt; back.bytes(), bytes, "{name}");
    }
    Ok(())
}

#[test]
fn failing_disks_are_told(rt: HostRuntime) -> Result<(), Fail> {
    let mut rack = MemoryRack::new(rt.alloc());
    let mut disk = MemoryDisk::of(rt.alloc(), Vec::new(rt.alloc()));
    disk.plan(Plan {
        after: 0,
        keep: 0,
        lose: false,
    });
    rack.place(8, disk).ok().ok_or("place")?;
    let outcome = run_on(&rt, rt.alloc(), &RUN, ADD, NEVER, NEVER, &mut rack)?;
    assert_eq!(rt; outcome.status, status::DISK_FAULT);
    assert_eq!(rt;
        outcome.sent.as_slice(),
        b"\0\0\0\x0f\x7f\x06\0\0\0\0\x08\0\0\0\0\0\0\0\0".as_slice()
    );
    Ok(())
}

// Frames of an Append of this many bytes behind an Add, and what comes of them.
fn long_record<R: Threads + Wait + Sync>(
    rt: &R,
    alloc: Global,
    size: usize,
) -> Result<Outcome, Fail>
    requires { size < 70000 }
{
    let mut input = Vec::from_slice(alloc, ADD)?;
    let length = size + 5;
    for byte in [0, length / 65_536 % 256, length / 256 % 256, length % 256] {
        input.push(byte as u8)?;
    }
    input.extend_from_slice(&[1, 0, 0, 0, 0])?;
    for _ in 0..size {
        input.push(7)?;
    }
    run_anew(rt, alloc, &RUN, &input)
}

#[test]
fn limits_are_those_that_are_stated(rt: HostRuntime) -> Result<(), Fail> {
    assert_eq!(rt; long_record(&rt, rt.alloc(), 65_535)?.status, status::DONE);
    let long = long_record(&rt, rt.alloc(), 65_536)?;
    assert_eq!(rt; long.status, status::BAD_INPUT);
    assert_eq!(rt;
        long.sent.as_slice(),
        b"\0\0\0\x0f\x7f\x03\0\0\0\0\0\0\0\0\0\0\0\0\x08".as_slice()
    );
    let mut input = Vec::new(rt.alloc());
    for _ in 0..65_537 {
        input.extend_from_slice(ADD)?;
    }
    let many = run_anew(&rt, rt.alloc(), &RUN, &input)?;
    assert_eq!(rt; many.status, status::TOO_MANY);
    assert_eq!(rt;
        many.sent.as_slice(),
        b"\0\0\0\x0f\x7f\x07\x01\0\0\0\0\0\0\0\0\0\0\0\0".as_slice()
    );
    Ok(())
}
