//! A stream that the reply has no room for, and a long run.

use crate::status;
use crate::tests::{count_frames, run_anew};
use std::test::Fail;

/// One node of each kind.
const SMALLEST: [&str; 9] = [
    "run",
    "--replicas",
    "1",
    "--shards",
    "1",
    "--orderers",
    "1",
    "--gatherers",
    "1",
];

const BRIEF: [&str; 2] = ["run", "--brief"];

const MADE: [&str; 3] = ["make", "7", "1000"];

/// The addition of shard 0.
const ADD: &[u8] = b"\0\0\0\x04\x05\0\0\0";

/// An append of 65,535 bytes, up to its record.
const LONGEST: &[u8] = b"\0\x01\0\x04\x01\0\0\0\0";

/// A subscription to 40 entries from position 0 on.
const SUBSCRIPTION: &[u8] = b"\0\0\0\x0f\x03\0\0\0\0\0\0\0\0\0\0\0\0\0\x28";

/// The reply frames of the addition and of the appends, in bytes.
const ANSWERS: usize = 11 + 40 * 15;

/// A stream of 31 entries, up to the first of them.
const STREAM: &[u8] = b"\0\x1f\x01\xa1\x40\0\x15\0\0\0\0\0\0\0\0\0\x1f";

/// The entries of the stream, in bytes.
const ENTRIES: usize = 31 * (14 + 65_535);

/// Nothing ends the stream, and the head of the history follows.
const NOTHING_HEAD: &[u8] = b"\0\0\0\0\x09\x60\x01\x01\x01\x01\0\0\0\x01";

// The reply has room for 31 of 40 entries.
#[test]
fn streams_end_where_the_reply_is_full(rt: HostRuntime) -> Result<(), Fail> {
    let mut input = Vec::from_slice(rt.alloc(), ADD)?;
    let record = vec![in rt.alloc(); 7_u8; 65_535]?;
    for _ in 0..40 {
        input.extend_from_slice(LONGEST)?;
        input.extend_from_slice(&record)?;
    }
    input.extend_from_slice(SUBSCRIPTION)?;
    let outcome = run_anew(&rt, rt.alloc(), &SMALLEST, &input)?;
    assert_eq!(rt; outcome.status, status::DONE);
    let (_, stream) = outcome.sent.split_at_checked(ANSWERS).ok_or("answers")?;
    let entries = stream.strip_prefix(STREAM).ok_or("stream")?;
    let (_, last) = entries.split_at_checked(ENTRIES).ok_or("entries")?;
    assert!(rt; last.starts_with(NOTHING_HEAD));
    Ok(())
}

// Each append of a long run has its place, and the same items come to the same.
#[test]
fn made_items_come_to_the_same(rt: HostRuntime) -> Result<(), Fail> {
    let made = run_anew(&rt, rt.alloc(), &MADE, b"")?;
    let first = run_anew(&rt, rt.alloc(), &BRIEF, &made.sent)?;
    let second = run_anew(&rt, rt.alloc(), &BRIEF, &made.sent)?;
    assert_eq!(rt; first.status, status::DONE);
    assert_eq!(rt; second.status, status::DONE);
    assert_eq!(rt; first.sent.as_slice(), second.sent.as_slice());
    assert!(rt; first.sent.starts_with(b"items 1002 "));
    let appends = count_frames(&made.sent, 1);
    let end = format!(in rt.alloc(); " end {appends} trim 0\n")?;
    assert!(rt; first.sent.ends_with(end.as_bytes()));
    Ok(())
}
