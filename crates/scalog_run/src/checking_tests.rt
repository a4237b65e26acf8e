//! The output of a run, checked as it is, changed in one place, and over a source and a sink that fail.

use crate::tests::{ADD_APPEND_READ, NEVER, Outcome, RUN, run_anew};
use crate::{check_history, runs_are_lawful, status};
use disk_base::MemoryDisk;
use log_base::{MemorySink, MemorySource};
use std::alloc::Global;
use std::test::Fail;

/// The head of the run's history.
const HEAD: &str = "00000009600202030100000001";

/// The event that takes the first Accepted of slot 0, and the same with what the next one puts out.
const ACCEPTED: &str = "0000000c620005010000002600000000";

const OTHER_OUTPUTS: &str =
    "0000006062000501000000260000060000000000080a000000000200000001000000080a000000000200000002000000080a000000000200000003000000080a000000000200000006000000080a000000000200000007000000080a0000000002000000";

/// The last event, which finds "a", and the same with "b".
const FOUND: &str =
    "000000296200000203000000000000000000000000030000000000000000000000000001000000000000000161";

const OTHER_RECORD: &str =
    "000000296200000203000000000000000000000000030000000000000000000000000001000000000000000162";

/// What a check of a source comes to, whose pieces have 16 bytes.
pub(crate) fn check_on(
    alloc: Global,
    input: &[u8],
    failing_read: u32,
    failing_write: u32,
) -> Result<Outcome, Fail> {
    let bytes = Vec::from_slice(alloc, input)?;
    let mut source = MemorySource::new(bytes, 16, vec![in alloc; failing_read]?);
    let fails = vec![in alloc; failing_write]?;
    let mut sink = MemorySink::new(alloc, 64, 4, fails).ok().ok_or("memory")?;
    let status = check_history(alloc, &mut source, &mut sink);
    let sent = Vec::from_slice(alloc, sink.bytes())?;
    Ok(Outcome { status, sent })
}

/// The bytes with a frame of them replaced by another.
fn replaced(alloc: Global, bytes: &[u8], frame: &str, other: &str) -> Result<Vec<u8>, Fail> {
    let frame = hex::decode(alloc, frame)?;
    let mut at = 0;
    while at < bytes.len() && !bytes[at..].starts_with(&frame) {
        at += 1;
    }
    let mut out = Vec::from_slice(alloc, &bytes[..at])?;
    out.extend_from_slice(&hex::decode(alloc, other)?)?;
    out.extend_from_slice(bytes[at..].strip_prefix(&frame).ok_or("frame")?)?;
    Ok(out)
}

#[test]
fn outputs_are_judged(rt: HostRuntime) -> Result<(), Fail> {
    runs_are_lawful::<MemoryDisk>();
    let run = run_anew(&rt, rt.alloc(), &RUN, ADD_APPEND_READ)?;
    let table = [
        ("the run", HEAD, HEAD, status::DONE, "000000056300000076"),
        (
            "another record is found",
            FOUND,
            OTHER_RECORD,
            status::UNLAWFUL,
            "0000000f7f0800000000000000000000000075",
        ),
        (
            "an event has the letters of the next",
            ACCEPTED,
            OTHER_OUTPUTS,
            status::UNLAWFUL,
            "0000000f7f080000000000000000000000002b",
        ),
        (
            "there is no head",
            HEAD,
            "",
            status::BAD_INPUT,
            "0000000f7f0300000000000000000000000038",
        ),
    ];
    for (name, frame, other, expected, sent) in table {
        let output = replaced(rt.alloc(), &run.sent, frame, other)?;
        let outcome = check_on(rt.alloc(), &output, NEVER, NEVER)?;
        assert_eq!(rt; outcome.status, expected, "{name}");
        assert_eq!(rt; outcome.sent, hex::decode(rt.alloc(), sent)?, "{name}");
    }
    Ok(())
}

#[test]
fn faults_of_a_check_are_told(rt: HostRuntime) -> Result<(), Fail> {
    let run = run_anew(&rt, rt.alloc(), &RUN, ADD_APPEND_READ)?;
    let read = check_on(rt.alloc(), &run.sent, 1, NEVER)?;
    assert_eq!(rt; read.status, status::READ_FAULT);
    assert_eq!(rt;
        read.sent.as_slice(),
        b"\0\0\0\x0f\x7f\x04\0\0\0\0\0\0\0\0\0\0\0\0\x10".as_slice()
    );
    let write = check_on(rt.alloc(), &run.sent, NEVER, 1)?;
    assert_eq!(rt; write.status, status::WRITE_FAULT);
    assert_eq!(rt; write.sent.as_slice(), b"\0\0\0\x05".as_slice());
    Ok(())
}
