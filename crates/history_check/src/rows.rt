//! Histories that show each row of the nodes' rules with each mark that it can have. The checker steps a node for each
//! event, and compares what it puts out and replies. The histories are those of `tools/rows.py`, which are made from
//! the rules alone.

use crate::{CheckFault, Verdict, check};
use log_base::MemorySource;
use std::alloc::Global;
use std::test::Fail;

mod gaps;
mod rivals;
mod storing;
mod windows;

/// The head of a history of one node of each role, and an entry that its replica keeps.
const ALONE: &str = "00000009600101010100000002";

const ENTRY: &str = "000000146100000000010000000000010000000000000000";

/// How many entries fill a list.
const ENTRIES: u32 = 16_384;

/// What comes at a replica whose list is full: a shard is added, and then a submission is refused.
const FULL: &str = "\
    0000000762000006020000\
    0000000762000206020000\
    0000001a62000204000100020000000d0500000000000000010000000000\
    00000021620002010000000200000100020000000f06000000000000000100000000000000\
    0000000c620002010000000300000000\
    000000116200020204000002000000001100000000\
    0000001d6200020300010002000000100800000000000000010000000002000000\
    00000020620002010000000600000100020000000e090000000000000001000000000000\
    0000001a62000201000000070000010000000000080a0000000002000000\
    0000000c620000010000000800000000\
    000000166200000201000000000002000000000000000000000b\
    000000166200000201000000000002000000000000000000000b";

fn verdict_on(alloc: Global, bytes: Vec<u8>) -> Result<Verdict, CheckFault> {
    check(alloc, &mut MemorySource::new(bytes, 4_096, Vec::new(alloc)))
}

#[test]
fn each_row_is_lawful(rt: HostRuntime) -> Result<(), Fail> {
    let alloc = rt.alloc();
    let table = [
        ("storage nodes and a gatherer", storing::STORING, 111),
        ("rival leaders", rivals::RIVALS, 53),
        ("a gap, and ballots at their end", gaps::GAPS, 16),
        ("a window that moves", windows::WINDOWS, 137),
    ];
    for (name, rows, events) in table {
        let bytes = hex::decode(alloc, rows)?;
        assert_eq!(rt;
            verdict_on(alloc, bytes),
            Ok(Verdict::Lawful { events }),
            "{name}"
        );
    }
    Ok(())
}

#[test]
fn a_full_list_takes_no_more(rt: HostRuntime) -> Result<(), Fail> {
    let alloc = rt.alloc();
    let mut bytes = hex::decode(alloc, ALONE)?;
    let entry = hex::decode(alloc, ENTRY)?;
    for _ in 0..ENTRIES {
        bytes.extend_from_slice(&entry)?;
    }
    bytes.extend_from_slice(&hex::decode(alloc, FULL)?)?;
    assert_eq!(rt;
        verdict_on(alloc, bytes),
        Ok(Verdict::Lawful { events: 12 })
    );
    Ok(())
}
