//! What no clause says: that the calls succeed with ample memory, and that the clauses say what is meant.

use crate::*;
use disk_base::{MemoryDisk, Plan};
use std::alloc::Global;
use std::test::Fail;

// A payload of 16 bytes behind its open gate, and the closed gate.
const ONE: &[u8] = &[
    1, 0, 0, 0, 16, 1, 0, 0, 0, 0, 0, 1, 0, 0, 0, 0, 0, 0, 0, 1, 97, 0,
];

const PAYLOAD: &[u8] = &[1, 0, 0, 0, 0, 0, 1, 0, 0, 0, 0, 0, 0, 0, 1, 97];

// Makes room and puts. Whether it was put, where it could be tried.
fn put<J: Journal>(journal: &mut J, payload: &[u8]) -> Option<bool> {
    if journal.is_halted() || payload.len() > 131_072 {
        return None;
    }
    match journal.ready(payload.len() as u32) {
        Ok(()) => {}
        Err(_) => return None,
    }
    Some(journal.put(payload).is_ok())
}

// Reads anew, and puts in place what was read.
fn restart<J: Journal>(journal: &mut J) -> (bool, Installed) {
    let is_read = journal.reload().is_ok();
    (is_read, journal.install())
}

// The payload of an offset, and the place of its gate.
fn at<J: Journal>(journal: &J, offset: u32) -> Option<(&[u8], u64)> {
    if offset < journal.first() || offset >= journal.len() {
        return None;
    }
    Some((journal.get(offset), journal.gate(offset)))
}

fn load(
    alloc: Global,
    bytes: &[u8],
) -> Result<Result<SegmentJournal<MemoryDisk>, OpenFault>, Fail> {
    match SegmentJournal::load(alloc, MemoryDisk::of(alloc, bytes.to_vec(alloc)?)) {
        Ok(journal) => Ok(Ok(journal)),
        Err((fault, _disk)) => Ok(Err(fault)),
    }
}

#[test]
fn a_payload_is_written_and_read_again(rt: HostRuntime) -> Result<(), Fail> {
    let alloc = rt.alloc();
    let mut journal = load(alloc, &[])?.ok().ok_or("load")?;
    assert_eq!(rt; put(&mut journal, PAYLOAD), Some(true));
    let disk = journal.into_disk();
    assert_eq!(rt; disk.bytes(), ONE);
    let mut again = load(alloc, ONE)?.ok().ok_or("load")?;
    assert_eq!(rt; put(&mut again, b"second"), Some(true));
    assert_eq!(rt; again.len(), 2);
    assert!(rt; at(&again, 0) == Some((PAYLOAD, 0)));
    assert!(rt; at(&again, 1) == Some((b"second".as_slice(), 21)));
    assert!(rt; restart(&mut again) == (true, Installed::Same));
    assert_eq!(rt; again.len(), 2);
    files_recover();
    gates_part_puts();
    Ok(())
}

// Files, and how many payloads each holds or where it is damaged.
#[test]
fn files_hold_payloads_or_are_damaged(rt: HostRuntime) -> Result<(), Fail> {
    let table: [(&[u8], Result<u32, OpenFault>, &[u8]); 8] = [
        (&[], Ok(0), &[0]),
        (&[7], Ok(0), &[0]),
        (&[1, 0, 0, 0, 0], Ok(0), &[0, 0, 0, 0, 0]),
        (&[0, 9, 9], Ok(0), &[0, 9, 9]),
        (&[2, 0, 0, 0, 0, 1], Ok(0), &[2, 0, 0, 0, 0, 1]),
        (&[1, 0, 0, 0, 0, 3], Ok(1), &[1, 0, 0, 0, 0, 3]),
        (
            &[1, 0, 0, 0, 5, 0x41],
            Err(OpenFault::Damaged { at: 0 }),
            &[],
        ),
        (
            &[1, 0, 0, 0, 0, 1, 0, 2, 0, 1],
            Err(OpenFault::Damaged { at: 5 }),
            &[],
        ),
    ];
    for (bytes, want, after) in table {
        match load(rt.alloc(), bytes)? {
            Ok(journal) => {
                assert_eq!(rt; Ok(journal.len()), want, "{bytes:?}");
                let disk = journal.into_disk();
                assert_eq!(rt; disk.bytes(), after);
            }
            Err(fault) => assert_eq!(rt; Err(fault), want, "{bytes:?}"),
        }
    }
    Ok(())
}

// A put that stops at each of its writes, with none or one byte of it kept, and what is read then.
#[test]
fn a_put_that_fails_took_effect_or_not(rt: HostRuntime) -> Result<(), Fail> {
    let table = [
        (0, 0, Installed::Same),
        (0, 1, Installed::Same),
        (1, 0, Installed::Same),
        (1, 1, Installed::OneMore),
    ];
    for (after, keep, want) in table {
        let mut journal = load(rt.alloc(), ONE)?.ok().ok_or("load")?;
        journal.plan(Plan {
            after,
            keep,
            lose: false,
        });
        assert_eq!(rt; put(&mut journal, b"second"), Some(false));
        assert!(rt; journal.is_halted());
        assert_eq!(rt; put(&mut journal, b"third"), None);
        assert!(rt;
            restart(&mut journal) == (true, want),
            "after {after}, keep {keep}"
        );
        assert_eq!(rt;
            journal.len(),
            if want == Installed::OneMore { 2 } else { 1 }
        );
        assert_eq!(rt; put(&mut journal, b"third"), Some(true));
        assert!(rt; restart(&mut journal) == (true, Installed::Same));
    }
    Ok(())
}
