//! What no clause says: that the calls succeed with ample memory, and that the clauses say what is meant.

use crate::*;
use std::test::Fail;

// Makes room and writes. Whether the write succeeded.
fn write(disk: &mut MemoryDisk, at: u64, bytes: &[u8]) -> Result<bool, &'static str> {
    disk.ready(bytes.len() as u64).ok().ok_or("room")?;
    if at > disk.bytes().len() as u64 {
        return Err("place");
    }
    Ok(disk.write(at, bytes).is_ok())
}

const fn plan(after: u32, keep: u32, lose: bool) -> Plan {
    Plan { after, keep, lose }
}

// Three writes with a sync after the first, by plans that fail none of them, or one.
#[test]
fn a_plan_fails_one_write_and_all_calls_after_it(rt: HostRuntime) -> Result<(), Fail> {
    let table: [(Plan, [bool; 3], &[u8]); 6] = [
        (plan(3, 0, true), [true, true, true], b"ABCDefGH"),
        (plan(0, 1, false), [false, false, false], b"Abcdef"),
        (plan(0, 9, false), [false, false, false], b"ABcdef"),
        (plan(1, 1, false), [true, false, false], b"ABCdef"),
        (plan(2, 1, false), [true, true, false], b"ABCDefG"),
        (plan(2, 1, true), [true, true, false], b"ABcdef"),
    ];
    for (plan, want, bytes) in table {
        let mut disk = MemoryDisk::of(rt.alloc(), b"abcdef".to_vec(rt.alloc())?);
        disk.plan(plan);
        let first = write(&mut disk, 0, b"AB")?;
        assert_eq!(rt; disk.sync().is_ok(), first);
        let second = write(&mut disk, 2, b"CD")?;
        let third = write(&mut disk, 6, b"GH")?;
        assert_eq!(rt; [first, second, third], want, "after {}", plan.after);
        assert_eq!(rt; disk.bytes(), bytes, "after {}", plan.after);
        assert_eq!(rt; disk.len().is_ok(), third);
        assert!(rt; disk.reopen().is_ok());
        assert_eq!(rt; disk.len(), Ok(bytes.len() as u64));
    }
    Ok(())
}

#[test]
fn a_read_gives_what_was_written(rt: HostRuntime) -> Result<(), Fail> {
    let mut disk = MemoryDisk::of(rt.alloc(), Vec::new(rt.alloc()));
    assert!(rt; write(&mut disk, 0, b"scalog")?);
    let mut bytes = [0; 3];
    assert!(rt; disk.bytes().len() >= 5);
    assert!(rt; disk.read(2, &mut bytes).is_ok());
    assert_eq!(rt; bytes.as_slice(), b"alo".as_slice());
    crashes_tear_writes();
    Ok(())
}

// No loan of a disk in memory fails but by want of memory.
#[test]
fn a_rack_lends_takes_back_and_lends_again(rt: HostRuntime) -> Result<(), Fail> {
    let mut rack = MemoryRack::new(rt.alloc());
    let disk = MemoryDisk::of(rt.alloc(), b"seven".to_vec(rt.alloc())?);
    rack.place(7, disk).ok().ok_or("place")?;
    assert!(rt; rack.disk(8).is_none());
    let mut lent = rack.lend(Some("folder"), 7).ok().ok_or("lend")?;
    assert!(rt; rack.disk(7).is_none());
    lent.plan(plan(0, 2, false));
    assert!(rt; !write(&mut lent, 0, b"SEVEN")?);
    rack.give_back(7, lent);
    assert_eq!(rt;
        rack.disk(7).map(|disk| disk.bytes()),
        Some(b"SEven".as_slice())
    );
    let mut again = rack.lend(None, 7).ok().ok_or("lend")?;
    assert!(rt; write(&mut again, 0, b"s")?);
    let empty = rack.lend(None, 8).ok().ok_or("lend")?;
    assert_eq!(rt; empty.bytes().len(), 0);
    Ok(())
}
