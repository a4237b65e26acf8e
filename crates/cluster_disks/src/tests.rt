//! What no clause says: that a cluster is opened where there is memory, and what is told where it is not. It has
//! one replica, whose disk is 0, one gatherer, and one orderer, whose disk is 16.

use crate::{OpenStop, close_nodes, open_cluster};
use disk_base::{Disk, MemoryDisk, MemoryRack, Plan};
use log_base::Config;
use std::alloc::Global;
use std::test::Fail;

/// A promise of ballot 1.
const PROMISED: [u8; 15] = [1, 0, 0, 0, 9, 2, 0, 0, 0, 0, 0, 0, 0, 1, 0];

/// The same, and a vote for a cut of 5 entries.
const VOTED: [u8; 39] = [
    1, 0, 0, 0, 9, 2, 0, 0, 0, 0, 0, 0, 0, 1, 1, 0, 0, 0, 19, 3, 0, 0, 0, 0, 0, 0, 0, 1, 0, 0, 0,
    0, 1, 1, 0, 0, 0, 5, 0,
];

// Opens the cluster with this disk, and closes it. How many payloads were kept.
fn opened(alloc: Global, number: u32, disk: MemoryDisk) -> Result<Result<usize, OpenStop>, Fail> {
    let config = Config::new(1, 1, 1, 1)?;
    let mut rack = MemoryRack::new(alloc);
    rack.place(number, disk).ok().ok_or("place")?;
    match open_cluster(alloc, config, 1, &mut rack) {
        Ok(opened) => {
            let kept = opened.kept.len();
            close_nodes(config, opened.nodes, &mut rack);
            Ok(Ok(kept))
        }
        Err(stop) => Ok(Err(stop)),
    }
}

// The same with these bytes on a disk.
fn found(alloc: Global, number: u32, bytes: &[u8]) -> Result<Result<usize, OpenStop>, Fail> {
    opened(alloc, number, MemoryDisk::of(alloc, bytes.to_vec(alloc)?))
}

// A disk that failed, and stopped.
fn stopped(alloc: Global) -> Result<MemoryDisk, Fail> {
    let mut disk = MemoryDisk::of(alloc, Vec::new(alloc));
    disk.plan(Plan {
        after: 0,
        keep: 0,
        lose: false,
    });
    disk.ready(1).ok().ok_or("room")?;
    let _failed = disk.write(0, &[1]);
    Ok(disk)
}

#[test]
fn disks_that_may_begin_a_run_are_opened(rt: HostRuntime) -> Result<(), Fail> {
    let alloc = rt.alloc();
    assert_eq!(rt; found(alloc, 0, &[])?, Ok(0));
    assert_eq!(rt; found(alloc, 16, &PROMISED)?, Ok(1));
    Ok(())
}

// Fewer bytes than the first payload has; a vote that the replica's list does not cover; a promise on a replica's disk;
// a disk that gives nothing.
#[test]
fn the_disk_at_fault_is_told(rt: HostRuntime) -> Result<(), Fail> {
    let alloc = rt.alloc();
    let damaged = [1, 0, 0, 0, 5, 0x41];
    assert_eq!(rt;
        found(alloc, 0, &damaged)?,
        Err(OpenStop::BadDisk { disk: 0, at: 0 })
    );
    assert_eq!(rt;
        found(alloc, 16, &VOTED)?,
        Err(OpenStop::BadDisk { disk: 16, at: 14 })
    );
    assert_eq!(rt;
        found(alloc, 0, &PROMISED)?,
        Err(OpenStop::BadDisk { disk: 0, at: 0 })
    );
    assert_eq!(rt;
        opened(alloc, 16, stopped(alloc)?)?,
        Err(OpenStop::Unopened { disk: 16 })
    );
    Ok(())
}
