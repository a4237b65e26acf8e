//! Each adapter once.

use crate::{AnyRack, Reading, Writing};
use disk_base::{Disk, Rack};
use log_base::{PieceReader, send};
use std::test::Fail;

#[test]
fn streams_give_and_take_bytes(rt: HostRuntime) -> Result<(), Fail> {
    let mut source = Reading::new(b"log".as_slice());
    let mut reader = PieceReader::new();
    let bytes = reader.take(rt.alloc(), &mut source, 8).ok().ok_or("read")?;
    assert_eq!(rt; bytes.as_slice(), b"log".as_slice());
    let mut sink = Writing::new(Vec::new(rt.alloc()));
    assert_eq!(rt; send(&mut sink, &bytes), Ok(()));
    Ok(())
}

#[test]
fn a_rack_lends_an_empty_disk_and_takes_it_back(rt: HostRuntime) -> Result<(), Fail> {
    let mut rack = AnyRack::new(rt.alloc());
    let mut disk = rack.lend(None, 3).ok().ok_or("lend")?;
    assert_eq!(rt; disk.len(), Ok(0));
    rack.give_back(3, disk);
    let disk = rack.lend(Some("folder"), 3).ok().ok_or("lend again")?;
    assert_eq!(rt; disk.bytes().len(), 0);
    Ok(())
}
