//! A subscriber from position 2.

use crate::*;
use log_base::{Bytes, Client, Number, Position};
use record_frame::Entry;
use std::alloc::{AllocError, Global};
use std::test::Fail;

// An entry of one byte.
fn entry(alloc: Global, byte: u8) -> Result<Entry, AllocError> {
    Ok(Entry {
        client: Client(0),
        number: Number(u64::from(byte)),
        bytes: Bytes::of(Vec::from_slice(alloc, &[byte])?),
    })
}

#[test]
fn entries_are_taken_in_order(rt: HostRuntime) -> Result<(), Fail> {
    let alloc = rt.alloc();
    let mut subscriber = Subscriber::new(alloc, Position(2));
    let next = Offered::NotNext { next: Position(2) };
    let late = subscriber.offer(Position(3), entry(alloc, 3)?).ok();
    assert_eq!(rt; late, Some(next));
    let first = subscriber.offer(Position(2), entry(alloc, 2)?).ok();
    assert_eq!(rt; first, Some(Offered::Taken));
    assert_eq!(rt; subscriber.next(), Position(3));
    assert_eq!(rt; subscriber.delivered().len(), 1);
    assert_eq!(rt; subscriber.delivered()[0].number, Number(2));
    delivered_in_order();
    Ok(())
}
