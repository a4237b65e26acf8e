//! Items that are made.

ghost use Rattle.std.specs.Prelude.{◌≤◌, length};

use crate::make;
use log_base::{Config, number_u32};
use std::test::Fail;

/// The items of the greatest seed at five replicas of six shards: the additions, and six that are made.
const SIX: [u8; 158] = [
    0, 0, 0, 4, 5, 0, 0, 0, 0, 0, 0, 4, 5, 0, 0, 1, 0, 0, 0, 4, 5, 0, 0, 2, 0, 0, 0, 4, 5, 0, 0, 3,
    0, 0, 0, 4, 5, 0, 0, 4, 0, 0, 0, 4, 5, 0, 0, 5, 0, 0, 0, 15, 3, 3, 0, 1, 1, 0, 0, 0, 0, 0, 0,
    0, 0, 0, 4, 0, 0, 0, 22, 1, 1, 0, 3, 4, 98, 99, 100, 101, 102, 103, 104, 105, 106, 107, 108,
    109, 110, 111, 112, 113, 114, 0, 0, 0, 12, 1, 2, 0, 0, 1, 99, 100, 101, 102, 103, 104, 105, 0,
    0, 0, 9, 1, 1, 0, 0, 0, 100, 101, 102, 103, 0, 0, 0, 13, 2, 3, 0, 3, 4, 0, 0, 0, 0, 0, 0, 0, 3,
    0, 0, 0, 15, 3, 3, 0, 5, 2, 0, 0, 0, 0, 0, 0, 0, 5, 0, 4,
];

/// The read that ends a thousand items of seed 7 at two replicas of two shards.
const LAST: [u8; 17] = [0, 0, 0, 13, 2, 0, 0, 1, 0, 0, 0, 0, 0, 0, 0, 2, 164];

#[test]
fn six_items(rt: HostRuntime) -> Result<(), Fail> {
    let config = Config::new(5, 6, 3, 1)?;
    let mut out = Vec::new(rt.alloc());
    make(&config, u32::MAX, 6, &mut out)?;
    assert_eq!(rt; out.as_slice(), SIX.as_slice());
    make(&config, 0, 1, &mut out)?;
    assert_eq!(rt; &out[..158], SIX.as_slice());
    Ok(())
}

#[test]
fn thousand_items(rt: HostRuntime) -> Result<(), Fail> {
    let config = Config::new(2, 2, 3, 1)?;
    let mut out = Vec::new(rt.alloc());
    make(&config, 7, 1_000, &mut out)?;
    assert_eq!(rt; out.len(), 20_564);
    assert_eq!(rt; &out[20_547..], LAST.as_slice());
    let mut rest = out.as_slice();
    for _ in 0..1_002 {
        let length = frame_length(rest);
        assert!(rt; length > 0);
        rest = &rest[length..];
    }
    assert!(rt; rest.is_empty());
    Ok(())
}

/// The length of the frame at the front of some bytes, or 0 where no whole frame is there.
fn frame_length(bytes: &[u8]) -> usize
    ensures { result ≤ length bytes.now }
{
    if bytes.len() < 4 {
        return 0;
    }
    let length = number_u32(bytes, 0) as usize + 4;
    if length > bytes.len() {
        return 0;
    }
    length
}
