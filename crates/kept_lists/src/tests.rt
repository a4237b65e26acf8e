//! Lists of a cluster of one shard of two replicas, one gatherer and one orderer. Replica 0 has the disks 0
//! and 1, replica 1 the disks 8 and 9; segment 0 is kept on disks 0 and 8. The gatherer's would be 16, and
//! the orderer's list is on disk 24.

ghost use Rattle.std.specs.Prelude.{◌≡◌, IfOk};

use crate::{Sounding, sound};
use history_frame::Kept;
use log_base::{Bytes, Config};
use std::alloc::{AllocError, Global};
use std::test::Fail;

/// An entry with the last number before run 1.
const ENTRY: [u8; 16] = [1, 0, 7, 0, 0, 0, 0, 255, 255, 255, 255, 0, 0, 0, 1, 97];

/// An entry with the first number of run 1.
const ENTRY_OF_RUN_1: [u8; 16] = [1, 0, 7, 0, 0, 0, 1, 0, 0, 0, 0, 0, 0, 0, 1, 97];

/// A promise of ballot 1.
const PROMISE: [u8; 9] = [2, 0, 0, 0, 0, 0, 0, 0, 1];

/// A vote in ballot 1 for slot 0, of a cut of 5 entries of segment 0.
const VOTE_OF_5: [u8; 23] = [
    3, 0, 0, 0, 0, 0, 0, 0, 1, 0, 0, 0, 0, 1, 2, 0, 0, 0, 5, 0, 0, 0, 0,
];

/// A vote in ballot 1 for slot 0, of a cut of 1 entry of segment 0.
const VOTE_OF_1: [u8; 23] = [
    3, 0, 0, 0, 0, 0, 0, 0, 1, 0, 0, 0, 0, 1, 2, 0, 0, 0, 1, 0, 0, 0, 0,
];

// A payload that a disk kept.
fn on(alloc: Global, disk: u32, bytes: &[u8]) -> Result<Kept, AllocError>
    ensures { IfOk result (λ kept. kept.disk ≡ disk) }
{
    let payload = Bytes::of(bytes.to_vec(alloc)?);
    Ok(Kept { disk, payload })
}

#[test]
fn empty_lists_are_sound(rt: HostRuntime) -> Result<(), Fail> {
    let config = Config::new(2, 1, 1, 1)?;
    assert_eq!(rt; sound(&config, 1, &[]), Sounding::Sound);
    Ok(())
}

#[test]
fn one_payload_alone(rt: HostRuntime) -> Result<(), Fail> {
    let config = Config::new(2, 1, 1, 1)?;
    let broken = Sounding::Breaks { index: 0 };
    let entry = [on(rt.alloc(), 0, &ENTRY)?];
    assert_eq!(rt; sound(&config, 1, &entry), Sounding::Sound);
    let too_new = [on(rt.alloc(), 0, &ENTRY_OF_RUN_1)?];
    assert_eq!(rt; sound(&config, 1, &too_new), broken);
    assert_eq!(rt; sound(&config, 2, &too_new), Sounding::Sound);
    let of_a_gatherer = [on(rt.alloc(), 16, &ENTRY)?];
    assert_eq!(rt; sound(&config, 1, &of_a_gatherer), broken);
    let promise = [on(rt.alloc(), 24, &PROMISE)?];
    assert_eq!(rt; sound(&config, 1, &promise), Sounding::Sound);
    let vote = [on(rt.alloc(), 24, &VOTE_OF_5)?];
    assert_eq!(rt; sound(&config, 1, &vote), broken);
    Ok(())
}

#[test]
fn copies_and_votes(rt: HostRuntime) -> Result<(), Fail> {
    let config = Config::new(2, 1, 1, 1)?;
    let first = on(rt.alloc(), 0, &ENTRY)?;
    let copy = on(rt.alloc(), 8, &ENTRY)?;
    let vote = on(rt.alloc(), 24, &VOTE_OF_1)?;
    assert_eq!(rt; sound(&config, 1, &[first, copy, vote]), Sounding::Sound);
    let first = on(rt.alloc(), 0, &ENTRY)?;
    let copy = on(rt.alloc(), 8, &ENTRY)?;
    let too_long = on(rt.alloc(), 8, &ENTRY)?;
    assert_eq!(rt;
        sound(&config, 1, &[first, copy, too_long]),
        Sounding::Breaks { index: 2 }
    );
    let first = on(rt.alloc(), 0, &ENTRY)?;
    let differs = on(rt.alloc(), 8, &ENTRY_OF_RUN_1)?;
    assert_eq!(rt;
        sound(&config, 2, &[first, differs]),
        Sounding::Breaks { index: 1 }
    );
    Ok(())
}
