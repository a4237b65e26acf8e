//! A message of each kind, both ways.

use crate::{decode, encode, message_spelled};
use std::test::Fail;

/// Bytes, and the message that they spell.
const MESSAGES: [&str; 11] = [
    "010400003fff0100070000000000000009000000026869 = Copy { segment: Replica(4), offset: 16383, entry: Entry { client: Client(7), number: Number(9), bytes: Bytes { inner: [104, 105] } } }",
    "020100000005 = CopyAck { peer: Replica(1), length: 5 }",
    "03000704020000400000000001 = Report { shard: Shard(7), replica: Replica(4), lengths: Lengths { count: 2, length: [16384, 1, 0, 0, 0, 0, 0, 0, 0, 0, 0, 0, 0, 0, 0, 0, 0, 0, 0, 0, 0, 0, 0, 0, 0, 0, 0, 0, 0, 0, 0, 0] } }",
    "0400020100000102 = Least { shard: Shard(2), lengths: Lengths { count: 1, length: [258, 0, 0, 0, 0, 0, 0, 0, 0, 0, 0, 0, 0, 0, 0, 0, 0, 0, 0, 0, 0, 0, 0, 0, 0, 0, 0, 0, 0, 0, 0, 0] } }",
    "0500ffffffffffffff00004000 = Prepare { ballot: Ballot(72057594037927935), from: Slot(16384) }",
    "06000000000000000800000005060200000005000000000000000300000000440000000000000004020003 = Promised { ballot: Ballot(8), from: Slot(5), who: 6, votes: List { inner: [Vote { slot: Slot(5), ballot: Ballot(3), value: Noop }, Vote { slot: Slot(68), ballot: Ballot(4), value: Add(Shard(3)) }] } }",
    "0700000000000000010000000000000002 = Lower { ballot: Ballot(1), promised: Ballot(2) }",
    "08000000000000000100003fff040000000000000102 = Accept { ballot: Ballot(1), slot: Slot(16383), value: Trim(Position(258)) }",
    "0900000000000000010000000302 = Accepted { ballot: Ballot(1), slot: Slot(3), who: 2 }",
    "0a00000003030001 = Decide { slot: Slot(3), value: Finalise(Shard(1)) }",
    "0b00000004002a = Want { from: Slot(4), node: NodeId(42) }",
];

#[test]
fn each_kind_both_ways(rt: HostRuntime) -> Result<(), Fail> {
    for row in &MESSAGES {
        let (spelling, text) = row.split_once(" = ").ok_or("row")?;
        let bytes = hex::decode(rt.alloc(), spelling)?;
        let message = decode(rt.alloc(), &bytes)?;
        assert_eq!(rt; format!(in rt.alloc(); "{message:?}")?.as_str(), text);
        let mut out = Vec::new(rt.alloc());
        encode(&message, &mut out)?;
        assert_eq!(rt; out.as_slice(), bytes.as_slice(), "{text}");
    }
    message_spelled();
    Ok(())
}

#[test]
fn whole_window(rt: HostRuntime) -> Result<(), Fail> {
    let head = [6, 0, 0, 0, 0, 0, 0, 0, 1, 0, 0, 0, 0, 0, 64];
    let mut bytes = Vec::from_slice(rt.alloc(), &head)?;
    for slot in 0..64 {
        bytes.extend_from_slice(&[0, 0, 0, slot, 0, 0, 0, 0, 0, 0, 0, 1, 0])?;
    }
    let message = decode(rt.alloc(), &bytes)?;
    let mut out = vec![in rt.alloc(); 9]?;
    encode(&message, &mut out)?;
    assert_eq!(rt; &out[1..], bytes.as_slice());
    Ok(())
}
