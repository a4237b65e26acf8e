//! The first wrong field of messages.

use crate::decode;
use std::test::Fail;

/// Bytes, why they are refused, and what is wrong.
const STORAGE: [&str; 20] = [
    " = Short { need: 1 } = no bytes",
    "00 = BadKind { byte: 0 } = kind 0",
    "0c0000 = BadKind { byte: 12 } = kind 12",
    "020500000005 = BadNumber { at: 1 } = peer 5",
    "02010000 = Short { need: 6 } = half a length",
    "020100004001 = BadNumber { at: 2 } = a length of 16,385",
    "02010000000500 = Long { extra: 1 } = a byte behind a length",
    "0105 = BadNumber { at: 1 } = segment 5",
    "01000000400001 = BadNumber { at: 2 } = offset 16,384",
    "01000000000004 = BadKind { byte: 4 } = an entry of another kind",
    "010000000000 = Short { need: 7 } = an entry that is not there",
    "010000000000010000000000000000000000010000 = TooLong { length: 65536 } = a record of 65,536 bytes",
    "01000000000001000000000000000000000000000261 = Short { need: 23 } = half a record",
    "01000000000001000000000000000000000000000061 = Long { extra: 1 } = a byte behind an entry",
    "030008000100000000 = BadNumber { at: 1 } = shard 8",
    "030007050100000000 = BadNumber { at: 3 } = replica 5",
    "0300070400 = BadNumber { at: 4 } = no lengths",
    "0300070406 = BadNumber { at: 4 } = 6 lengths of a replica",
    "03000704020000400000004001 = BadNumber { at: 9 } = a second length of 16,385",
    "04000706 = BadNumber { at: 3 } = 6 lengths of a shard",
];

const PAXOS: [&str; 15] = [
    "05000000000000000000000000 = BadNumber { at: 1 } = ballot 0",
    "05010000000000000000000000 = BadNumber { at: 1 } = ballot 2^56",
    "0501000000 = Short { need: 9 } = half a ballot of 2^56",
    "05000000000000000100004001 = BadNumber { at: 9 } = a window from 16,385",
    "0700000000000000010000000000000000 = BadNumber { at: 9 } = a promise of 0",
    "0700000000000000010100000000000000 = BadNumber { at: 9 } = a promise of 2^56",
    "0800000000000000010000400000 = BadNumber { at: 9 } = slot 16,384 to accept",
    "0800000000000000010000000005 = BadKind { byte: 5 } = a value of another kind",
    "08000000000000000100000000020008 = BadNumber { at: 14 } = a value with shard 8",
    "080000000000000001000000000000 = Long { extra: 1 } = a byte behind a value",
    "0900000000000000010000000007 = BadNumber { at: 13 } = orderer 7",
    "0a0000400000 = BadNumber { at: 1 } = slot 16,384 decided",
    "0b000040010000 = BadNumber { at: 1 } = slots from 16,385 on",
    "0b00000000002b = BadNumber { at: 5 } = node 43",
    "0b0000000000 = Short { need: 7 } = half a node",
];

const VOTES: [&str; 12] = [
    "060000000000000001000000000700 = BadNumber { at: 13 } = orderer 7",
    "060000000000000001000000000241 = BadNumber { at: 14 } = 65 votes",
    "060000000000000001000000000240 = Short { need: 19 } = 64 votes that are not there",
    "06000000000000000100000005020100000004000000000000000100 = BadNumber { at: 15 } = a vote before the window",
    "06000000000000000100000005020100000045000000000000000100 = BadNumber { at: 15 } = a vote behind the window",
    "06000000000000000100004000020100004000000000000000000100 = BadNumber { at: 15 } = slot 16,384 in the window",
    "0600000000000000010000000502020000000500000000000000010000000005000000000000000100 = BadNumber { at: 28 } = two votes for a slot",
    "0600000000000000010000000502020000000600000000000000010000000005000000000000000100 = BadNumber { at: 28 } = votes out of order",
    "06000000000000000100000005020100000005000000000000000000 = BadNumber { at: 19 } = a vote of ballot 0",
    "06000000000000000100000005020100000005010000000000000000 = BadNumber { at: 19 } = a vote of ballot 2^56",
    "06000000000000000100000005020100000005000000000000000109 = BadKind { byte: 9 } = a vote for a value of another kind",
    "0600000000000000010000000502010000000500000000000000010000 = Long { extra: 1 } = a byte behind the votes",
];

#[test]
fn first_wrong_field(rt: HostRuntime) -> Result<(), Fail> {
    for rows in [&STORAGE[..], &PAXOS[..], &VOTES[..]] {
        for row in rows {
            let (text, rest) = row.split_once(" = ").ok_or("row")?;
            let (refusal, what) = rest.split_once(" = ").ok_or("row")?;
            let bytes = hex::decode(rt.alloc(), text)?;
            let found = decode(rt.alloc(), &bytes).err();
            assert_eq!(rt;
                format!(in rt.alloc(); "{found:?}")?.as_str(),
                format!(in rt.alloc(); "Some({refusal})")?.as_str(),
                "{what}"
            );
        }
    }
    Ok(())
}
