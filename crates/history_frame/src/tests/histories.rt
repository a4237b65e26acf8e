//! Histories as they are read, frame by frame, and what is no history.

use crate::{HistoryReader, Piece};
use log_base::MemorySource;
use reply_frame::ItemFault;
use std::alloc::Global;
use std::test::Fail;

/// The frames of a history that follows a reply, and what they say.
const FRAMES: [&str; 34] = [
    "0000000740001400000000 = Reply",
    "00000009600202030100000001 = Head { config: Config { replicas: 2, shards: 2, orderers: 3, gatherers: 1 }, run: 1 }",
    "0000000761000000006162 = Kept(Kept { disk: 0, payload: Bytes { inner: [97, 98] } })",
    "000000056100000008 = Kept(Kept { disk: 8, payload: Bytes { inner: [] } })",
    "0000000762000006020000 = Event(Event { place: 0, node: NodeId(0), happened: Happened { input: Restart, mark: OpenedWithout, outputs: List { inner: [] }, reply: Nothing } })",
    "0000000762ffff05000000 = Event(Event { place: 1, node: NodeId(65535), happened: Happened { input: Stop, mark: Done, outputs: List { inner: [] }, reply: Nothing } })",
    "000000076200000401000c = Event(Event { place: 2, node: NodeId(0), happened: Happened { input: Lead, mark: Halted, outputs: List { inner: [] }, reply: Halted } })",
    "00000030620000030302000400000017010400003fff010007000000000000000900000002686900060000000602010000000500 = Event(Event { place: 3, node: NodeId(0), happened: Happened { input: Tick, mark: OpenedWith, outputs: List { inner: [Sent { to: NodeId(4), message: Copy { segment: Replica(4), offset: 16383, entry: Entry { client: Client(7), number: Number(9), bytes: Bytes { inner: [104, 105] } } } }, Sent { to: NodeId(6), message: CopyAck { peer: Replica(1), length: 5 } }] }, reply: Nothing } })",
    "0000000c620000010000000703040000 = Event(Event { place: 4, node: NodeId(0), happened: Happened { input: Deliver { place: 7, index: 3, message: None }, mark: StayedDown, outputs: List { inner: [] }, reply: Nothing } })",
    "0000001b620000020100070000000000000009000000016100000100000003 = Event(Event { place: 5, node: NodeId(0), happened: Happened { input: Call(Submit { client: Client(7), number: Number(9), bytes: Bytes { inner: [97] } }), mark: Done, outputs: List { inner: [] }, reply: Stored { offset: 3 } } })",
    "0000001a6200000202000700000000000000090000020000000000000102 = Event(Event { place: 6, node: NodeId(0), happened: Happened { input: Call(Ask { client: Client(7), number: Number(9) }), mark: Done, outputs: List { inner: [] }, reply: At { position: Position(258) } } })",
    "000000296200000203000700000000000001020000030000000000000102000700000000000000090000000161 = Event(Event { place: 7, node: NodeId(0), happened: Happened { input: Call(Read { client: Client(7), position: Position(258) }), mark: Done, outputs: List { inner: [] }, reply: Found { position: Position(258), entry: Entry { client: Client(7), number: Number(9), bytes: Bytes { inner: [97] } } } } })",
    "000000116200000204000702000100001100000004 = Event(Event { place: 8, node: NodeId(0), happened: Happened { input: Call(Request { client: Client(7), value: Add(Shard(1)) }), mark: Done, outputs: List { inner: [] }, reply: Taken { from: 4 } } })",
    "0000003362000002050007040000000000000102000000050000150000000000000009000100070000000000000009000000016110ffff = Event(Event { place: 9, node: NodeId(0), happened: Happened { input: Call(Settled { client: Client(7), value: Trim(Position(258)), from: 5 }), mark: Done, outputs: List { inner: [] }, reply: Stream { from: Position(9), entries: List { inner: [Entry { client: Client(7), number: Number(9), bytes: Bytes { inner: [97] } }] }, last: Elsewhere { shard: Shard(65535) } } } })",
    "0000000b6200000300000400000001 = Event(Event { place: 10, node: NodeId(0), happened: Happened { input: Tick, mark: Done, outputs: List { inner: [] }, reply: PendingAsk { covered: 1 } } })",
    "0000000f620000030000050000000000000001 = Event(Event { place: 11, node: NodeId(0), happened: Happened { input: Tick, mark: Done, outputs: List { inner: [] }, reply: PendingRead { end: Position(1) } } })",
    "0000000b6200000300000600000001 = Event(Event { place: 12, node: NodeId(0), happened: Happened { input: Tick, mark: Done, outputs: List { inner: [] }, reply: PendingWish { known: 1 } } })",
    "0000000762000003000007 = Event(Event { place: 13, node: NodeId(0), happened: Happened { input: Tick, mark: Done, outputs: List { inner: [] }, reply: Finalised } })",
    "0000000b6200000300000800000001 = Event(Event { place: 14, node: NodeId(0), happened: Happened { input: Tick, mark: Done, outputs: List { inner: [] }, reply: FinalisedAt { frozen: 1 } } })",
    "0000000762000003000009 = Event(Event { place: 15, node: NodeId(0), happened: Happened { input: Tick, mark: Done, outputs: List { inner: [] }, reply: NotAdded } })",
    "0000000f6200000300000a0000000000000001 = Event(Event { place: 16, node: NodeId(0), happened: Happened { input: Tick, mark: Done, outputs: List { inner: [] }, reply: Stale { last: Number(1) } } })",
    "000000076200000300000b = Event(Event { place: 17, node: NodeId(0), happened: Happened { input: Tick, mark: Done, outputs: List { inner: [] }, reply: Full } })",
    "000000076200000300000d = Event(Event { place: 18, node: NodeId(0), happened: Happened { input: Tick, mark: Done, outputs: List { inner: [] }, reply: Down } })",
    "000000076200000300000e = Event(Event { place: 19, node: NodeId(0), happened: Happened { input: Tick, mark: Done, outputs: List { inner: [] }, reply: Missing } })",
    "0000000f6200000300000f0000000000000001 = Event(Event { place: 20, node: NodeId(0), happened: Happened { input: Tick, mark: Done, outputs: List { inner: [] }, reply: Trimmed { mark: Position(1) } } })",
    "00000009620000030000100001 = Event(Event { place: 21, node: NodeId(0), happened: Happened { input: Tick, mark: Done, outputs: List { inner: [] }, reply: Elsewhere { shard: Shard(1) } } })",
    "0000000762000003000012 = Event(Event { place: 22, node: NodeId(0), happened: Happened { input: Tick, mark: Done, outputs: List { inner: [] }, reply: NoSuchShard } })",
    "0000000762000003000013 = Event(Event { place: 23, node: NodeId(0), happened: Happened { input: Tick, mark: Done, outputs: List { inner: [] }, reply: NotLeading } })",
    "0000000b6200000300001400000001 = Event(Event { place: 24, node: NodeId(0), happened: Happened { input: Tick, mark: Done, outputs: List { inner: [] }, reply: Settled { slot: Slot(1) } } })",
    "0000000762000003000016 = Event(Event { place: 25, node: NodeId(0), happened: Happened { input: Tick, mark: Done, outputs: List { inner: [] }, reply: NoLeader } })",
    "0000000b6200000300001700000001 = Event(Event { place: 26, node: NodeId(0), happened: Happened { input: Tick, mark: Done, outputs: List { inner: [] }, reply: NoLetter { waiting: 1 } } })",
    "0000000762000003000018 = Event(Event { place: 27, node: NodeId(0), happened: Happened { input: Tick, mark: Done, outputs: List { inner: [] }, reply: NothingKept } })",
    "0000000762000003000019 = Event(Event { place: 28, node: NodeId(0), happened: Happened { input: Tick, mark: Done, outputs: List { inner: [] }, reply: Done } })",
    "0000000b6200000300001a00000001 = Event(Event { place: 29, node: NodeId(0), happened: Happened { input: Tick, mark: Done, outputs: List { inner: [] }, reply: Spent { used: 1 } } })",
];

/// Bytes that are no history, and the place from which on they are no frame that may stand there.
const REFUSED: [(&str, &str, u64); 34] = [
    ("nothing", "", 0),
    ("a reply alone", "0000000740001400000000", 11),
    ("an event first", "0000000762000006020000", 0),
    ("a payload first", "000000056100000000", 0),
    (
        "a reply behind the head",
        "000000096002020301000000010000000740001400000000",
        13,
    ),
    (
        "a second head",
        "0000000960020203010000000100000009600202030100000001",
        13,
    ),
    (
        "a payload behind an event",
        "000000096002020301000000010000000762000006020000000000056100000000",
        24,
    ),
    ("a head cut short", "000000096002020301000000", 0),
    (
        "an event cut short",
        "0000000960020203010000000100000007620000060200",
        13,
    ),
    ("a length cut short", "00000009600202030100000001000000", 13),
    ("length 0", "000000096002020301000000010000000062", 13),
    (
        "length 2,097,153",
        "000000096002020301000000010020000162",
        13,
    ),
    ("run 0", "00000009600202030100000000", 0),
    ("run 1,000,001", "000000096002020301000f4241", 0),
    ("six replicas", "00000009600602030100000001", 0),
    ("two orderers", "00000009600202020100000001", 0),
    ("33 segments or more", "00000009600508030100000001", 0),
    (
        "a head with a byte too many",
        "0000000a60020203010000000100",
        0,
    ),
    (
        "a disk that falls",
        "00000009600202030100000001000000056100000008000000056100000007",
        22,
    ),
    (
        "a payload with no disk",
        "000000096002020301000000010000000461000000",
        13,
    ),
    (
        "a verdict",
        "00000009600202030100000001000000056300000001",
        13,
    ),
    (
        "input 0",
        "000000096002020301000000010000000762000000000000",
        13,
    ),
    (
        "input 7",
        "000000096002020301000000010000000762000007000000",
        13,
    ),
    (
        "call 6",
        "00000009600202030100000001000000086200000206000000",
        13,
    ),
    (
        "mark 5",
        "000000096002020301000000010000000762000003050000",
        13,
    ),
    (
        "reply 27",
        "00000009600202030100000001000000076200000300001b",
        13,
    ),
    (
        "a stream in a stream",
        "000000096002020301000000010000001d6200000300001500000000000000000000150000000000000000000000",
        13,
    ),
    (
        "a stream that ends with an item's reply",
        "0000000960020203010000000100000012620000030000150000000000000000000019",
        13,
    ),
    (
        "an output too few",
        "000000096002020301000000010000000762000003000100",
        13,
    ),
    (
        "a message longer than its text",
        "0000000960020203010000000100000012620000030001000400000005020100000500",
        13,
    ),
    (
        "a message shorter than its text",
        "00000009600202030100000001000000146200000300010004000000070201000000050000",
        13,
    ),
    (
        "an event with a byte too many",
        "00000009600202030100000001000000086200000300000000",
        13,
    ),
    (
        "a wish for shard 8",
        "000000096002020301000000010000000d62000002040007020008000000",
        13,
    ),
    ("a reply to a lane of an unknown kind", "0000000340001b", 0),
];

/// How many pieces a reader gives, up to 140,000, and the fault that ends them, if it is not the end.
fn read_all(
    alloc: Global,
    bytes: Vec<u8>,
    fails: Vec<u32>,
) -> Result<(u32, Option<ItemFault>), Fail> {
    let mut source = MemorySource::new(bytes, 4_096, fails);
    let mut reader = HistoryReader::new(alloc);
    for count in 0..140_000 {
        match reader.next(&mut source) {
            Ok(Piece::End) => return Ok((count, None)),
            Ok(_) => {}
            Err(fault) => {
                let again = reader.next(&mut source).err();
                return if again == Some(fault) {
                    Ok((count, again))
                } else {
                    Err("another answer after a fault".into())
                };
            }
        }
    }
    Err("no end".into())
}

#[test]
fn each_frame_read(rt: HostRuntime) -> Result<(), Fail> {
    let mut bytes = Vec::new(rt.alloc());
    for row in &FRAMES {
        let (spelling, _) = row.split_once(" = ").ok_or("row")?;
        bytes.extend_from_slice(&hex::decode(rt.alloc(), spelling)?)?;
    }
    let mut source = MemorySource::new(bytes, 5, Vec::new(rt.alloc()));
    let mut reader = HistoryReader::new(rt.alloc());
    for row in &FRAMES {
        let (_, text) = row.split_once(" = ").ok_or("row")?;
        let piece = reader.next(&mut source).ok().ok_or("fault")?;
        assert_eq!(rt; format!(in rt.alloc(); "{piece:?}")?.as_str(), text);
    }
    let last = reader.next(&mut source).ok().ok_or("fault")?;
    assert!(rt; matches!(last, Piece::End));
    Ok(())
}

#[test]
fn what_is_refused(rt: HostRuntime) -> Result<(), Fail> {
    for (name, text, at) in REFUSED {
        let bytes = hex::decode(rt.alloc(), text)?;
        let (_, fault) = read_all(rt.alloc(), bytes, Vec::new(rt.alloc()))?;
        assert_eq!(rt; fault, Some(ItemFault::Bad { at }), "{name}");
    }
    Ok(())
}

#[test]
fn source_that_fails(rt: HostRuntime) -> Result<(), Fail> {
    let mut bytes = hex::decode(rt.alloc(), "00000009600202030100000001")?;
    for _count in 0..1_000 {
        bytes.extend_from_slice(&[0, 0, 0, 7, 98, 0, 0, 6, 2, 0, 0])?;
    }
    let mut fails = Vec::new(rt.alloc());
    fails.push(1)?;
    let read = read_all(rt.alloc(), bytes, fails)?;
    assert_eq!(rt; read, (372, Some(ItemFault::Read { at: 4_096 })));
    Ok(())
}

#[test]
fn one_event_too_many(rt: HostRuntime) -> Result<(), Fail> {
    let mut bytes = hex::decode(rt.alloc(), "00000009600202030100000001")?;
    for _count in 0..131_073 {
        bytes.extend_from_slice(&[0, 0, 0, 7, 98, 0, 0, 6, 2, 0, 0])?;
    }
    let read = read_all(rt.alloc(), bytes, Vec::new(rt.alloc()))?;
    assert_eq!(rt; read, (131_073, Some(ItemFault::Many { cause: 3 })));
    Ok(())
}
