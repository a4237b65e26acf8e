//! Vectors of items, what is no item, and the limits.

use crate::{ItemFault, ItemReader, Next, item_spelled, one_spelling};
use log_base::{Config, MemorySource};
use std::alloc::Global;
use std::test::Fail;

/// Add of shard 0; Append of "a" to segment 0 of shard 0; Read of position 0 at replica 0 of shard 0; on lane 63,
/// Trim to position 258; Finalise of shard 0; Ask; Subscribe to 4,096 entries from position 258 on, at replica 0 of shard 0;
/// on lane 2, the fault `lead 0`.
const EIGHT: [u8; 94] = [
    0, 0, 0, 4, 5, 0, 0, 0, 0, 0, 0, 6, 1, 0, 0, 0, 0, 97, 0, 0, 0, 13, 2, 0, 0, 0, 0, 0, 0, 0, 0,
    0, 0, 0, 0, 0, 0, 0, 10, 4, 63, 0, 0, 0, 0, 0, 0, 1, 2, 0, 0, 0, 4, 6, 63, 0, 0, 0, 0, 0, 2, 7,
    63, 0, 0, 0, 15, 3, 63, 0, 0, 0, 0, 0, 0, 0, 0, 0, 1, 2, 16, 0, 0, 0, 0, 8, 8, 2, 108, 101, 97,
    100, 32, 48,
];

/// How many items are read, up to 70,000, and the place and the fault that end them, if it is not the end.
fn read_all(
    alloc: Global,
    bytes: Vec<u8>,
    fails: Vec<u32>,
) -> Result<(u32, u64, Option<ItemFault>), Fail> {
    let config = Config::new(1, 1, 1, 1).ok().ok_or("config")?;
    let mut source = MemorySource::new(bytes, 4_096, fails);
    let mut reader = ItemReader::new(alloc, config);
    for count in 0..70_000 {
        match reader.next(&mut source) {
            Ok(Next::Item(_)) => {}
            Ok(Next::End) => return Ok((count, reader.offset(), None)),
            Err(fault) => {
                let again = reader.next(&mut source).err();
                return if again == Some(fault) {
                    Ok((count, reader.offset(), again))
                } else {
                    Err("another answer after a fault".into())
                };
            }
        }
    }
    Err("no end".into())
}

#[test]
fn items_of_the_vectors(rt: HostRuntime) -> Result<(), Fail> {
    let config = Config::new(1, 1, 1, 1).ok().ok_or("config")?;
    let bytes = Vec::from_slice(rt.alloc(), &EIGHT)?;
    let mut source = MemorySource::new(bytes, 5, Vec::new(rt.alloc()));
    let mut reader = ItemReader::new(rt.alloc(), config);
    let table = [
        (8, "Item(Add { lane: 0, shard: Shard(0) })"),
        (
            18,
            "Item(Append { lane: 0, shard: Shard(0), replica: Replica(0), bytes: Bytes { inner: [97] } })",
        ),
        (
            35,
            "Item(Read { lane: 0, shard: Shard(0), replica: Replica(0), position: Position(0) })",
        ),
        (49, "Item(Trim { lane: 63, position: Position(258) })"),
        (57, "Item(Finalise { lane: 63, shard: Shard(0) })"),
        (63, "Item(Ask { lane: 63 })"),
        (
            82,
            "Item(Subscribe { lane: 63, shard: Shard(0), replica: Replica(0), from: Position(258), count: 4096 })",
        ),
        (94, "Item(Fault { lane: 2, fault: Lead { orderer: 0 } })"),
        (94, "End"),
        (94, "End"),
    ];
    for (offset, want) in table {
        let next = reader.next(&mut source).ok().ok_or("fault")?;
        assert_eq!(rt; format!(in rt.alloc(); "{next:?}")?.as_str(), want);
        assert_eq!(rt; reader.offset(), offset);
    }
    item_spelled();
    one_spelling();
    Ok(())
}

#[test]
fn items_cut_short(rt: HostRuntime) -> Result<(), Fail> {
    for size in 0..95 {
        let bytes = Vec::from_slice(rt.alloc(), &EIGHT[..size])?;
        let (count, at) = match size {
            0..8 => (0, 0),
            8..18 => (1, 8),
            18..35 => (2, 18),
            35..49 => (3, 35),
            49..57 => (4, 49),
            57..63 => (5, 57),
            63..82 => (6, 63),
            82..94 => (7, 82),
            _ => (8, 94),
        };
        let fault = if at == size as u64 {
            None
        } else {
            Some(ItemFault::Bad { at })
        };
        let read = read_all(rt.alloc(), bytes, Vec::new(rt.alloc()))?;
        assert_eq!(rt; read, (count, at, fault), "{size} bytes");
    }
    Ok(())
}

#[test]
fn no_items(rt: HostRuntime) -> Result<(), Fail> {
    let table: [(&str, &[u8]); 27] = [
        ("length 0", &[0, 0, 0, 0, 5, 0, 0, 0]),
        ("length 65,542", &[0, 1, 0, 6, 5, 0, 0, 0]),
        ("length 2^32 - 1", &[255, 255, 255, 255, 5, 0, 0, 0]),
        ("kind 0", &[0, 0, 0, 4, 0, 0, 0, 0]),
        (
            "Subscribe to none",
            &[0, 0, 0, 15, 3, 0, 0, 0, 0, 0, 0, 0, 0, 0, 0, 0, 0, 0, 0],
        ),
        (
            "Subscribe to 4,097",
            &[0, 0, 0, 15, 3, 0, 0, 0, 0, 0, 0, 0, 0, 0, 0, 0, 0, 16, 1],
        ),
        (
            "Subscribe with a byte too few",
            &[0, 0, 0, 14, 3, 0, 0, 0, 0, 0, 0, 0, 0, 0, 0, 0, 0, 1],
        ),
        ("Ask on lane 64", &[0, 0, 0, 2, 7, 64]),
        ("Ask with a byte too many", &[0, 0, 0, 3, 7, 0, 0]),
        ("Fault with no lane", &[0, 0, 0, 1, 8]),
        ("Fault with no line", &[0, 0, 0, 2, 8, 0]),
        ("Fault on lane 64", &[0, 0, 0, 6, 8, 64, 104, 111, 108, 100]),
        (
            "Fault `lead 1`",
            &[0, 0, 0, 8, 8, 0, 108, 101, 97, 100, 32, 49],
        ),
        ("kind 9", &[0, 0, 0, 4, 9, 0, 0, 0]),
        ("lane 64", &[0, 0, 0, 4, 5, 64, 0, 0]),
        ("Add of shard 1", &[0, 0, 0, 4, 5, 0, 0, 1]),
        ("Add of shard 256", &[0, 0, 0, 4, 5, 0, 1, 0]),
        ("Append to shard 1", &[0, 0, 0, 6, 1, 0, 0, 1, 0, 97]),
        ("Append to replica 1", &[0, 0, 0, 6, 1, 0, 0, 0, 1, 97]),
        ("Append with no replica", &[0, 0, 0, 4, 1, 0, 0, 0]),
        ("Add with a byte too many", &[0, 0, 0, 5, 5, 0, 0, 0, 0]),
        ("Add with a byte too few", &[0, 0, 0, 3, 5, 0, 0]),
        (
            "Trim on lane 64",
            &[0, 0, 0, 10, 4, 64, 0, 0, 0, 0, 0, 0, 0, 0],
        ),
        (
            "Trim with a byte too few",
            &[0, 0, 0, 9, 4, 0, 0, 0, 0, 0, 0, 0, 0],
        ),
        ("Finalise of shard 1", &[0, 0, 0, 4, 6, 0, 0, 1]),
        (
            "Finalise with a byte too many",
            &[0, 0, 0, 5, 6, 0, 0, 0, 0],
        ),
        (
            "Read with a byte too many",
            &[0, 0, 0, 14, 2, 0, 0, 0, 0, 0, 0, 0, 0, 0, 0, 0, 0, 0],
        ),
    ];
    for (name, bytes) in table {
        let bytes = Vec::from_slice(rt.alloc(), bytes)?;
        let read = read_all(rt.alloc(), bytes, Vec::new(rt.alloc()))?;
        assert_eq!(rt; read, (0, 0, Some(ItemFault::Bad { at: 0 })), "{name}");
    }
    Ok(())
}

/// Frames of a record of zeros each, to segment 0 of shard 0.
fn appends(alloc: Global, records: u32, size: u32) -> Result<Vec<u8>, Fail> {
    let mut frame = Vec::new(alloc);
    frame.extend_from_slice(&size.saturating_add(5).to_be_bytes())?;
    frame.push(1)?;
    for _ in 0..size.saturating_add(4) {
        frame.push(0)?;
    }
    let mut bytes = Vec::new(alloc);
    for _ in 0..records {
        bytes.extend_from_slice(&frame)?;
    }
    Ok(bytes)
}

#[test]
fn limits_of_items(rt: HostRuntime) -> Result<(), Fail> {
    let table = [
        ("a record of none", 1, 0, 9, None),
        ("a record of 65,535 bytes", 1, 65_535, 65_544, None),
        (
            "a record of 65,536 bytes",
            1,
            65_536,
            0,
            Some(ItemFault::Bad { at: 0 }),
        ),
        ("65,536 items", 65_536, 0, 589_824, None),
        (
            "65,537 items",
            65_537,
            0,
            589_824,
            Some(ItemFault::Many { cause: 1 }),
        ),
        ("16,777,216 bytes", 512, 32_768, 16_781_824, None),
        (
            "16,809,984 bytes",
            513,
            32_768,
            16_781_824,
            Some(ItemFault::Many { cause: 2 }),
        ),
    ];
    for (name, records, size, offset, fault) in table {
        let bytes = appends(rt.alloc(), records, size)?;
        let read = read_all(rt.alloc(), bytes, Vec::new(rt.alloc()))?;
        assert_eq!(rt; (read.1, read.2), (offset, fault), "{name}");
    }
    Ok(())
}

#[test]
fn a_source_that_fails(rt: HostRuntime) -> Result<(), Fail> {
    for call in 0..3 {
        let bytes = appends(rt.alloc(), 1, 9_000)?;
        let fails = vec![in rt.alloc(); call]?;
        let at = u64::from(call) * 4_096;
        let read = read_all(rt.alloc(), bytes, fails)?;
        assert_eq!(rt; read, (0, 0, Some(ItemFault::Read { at })), "call {call}");
    }
    Ok(())
}
