//! What no clause says: that the calls succeed with ample memory, and that the clauses say what is meant.

use crate::*;
use std::test::Fail;

#[test]
fn configs_are_in_range(rt: HostRuntime) {
    let table = [
        ((1, 1, 1, 1), None),
        ((5, 6, 7, 4), None),
        ((4, 8, 3, 2), None),
        ((0, 0, 0, 0), Some(0)),
        ((6, 1, 1, 1), Some(0)),
        ((1, 0, 2, 1), Some(1)),
        ((1, 9, 1, 1), Some(1)),
        ((1, 1, 0, 1), Some(2)),
        ((1, 1, 4, 1), Some(2)),
        ((1, 1, 9, 1), Some(2)),
        ((1, 1, 1, 0), Some(3)),
        ((5, 8, 1, 5), Some(3)),
        ((5, 8, 1, 1), Some(4)),
    ];
    for ((replicas, shards, orderers, gatherers), want) in table {
        match Config::new(replicas, shards, orderers, gatherers) {
            Ok(config) => {
                assert_eq!(rt; None, want, "{replicas} {shards} {orderers} {gatherers}");
                assert_eq!(rt; config.replicas(), replicas);
                assert_eq!(rt; config.shards(), shards);
                assert_eq!(rt; config.orderers(), orderers);
                assert_eq!(rt; config.gatherers(), gatherers);
            }
            Err(bad) => {
                assert_eq!(rt;
                    Some(bad.which),
                    want,
                    "{replicas} {shards} {orderers} {gatherers}"
                )
            }
        }
    }
}

#[test]
fn owned_values_give_back_what_they_took(rt: HostRuntime) -> Result<(), Fail> {
    let bytes = Bytes::of(vec![in rt.alloc(); 1, 2]?);
    assert_eq!(rt; bytes.get(), [1, 2].as_slice());
    assert_eq!(rt; bytes.into_inner().as_slice(), [1, 2].as_slice());
    let text = Text::of(String::from_str(rt.alloc(), "log")?);
    assert_eq!(rt; text.get(), "log");
    assert_eq!(rt; text.into_inner().as_str(), "log");
    let list = List::of(vec![in rt.alloc(); Shard(3)]?);
    assert_eq!(rt; list.get(), [Shard(3)].as_slice());
    assert_eq!(rt; list.into_inner().len(), 1);
    Ok(())
}

#[test]
fn numbers_go_highest_byte_first(rt: HostRuntime) -> Result<(), Fail> {
    let mut out = Vec::with_capacity(rt.alloc(), 16)?;
    assert!(rt; out.capacity() >= 16);
    put_u8(0x01, &mut out);
    put_u16(0x0203, &mut out);
    put_u32(0x0405_0607, &mut out);
    put_u64(0x0809_0a0b_0c0d_0e0f, &mut out);
    put_bytes(&[0x10], &mut out);
    let want = [1, 2, 3, 4, 5, 6, 7, 8, 9, 10, 11, 12, 13, 14, 15, 16];
    assert_eq!(rt; out.as_slice(), want.as_slice());
    assert_eq!(rt; out.len(), 16);
    assert_eq!(rt; number_u16(&out, 1), 0x0203);
    assert_eq!(rt; number_u32(&out, 3), 0x0405_0607);
    assert_eq!(rt; number_u64(&out, 7), 0x0809_0a0b_0c0d_0e0f);
    number_written();
    number_read();
    Ok(())
}

// What `send` answers for four bytes, and what the sink has then.
#[test]
fn a_sink_takes_pieces_until_it_fails(rt: HostRuntime) -> Result<(), Fail> {
    let table: [(usize, usize, u32, Option<usize>); 4] = [
        (4, 4, 9, None),
        (4, 1, 9, None),
        (4, 3, 1, Some(3)),
        (3, 2, 9, Some(2)),
    ];
    for (room, piece, fail, want) in table {
        assert!(rt; piece >= 1);
        let fails = vec![in rt.alloc(); fail]?;
        let mut sink = MemorySink::new(rt.alloc(), room, piece, fails)
            .ok()
            .ok_or("memory")?;
        let sent = match send(&mut sink, b"abcd") {
            Ok(()) => None,
            Err(fault) => Some(fault.sent),
        };
        assert_eq!(rt; sent, want, "room {room} piece {piece}");
        assert_eq!(rt;
            sink.bytes().len(),
            want.unwrap_or(4),
            "room {room} piece {piece}"
        );
    }
    Ok(())
}

#[test]
fn a_reader_joins_the_pieces_of_its_source(rt: HostRuntime) -> Result<(), Fail> {
    let bytes = vec![in rt.alloc(); 7; 5_000]?;
    let fails = vec![in rt.alloc(); 3]?;
    let mut source = MemorySource::new(bytes, 4_999, fails);
    let mut reader = PieceReader::new();
    let first = reader
        .take(rt.alloc(), &mut source, 4_000)
        .ok()
        .ok_or("first")?;
    assert_eq!(rt; first.len(), 4_000);
    assert_eq!(rt; reader.taken(), 4_096);
    let second = reader
        .take(rt.alloc(), &mut source, 4_000)
        .ok()
        .ok_or("second")?;
    assert_eq!(rt; second.len(), 1_000);
    assert_eq!(rt; reader.taken(), 5_000);
    match reader.take(rt.alloc(), &mut source, 1) {
        Err(stop) => assert_eq!(rt; stop, Stop::Read),
        Ok(_) => assert!(rt; false, "the source's call 3 fails"),
    }
    let last = reader.take(rt.alloc(), &mut source, 1).ok().ok_or("last")?;
    assert_eq!(rt; last.len(), 0);
    Ok(())
}

#[test]
fn a_reader_fills_a_buffer_again(rt: HostRuntime) -> Result<(), Fail> {
    let bytes = vec![in rt.alloc(); 7; 10]?;
    let mut source = MemorySource::new(bytes, 8, Vec::new(rt.alloc()));
    let mut reader = PieceReader::new();
    let mut buffer = vec![in rt.alloc(); 1]?;
    for (wanted, count) in [(6, 6), (6, 4)] {
        assert!(rt; reader.take_into(&mut source, wanted, &mut buffer).is_ok());
        assert_eq!(rt; buffer.len(), count);
    }
    Ok(())
}

#[test]
fn an_outbox_makes_room_again(rt: HostRuntime) {
    let mut out = Outbox::new(rt.alloc());
    for bytes in [5, 4, 4_097] {
        assert!(rt; out.ready(bytes).is_ok());
        out.reset();
        assert_eq!(rt; out.len(), 0);
    }
}
