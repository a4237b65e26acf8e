//! Vectors, and the first wrong field of each kind.

use super::*;
use log_base::{Client, Number, Position, Shard};
use std::test::Fail;

/// Client 0, number 2^32, and the record "a".
const ENTRY: [u8; 16] = [1, 0, 0, 0, 0, 0, 1, 0, 0, 0, 0, 0, 0, 0, 1, 97];

/// Where the field ends in which a front of the entry breaks off, by the length of the front.
const ENDS: [usize; 16] = [1, 3, 3, 11, 11, 11, 11, 11, 11, 11, 11, 15, 15, 15, 15, 16];

#[test]
fn entry_vector(rt: HostRuntime) -> Result<(), Fail> {
    let mut out = vec![in rt.alloc(); 7]?;
    write_entry(Client(0), Number(1 << 32), b"a", &mut out)?;
    assert_eq!(rt; &out[1..], ENTRY.as_slice());
    let (entry, next) = read_entry_at(rt.alloc(), &out, 1)?;
    assert_eq!(rt;
        (entry.client, entry.number, next),
        (Client(0), Number(1 << 32), 17)
    );
    assert_eq!(rt; entry.bytes.get(), b"a".as_slice());
    let (_, size) = read_entry(rt.alloc(), &ENTRY)?;
    assert_eq!(rt; size, 16);
    let head = Head {
        client: Client(0),
        number: Number(1 << 32),
        length: 1,
    };
    assert_eq!(rt; read_head(&ENTRY), Ok(head));
    Ok(())
}

#[test]
fn entry_cut_short(rt: HostRuntime) {
    for (size, end) in ENDS.iter().enumerate() {
        if size < ENTRY.len() {
            let refusal = Some(Refusal::Short { need: *end });
            assert_eq!(rt; read_head(&ENTRY[..size]).err(), refusal, "{size} bytes");
            assert_eq!(rt;
                read_entry(rt.alloc(), &ENTRY[..size]).err(),
                refusal,
                "{size} bytes"
            );
        }
    }
}

#[test]
fn no_entry(rt: HostRuntime) {
    let table: [(&str, [u8; 15], Refusal); 4] = [
        (
            "another kind",
            [4, 0, 0, 0, 0, 0, 1, 0, 0, 0, 0, 0, 0, 0, 0],
            Refusal::BadKind { byte: 4 },
        ),
        (
            "a record of 65,536 bytes",
            [1, 0, 0, 0, 0, 0, 1, 0, 0, 0, 0, 0, 1, 0, 0],
            Refusal::TooLong { length: 65_536 },
        ),
        (
            "a record of 2^32 - 1 bytes",
            [1, 0, 0, 0, 0, 0, 1, 0, 0, 0, 0, 255, 255, 255, 255],
            Refusal::TooLong {
                length: 4_294_967_295,
            },
        ),
        (
            "a record of 65,535 bytes that is not there",
            [1, 0, 0, 0, 0, 0, 1, 0, 0, 0, 0, 0, 0, 255, 255],
            Refusal::Short { need: 65_550 },
        ),
    ];
    for (what, bytes, refusal) in &table {
        assert_eq!(rt; read_head(bytes).err(), Some(*refusal), "{what}");
        assert_eq!(rt;
            read_entry(rt.alloc(), bytes).err(),
            Some(*refusal),
            "{what}"
        );
    }
}

#[test]
fn value_vectors(rt: HostRuntime) -> Result<(), Fail> {
    let mut length = [0; 32];
    length[0] = 16_384;
    length[1] = 1;
    let cut = Value::Cut(Lengths { count: 2, length });
    let table: [(Value, &[u8]); 5] = [
        (Value::Noop, &[0]),
        (cut, &[1, 2, 0, 0, 64, 0, 0, 0, 0, 1]),
        (Value::Add(Shard(7)), &[2, 0, 7]),
        (Value::Finalise(Shard(1)), &[3, 0, 1]),
        (Value::Trim(Position(258)), &[4, 0, 0, 0, 0, 0, 0, 1, 2]),
    ];
    for (value, bytes) in &table {
        let (found, size) = read_value(bytes)?;
        assert_eq!(rt; (found, size), (*value, bytes.len()));
        assert_eq!(rt; value_length(&found), bytes.len());
        let mut out = Vec::new(rt.alloc());
        write_value(&found, &mut out)?;
        assert_eq!(rt; out.as_slice(), *bytes);
    }
    Ok(())
}

#[test]
fn no_value(rt: HostRuntime) {
    let table: [(&str, &[u8], Refusal); 15] = [
        ("nothing", &[], Refusal::Short { need: 1 }),
        ("another kind", &[5], Refusal::BadKind { byte: 5 }),
        ("a cut without its count", &[1], Refusal::Short { need: 2 }),
        ("a cut of no lengths", &[1, 0], Refusal::BadNumber { at: 1 }),
        (
            "a cut of 33 lengths",
            &[1, 33],
            Refusal::BadNumber { at: 1 },
        ),
        (
            "32 lengths that are not there",
            &[1, 32],
            Refusal::Short { need: 6 },
        ),
        (
            "half a length",
            &[1, 1, 0, 0, 64],
            Refusal::Short { need: 6 },
        ),
        (
            "a length of 16,385",
            &[1, 1, 0, 0, 64, 1],
            Refusal::BadNumber { at: 2 },
        ),
        (
            "a second one",
            &[1, 2, 0, 0, 0, 0, 0, 0, 64, 1],
            Refusal::BadNumber { at: 6 },
        ),
        (
            "a length that is not there",
            &[1, 2, 0, 0, 0, 0],
            Refusal::Short { need: 10 },
        ),
        ("half a shard", &[2, 0], Refusal::Short { need: 3 }),
        ("shard 8 to add", &[2, 0, 8], Refusal::BadNumber { at: 1 }),
        (
            "shard 8 to finalise",
            &[3, 0, 8],
            Refusal::BadNumber { at: 1 },
        ),
        ("shard 256", &[3, 1, 0], Refusal::BadNumber { at: 1 }),
        (
            "half a position",
            &[4, 0, 0, 0, 0, 0, 0, 1],
            Refusal::Short { need: 9 },
        ),
    ];
    for (what, bytes, refusal) in &table {
        assert_eq!(rt; read_value(bytes), Err(*refusal), "{what}");
    }
}

#[test]
fn fields_at_a_place(rt: HostRuntime) -> Result<(), Fail> {
    let bytes = [9, 1, 1, 0, 0, 0, 5, 2, 0, 3];
    assert_eq!(rt; field_end(&bytes, 1, 9), Ok(10));
    assert_eq!(rt; field_end(&bytes, 1, 10), Err(Refusal::Short { need: 11 }));
    assert_eq!(rt; read_kind(&bytes, 0, 9), Ok(1));
    assert_eq!(rt; read_kind(&bytes, 0, 8), Err(Refusal::BadKind { byte: 9 }));
    assert_eq!(rt; read_u8(&bytes, 9), Ok((3, 10)));
    assert_eq!(rt; read_u16(&bytes, 8), Ok((3, 10)));
    assert_eq!(rt; read_u32(&bytes, 3), Ok((5, 7)));
    assert_eq!(rt; read_u64(&bytes, 2), Ok((0x0100_0000_0502_0003, 10)));
    assert_eq!(rt; read_u64(&bytes, 3), Err(Refusal::Short { need: 11 }));
    assert_eq!(rt; read_shard(&bytes, 8), Ok((Shard(3), 10)));
    assert_eq!(rt; read_shard(&bytes, 7), Err(Refusal::BadNumber { at: 7 }));
    assert_eq!(rt; read_value_at(&bytes, 7), Ok((Value::Add(Shard(3)), 10)));
    let (lengths, next) = read_lengths(&bytes, 2, 1)?;
    assert_eq!(rt; (lengths.count, lengths.length[0], next), (1, 5, 7));
    let mut out = Vec::with_capacity(rt.alloc(), 8)?;
    put_lengths(&lengths, &mut out);
    put_value(&Value::Add(Shard(3)), &mut out);
    assert_eq!(rt; out.as_slice(), &bytes[2..]);
    assert_eq!(rt;
        read_lengths(&[6, 0, 0, 0, 0], 0, 5),
        Err(Refusal::BadNumber { at: 0 })
    );
    Ok(())
}
