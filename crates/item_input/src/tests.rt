//! Reading inputs from memory.

use crate::{one_plain_reading, one_reading, read_items, read_plain_items};
use command_frame::{Item, ItemFault};
use log_base::{Config, MemorySource};
use std::test::Fail;

// Add 0.
const ADD: &[u8] = b"\0\0\0\x04\x05\0\0\0";

// A hold.
const HOLD: &[u8] = b"\0\0\0\x06\x08\0hold";

// Add 0, and a hold.
const ADD_HOLD: &[u8] = b"\0\0\0\x04\x05\0\0\0\0\0\0\x06\x08\0hold";

// Add 0, a frame that is no item, and a hold.
const ADD_NONE: &[u8] = b"\0\0\0\x04\x05\0\0\0\0\0\0\x02\x09\0\0\0\0\x06\x08\0hold";

// A call that no run makes.
const NEVER: u32 = u32::MAX;

// How many items are read of an input whose lines of the fault script are items or are not.
fn count(
    rt: &HostRuntime,
    input: &[u8],
    plain: bool,
    fails: u32,
) -> Result<Result<usize, ItemFault>, Fail> {
    let alloc = rt.alloc();
    let config = Config::new(1, 1, 1, 1).ok().ok_or("config")?;
    let mut source = MemorySource::new(Vec::from_slice(alloc, input)?, 5, vec![in alloc; fails]?);
    let read = if plain {
        read_plain_items(alloc, config, &mut source)
    } else {
        read_items(alloc, config, &mut source)
    };
    Ok(how_many(read))
}

fn how_many(read: Result<Vec<Item>, ItemFault>) -> Result<usize, ItemFault> {
    match read {
        Ok(items) => Ok(items.len()),
        Err(fault) => Err(fault),
    }
}

#[test]
fn lines_among_items(rt: HostRuntime) -> Result<(), Fail> {
    for (input, wanted) in [
        (b"" as &[u8], Ok(0)),
        (ADD, Ok(1)),
        (HOLD, Ok(1)),
        (ADD_HOLD, Ok(2)),
        (ADD_NONE, Err(ItemFault::Bad { at: 8 })),
    ] {
        assert_eq!(rt; count(&rt, input, false, NEVER)?, wanted);
    }
    assert_eq!(rt;
        count(&rt, ADD_HOLD, false, 2)?,
        Err(ItemFault::Read { at: 10 })
    );
    one_reading();
    Ok(())
}

#[test]
fn lines_are_no_items(rt: HostRuntime) -> Result<(), Fail> {
    for (input, wanted) in [
        (b"" as &[u8], Ok(0)),
        (ADD, Ok(1)),
        (HOLD, Err(ItemFault::Bad { at: 0 })),
        (ADD_HOLD, Err(ItemFault::Bad { at: 8 })),
        (ADD_NONE, Err(ItemFault::Bad { at: 8 })),
    ] {
        assert_eq!(rt; count(&rt, input, true, NEVER)?, wanted);
    }
    assert_eq!(rt; count(&rt, ADD, true, 1)?, Err(ItemFault::Read { at: 5 }));
    one_plain_reading();
    Ok(())
}
