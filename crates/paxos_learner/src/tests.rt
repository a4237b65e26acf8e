//! Values that are learned in order, found, given and forgotten.

use crate::*;
use log_base::{Memory, Shard, Slot};
use record_frame::Value;
use std::alloc::AllocError;
use std::test::Fail;

const ADD: Value = Value::Add(Shard(0));

#[test]
fn values_are_learned_in_order(rt: HostRuntime) -> Result<(), Fail> {
    let mut known = Known::new(rt.alloc());
    for (slot, value, want) in [
        (0, Value::Noop, Learned::Added),
        (1, ADD, Learned::Added),
        (3, Value::Noop, Learned::Gap { next: Slot(2) }),
        (0, ADD, Learned::Have),
    ] {
        known.ready().map_err(|_| AllocError)?;
        assert_eq!(rt; known.learn(Slot(slot), &value), want, "{slot}");
    }
    assert_eq!(rt; known.len(), 2);
    assert_eq!(rt; known.find(&ADD, Slot(0)), Some(Slot(1)));
    assert_eq!(rt; known.find(&Value::Noop, Slot(1)), None);
    assert_eq!(rt; known.give(Slot(1)), [ADD].as_slice());
    assert_eq!(rt; known.give(Slot(9)).len(), 0);
    known.clear();
    assert_eq!(rt; known.len(), 0);
    find_is_least();
    Ok(())
}

#[test]
fn sixteen_are_given_at_once(rt: HostRuntime) -> Result<(), Fail> {
    let mut known = Known::new(rt.alloc());
    for slot in 0..17 {
        known.ready().map_err(|_| AllocError)?;
        let learned = known.learn(Slot(slot), &Value::Noop);
        assert_eq!(rt; learned, Learned::Added, "{slot}");
    }
    assert_eq!(rt; known.give(Slot(0)).len(), 16);
    assert_eq!(rt; known.give(Slot(16)).len(), 1);
    Ok(())
}
