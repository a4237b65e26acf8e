//! Wishes that are taken, refused and fulfilled.

use crate::*;
use log_base::{Position, Shard, Slot};
use paxos_learner::Known;
use record_frame::Value;
use std::alloc::AllocError;
use std::test::Fail;

const ADD: Value = Value::Add(Shard(2));

const TRIM: Value = Value::Trim(Position(7));

#[test]
fn a_wish_stays_until_its_value_is_decided(rt: HostRuntime) -> Result<(), Fail> {
    let mut wishes = Wishes::new(rt.alloc());
    for (value, added, known, want) in [
        (ADD, false, 3, Requested::Taken { from: 3 }),
        (Value::Finalise(Shard(1)), false, 3, Requested::NoSuchShard),
        (
            Value::Finalise(Shard(1)),
            true,
            4,
            Requested::Taken { from: 4 },
        ),
        (ADD, true, 3, Requested::Taken { from: 3 }),
        (TRIM, false, 5, Requested::Taken { from: 5 }),
    ] {
        wishes.ready().map_err(|_| AllocError)?;
        assert_eq!(rt; wishes.request(&value, added, known), want);
    }
    for (slot, value, first) in [
        (2, ADD, Some(ADD)),
        (3, TRIM, Some(ADD)),
        (3, ADD, Some(Value::Finalise(Shard(1)))),
        (4, Value::Finalise(Shard(1)), Some(TRIM)),
        (9, TRIM, None),
    ] {
        wishes.seen(Slot(slot), &value);
        assert_eq!(rt; wishes.first(), first, "{slot}");
    }
    wishes.ready().map_err(|_| AllocError)?;
    let _ = wishes.request(&TRIM, true, 0);
    wishes.clear();
    assert_eq!(rt; wishes.first(), None);
    Ok(())
}

#[test]
fn a_value_is_settled_by_its_slot(rt: HostRuntime) -> Result<(), Fail> {
    let mut known = Known::new(rt.alloc());
    for (slot, value) in [(0, ADD), (1, TRIM), (2, ADD)] {
        known.ready().map_err(|_| AllocError)?;
        let _ = known.learn(Slot(slot), &value);
    }
    for (value, from, want) in [
        (ADD, 0, Settling::Settled { slot: Slot(0) }),
        (ADD, 1, Settling::Settled { slot: Slot(2) }),
        (TRIM, 2, Settling::Pending { known: 3 }),
        (Value::Noop, 0, Settling::Pending { known: 3 }),
    ] {
        assert_eq!(rt; settled(&known, &value, Slot(from)), want, "{from}");
    }
    Ok(())
}
