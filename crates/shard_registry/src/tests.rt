//! What no clause says: that a registry is made with ample memory, and that the order is meant so.

use crate::*;
use log_base::Shard;
use std::test::Fail;

#[test]
fn shards_stand_in_order_of_addition(rt: HostRuntime) -> Result<(), Fail> {
    let mut registry = Registry::new(rt.alloc())?;
    assert_eq!(rt; registry.finalise(Shard(1)), Ended::NotThere);
    assert_eq!(rt; registry.add(Shard(1)), Added::New);
    assert_eq!(rt; registry.add(Shard(0)), Added::New);
    assert_eq!(rt; registry.add(Shard(1)), Added::Have);
    assert_eq!(rt; registry.count(), 2);
    assert_eq!(rt; registry.at(0), Shard(1));
    assert_eq!(rt; registry.at(1), Shard(0));
    assert_eq!(rt; registry.finalise(Shard(1)), Ended::New);
    assert_eq!(rt; registry.finalise(Shard(1)), Ended::Have);
    assert_eq!(rt; registry.add(Shard(1)), Added::Have);
    assert_eq!(rt; registry.state(Shard(1)), Some(State::Finalised));
    assert_eq!(rt; registry.state(Shard(0)), Some(State::Live));
    assert_eq!(rt; registry.state(Shard(7)), None);
    registry.clear();
    assert_eq!(rt; registry.count(), 0);
    for shard in [7, 6, 5, 4, 3, 2, 1, 0] {
        assert_eq!(rt; registry.add(Shard(shard)), Added::New);
    }
    assert_eq!(rt; registry.count(), 8);
    Ok(())
}
