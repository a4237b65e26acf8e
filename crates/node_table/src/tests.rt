//! The numbers of one cluster, as its nodes are told them.

use crate::*;
use log_base::{Config, NodeId, Replica, Shard};
use std::test::Fail;

// Three shards of two replicas, two gatherers and three orderers.
#[test]
fn nodes_are_numbered_in_turn(rt: HostRuntime) -> Result<(), Fail> {
    let config = Config::new(2, 3, 3, 2)?;
    assert_eq!(rt; nodes(&config), 11);
    let last = NodeId(5);
    let (shard, replica) = (Shard(2), Replica(1));
    assert_eq!(rt; storage(&config, shard, replica), last);
    assert_eq!(rt; role_of(&config, last), Role::Storage { shard, replica });
    assert_eq!(rt; gatherer(&config, Shard(1)), NodeId(7));
    assert_eq!(rt; gatherer(&config, Shard(2)), NodeId(6));
    assert_eq!(rt; role_of(&config, NodeId(7)), Role::Gatherer { index: 1 });
    assert_eq!(rt; orderer(&config, 2), NodeId(10));
    assert_eq!(rt; role_of(&config, NodeId(10)), Role::Orderer { index: 2 });
    assert_eq!(rt; disk(last, 1), 41);
    one_role_each();
    one_node_each();
    disks_differ();
    Ok(())
}
