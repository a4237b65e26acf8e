//! The numbers of the nodes and of their disks.

ghost use Rattle.std.specs.Prelude.{◌≡◌, ◌<◌, ◌*◌};
ghost use Rattle.log_base.specs.Shape.{shape};
ghost use Rattle.node_table.specs.Numbering.{disk_of, gatherer_of, nodes_of, orderer_node, role_at, storage_node};

use crate::Role;
use log_base::{Config, NodeId, Replica, Shard};

/// The node of a replica of a shard.
pub fn storage(config: &Config, shard: Shard, replica: Replica) -> NodeId
    requires shard { shard.0 < (shape config.now).shards }
    requires replica { replica.0 < (shape config.now).replicas }
    ensures node { result.0 ≡ storage_node (shape config.now) shard.0 replica.0 }
    ensures within { result.0 < nodes_of (shape config.now) }
{
    let before = shard.0 * u16::from(config.replicas());
    NodeId(before + u16::from(replica.0))
}

/// The gatherer that serves a shard.
pub fn gatherer(config: &Config, shard: Shard) -> NodeId
    requires { shard.0 < (shape config.now).shards }
    ensures node { result.0 ≡ gatherer_of (shape config.now) shard.0 }
    ensures within { result.0 < nodes_of (shape config.now) }
{
    let index = shard.0 % u16::from(config.gatherers());
    NodeId(storage_nodes(config) + index)
}

/// An orderer.
pub fn orderer(config: &Config, index: u8) -> NodeId
    requires { index < (shape config.now).orderers }
    ensures node { result.0 ≡ orderer_node (shape config.now) index }
    ensures within { result.0 < nodes_of (shape config.now) }
{
    NodeId(storage_nodes(config) + u16::from(config.gatherers()) + u16::from(index))
}

/// What a node is for.
pub fn role_of(config: &Config, node: NodeId) -> Role
    requires { node.0 < nodes_of (shape config.now) }
    ensures { result ≡ role_at (shape config.now) node.0 }
{
    let stored = storage_nodes(config);
    let replicas = u16::from(config.replicas());
    if node.0 < stored {
        return Role::Storage {
            shard: Shard(node.0 / replicas),
            replica: Replica((node.0 % replicas) as u8),
        };
    }
    let past = node.0 - stored;
    let gatherers = u16::from(config.gatherers());
    if past < gatherers {
        return Role::Gatherer { index: past as u8 };
    }
    Role::Orderer {
        index: (past - gatherers) as u8,
    }
}

/// The disk on which a node keeps a segment. An orderer keeps its list as segment 0.
pub fn disk(node: NodeId, segment: u8) -> u32
    ensures { result ≡ disk_of node.0 segment }
{
    u32::from(node.0) * 8 + u32::from(segment)
}

/// How many nodes there are.
pub fn nodes(config: &Config) -> u16
    ensures { result ≡ nodes_of (shape config.now) }
{
    storage_nodes(config) + u16::from(config.gatherers()) + u16::from(config.orderers())
}

// How many nodes store segments: one for each replica of each shard.
fn storage_nodes(config: &Config) -> u16
    ensures count { result ≡ (shape config.now).replicas * (shape config.now).shards }
    ensures small { result < 33 }
{
    u16::from(config.replicas()) * u16::from(config.shards())
}
