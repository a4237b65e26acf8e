//! What a node is for.

use log_base::{Replica, Shard};

/// The role of a node.
#[derive(Clone, Copy, Debug, PartialEq, Eq)]
pub enum Role {
    /// It stores the segments of a shard, and is the primary of the segment of its own number.
    Storage { shard: Shard, replica: Replica },
    /// It joins what the replicas of its shards report into cuts.
    Gatherer { index: u8 },
    /// It decides with the other orderers what the next value is.
    Orderer { index: u8 },
}
