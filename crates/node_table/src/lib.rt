//! Which node is who. The nodes of a cluster are numbered from 0: first the replicas of each shard in
//! turn, then the gatherers, then the orderers. Each number has one role and each role one number.
#![tactic(auto)]

mod laws;
mod numbering;
mod role;

pub use laws::{disks_differ, one_node_each, one_role_each};
pub use numbering::{disk, gatherer, nodes, orderer, role_of, storage};
pub use role::Role;

#[cfg(test)]
mod tests;
