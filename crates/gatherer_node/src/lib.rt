//! A gatherer: it hears from the replicas of its shards how much they hold, and tells the orderers how
//! much all replicas of a shard hold. It has no disk, so what it heard is lost where it stops.
#![tactic(auto)]

mod activity;
mod node;
mod sending;

pub use activity::Activity;
pub use node::GathererNode;
