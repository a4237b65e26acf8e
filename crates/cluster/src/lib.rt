//! The nodes of a cluster in cells, which many threads share. Each call of the cluster that is handled or
//! answered is one event of a node, at a place of the one history of all nodes. Each other call is none.
#![tactic(auto)]

mod answering;
mod calling;
mod closing;
mod cluster;
mod counts;
mod finishing;
mod parts;
mod posting;
mod replying;
mod sizing;
mod starting;
mod stepping;
mod turning;

pub use answering::{Called, Turn};
pub use cluster::{Cluster, Pass};
pub use posting::Sending;

#[cfg(test)]
mod tests;
