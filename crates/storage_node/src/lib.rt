//! A storage node: a replica of a shard that takes one input at a time. Each input follows a row of the
//! rules: it may put one entry, which is stored before a letter tells of it, sends letters to the node's
//! peers, its gatherer and the orderers, and answers a client's call.
#![tactic(auto)]

mod copies;
mod node;
mod prepared;
mod seat;
mod sending;
mod turn;

pub use node::{Mode, StorageNode};
