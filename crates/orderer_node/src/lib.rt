//! An orderer's node: with the other orderers it decides what the next value of the log is.
//!
//! It is an acceptor over a journal, a learner of decided values, and while it leads a leader, after Paxos
//! Made Simple. What clients ask for and what the gatherers say is held waits here until it is decided. Each
//! event is one row of the orderers' rule. All memory of an event is made before it, and what it keeps is
//! kept before it sends a letter.
#![tactic(auto)]

mod announcing;
mod memory;
mod node;

pub use node::OrdererNode;
