//! A node that counts the events which show a failure of its disks.
//!
//! It is a machine as the node in it is, and its state has the counts and what was told of the journals at
//! first. Taken out again, the node comes with the bound: the journals' own counts of faults rose at least as
//! often.
#![tactic(auto)]

mod counting;
mod node;
mod state;

pub use node::CountedNode;
pub use state::CountedRuleState;

#[cfg(test)]
mod tests;
