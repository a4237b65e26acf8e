//! The shards that were added, in the order of their addition, each live or finalised. This is the
//! order in which the shards stand in the chain of decided values.
#![tactic(auto)]

mod answers;
mod laws;
mod order;

pub use answers::{Added, Ended, State};
pub use laws::{order_follows_the_chain, state_is_that_of_the_chain};
pub use order::Registry;

#[cfg(test)]
mod tests;
