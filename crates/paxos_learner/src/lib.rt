//! The decided values that a node knows, slot by slot with no gap, from the first on.
#![tactic(auto)]

mod known;
mod laws;

pub use known::{Known, Learned};
pub use laws::find_is_least;

#[cfg(test)]
mod tests;
