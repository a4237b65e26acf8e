//! A reader of the log that takes its entries in order, with none left out.
#![tactic(auto)]

mod follower;
mod laws;

pub use follower::{Offered, Subscriber};
pub use laws::delivered_in_order;

#[cfg(test)]
mod tests;
