//! The values that clients wish to have decided, until they are.
#![tactic(auto)]

mod settling;
mod wishes;

pub use settling::{Settling, settled};
pub use wishes::{Requested, Wishes};

#[cfg(test)]
mod tests;
