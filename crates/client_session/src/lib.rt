//! What a client keeps: the numbers of its appends, drawn in turn, and the greatest position that it
//! has seen. A pair of a client and a number names one append.
#![tactic(auto)]

mod laws;
mod pair;
mod session;

pub use laws::{greatest_is_noted, numbers_differ};
pub use pair::Pair;
pub use session::Session;

#[cfg(test)]
mod tests;
