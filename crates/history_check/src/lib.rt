//! The checker of histories: whether the history that bytes stand for is legal.
//!
//! It reads the frames one by one, and walks the rules event by event beside them.
#![tactic(auto)]

mod checking;
mod judge;
mod laws;
mod verdicts;

pub use checking::check;
pub use laws::{letters_are_named, written_is_read};
pub use verdicts::{CheckFault, Verdict};

#[cfg(test)]
mod rows;
#[cfg(test)]
mod tests;
