//! What an orderer does as a leader: it collects promises for a window of slots, picks what to propose
//! so that no vote of a lower ballot is overruled, and counts who accepted it.
#![tactic(auto)]

mod answers;
mod laws;
mod lead;
mod leader;
mod marks;
mod window;

pub use answers::{Again, Counting, Heard, Next};
pub use laws::{passing_is_learning, proposed_slot_is_next};
pub use leader::Leader;

#[cfg(test)]
mod tests;
