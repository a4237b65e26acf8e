//! What nodes answer in a legal history, as lemmas: never a stream nor what only a run answers, and an entry
//! that is found is not too long. So what happens there has a spelling, where it fits a frame.
//!
//! The function does nothing: its contract is the law.
#![tactic(auto)]

mod laws;

pub use laws::events_have_spellings;
