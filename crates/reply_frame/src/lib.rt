//! The replies that nodes and items get, and their frames.
//!
//! Histories and commands stand on it: the bytes of a reply are the same in a reply's own frame and in an event's.
#![tactic(auto)]

mod entry_writing;
mod faults;
mod laws;
mod replies;
mod writing;

pub use faults::ItemFault;
pub use laws::one_reply_spelling;
pub use replies::Reply;
pub use writing::{put_reply, reply_length, write_reply};

#[cfg(test)]
mod tests;
