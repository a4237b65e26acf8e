//! What an orderer does as an acceptor: it keeps its promises and its votes in a list, and answers by them.
//!
//! The list is kept by a journal. Each promise and each vote is put there before it is answered.
#![tactic(auto)]

mod acceptor;
mod answers;
mod laws;
mod listing;
mod payloads;
mod rows;
mod table;

pub use acceptor::Acceptor;
pub use answers::{Acceptance, BadList, Prepared};
pub use laws::payloads_are_listed;
pub use payloads::{Entry, read_entry};

#[cfg(test)]
mod tests;
