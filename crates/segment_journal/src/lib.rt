//! Journals: lists of payloads, each of which is kept before it is acknowledged.
//!
//! A journal takes payloads at its end. A put that fails halts it: the payload is then in flight, since what
//! is kept may have it or not. The journal is read anew, and what was read is put in its place.
#![tactic(auto)]

mod comparing;
mod device;
mod format;
mod journal;
mod laws;
mod opening;
mod outgoing;
mod payloads;
mod reading;
mod segment;

pub use journal::{Halted, Installed, Journal, OpenFault};
pub use laws::{files_recover, gates_part_puts};
pub use segment::SegmentJournal;

#[cfg(test)]
mod tests;
