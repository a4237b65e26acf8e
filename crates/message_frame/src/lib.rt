//! The messages that nodes send to each other, each with one spelling in bytes.
//!
//! `encode` appends the spelling. `decode` takes all of the bytes, field by field from the left, and the
//! first that is wrong decides its refusal.
#![tactic(auto)]

mod field_reading;
mod field_writing;
mod fields;
mod laws;
mod messages;
mod reading;
mod votes;
mod writing;

pub use laws::message_spelled;
pub use messages::{Message, Vote};
pub use reading::decode;
pub use writing::{encode, message_length};

#[cfg(test)]
mod tests;
