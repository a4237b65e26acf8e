//! The letters of one event: each is kept for the history and put into the outbox. Sending takes no
//! memory, since the room is made before the event.
#![tactic(auto)]

mod letters;

pub use letters::EventLetters;
