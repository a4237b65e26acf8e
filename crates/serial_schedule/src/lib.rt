//! The serial schedule of a run: which node takes which input next.
//!
//! It keeps the items to come, the queue of letters and what is due, gives one turn after another, and notes what
//! the node did. An item goes on as its course says.
#![tactic(auto)]

mod beginnings;
mod effects;
mod hold;
mod lanes;
mod letters;
mod noting;
mod passing;
mod schedule;

pub use beginnings::{first_reading, wish};
pub use schedule::Schedule;

#[cfg(test)]
mod tests;
