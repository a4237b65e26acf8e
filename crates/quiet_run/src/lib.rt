//! The quiet run: the nodes of a cluster take turns in one thread, in the order of the serial schedule, and what
//! they do is a history.
//!
//! `drive` serves items from the opening of the nodes to the last reply. It stops at a limit or for want of
//! memory, with the nodes as the events so far left them.
#![tactic(auto)]

mod keeping;
mod knowing;
mod limits;
mod outcomes;
mod planning;
mod running;
mod serving;
mod taking;
mod turning;

pub use limits::is_one_full;
pub use outcomes::{DriveStop, Driven};
pub use serving::drive;

#[cfg(test)]
mod tests;
