//! The top call: words to a command, items in, replies and their history out, and the status that the program
//! ends with.
//!
//! A run reads its items, opens the disks of all nodes, drives the nodes through the items, hands the disks back,
//! and then sends its report, or the frame of the fault that there was. A cluster does so with a thread for each lane
//! and each worker. Another command makes such items.
#![tactic(auto)]

mod answering;
mod checking;
mod fault;
mod making;
mod report;
mod run;
mod sending;
mod serving;
pub mod status;
mod writing;

pub use checking::{check_history, runs_are_lawful};
pub use command_words::Options;
pub use item_input::one_reading;
pub use making::make_items;
pub use run::{run_items, scalog};
pub use serving::run_cluster;

#[cfg(test)]
mod checking_tests;
#[cfg(test)]
mod cluster_tests;
#[cfg(test)]
mod line_tests;
#[cfg(test)]
mod stream_tests;
#[cfg(test)]
mod tests;
