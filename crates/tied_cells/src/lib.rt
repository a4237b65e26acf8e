//! The nodes of a cluster, each a machine in a cell of its own, which many threads share. A thread goes by
//! its pass: it takes the turn at a node, lets the machine step, gives the event its place in the one history
//! of all nodes, and gives the turn back; and it posts letters into the boxes of nodes and fetches them.
//! None of these calls waits.
#![tactic(auto)]

mod account;
mod board;
mod cells;
mod closing;
mod layout;
mod letter;
mod mail;
mod opening;
mod plays;
mod starting;
mod taking;
mod turns;

pub use account::Account;
pub use cells::{Cells, Pass};
pub use closing::Closed;
pub use letter::Letter;
pub use mail::{Fetched, Posted};
pub use turns::{Held, HeldCell, Take, Taken};

#[cfg(test)]
mod tests;
