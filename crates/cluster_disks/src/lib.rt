//! The nodes of a cluster over the disks that a rack lends.
//!
//! Opening lends the disks of all nodes in order of number and reads their journals, copies what they kept,
//! tests whether a run may begin with it, and makes the nodes, which are down. Where any of that fails all
//! disks lie in the rack again, and the fault tells the first disk, or the place of the first payload, that is
//! at fault. Closing gives the disks of the nodes back in the same order.
#![tactic(auto)]

mod breach;
mod building;
mod cluster;
mod disk;
mod finding;
mod kept;
mod making;
mod node;
mod returning;
mod starting;
mod stop;

pub use returning::close_nodes;
pub use starting::{Opened, open_cluster};
pub use stop::OpenStop;

#[cfg(test)]
mod tests;
