//! A run of a cluster by threads: lanes serve the items of their clients, and workers turn the nodes.
//!
//! `serve` begins a cluster, runs its lanes and workers each in a thread, and closes it. It stops where a node knows as
//! many values as there may be, or for want of memory, with the nodes as their events left them.
#![tactic(auto)]

mod gathering;
mod lanes;
mod ordering;
mod outcomes;
mod passes;
mod preparing;
mod running;
mod serving;

pub use lanes::lanes_of;
pub use outcomes::{ServeStop, Served};
pub use serving::serve;
