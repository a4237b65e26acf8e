//! Whether the lists that the disks of a cluster kept may begin a run. Where they may not, the first payload
//! that breaks soundness is told.
#![tactic(auto)]

mod disks;
mod entries;
mod lists;
mod promises;
mod sounding;

pub use sounding::{Sounding, sound};

#[cfg(test)]
mod tests;
