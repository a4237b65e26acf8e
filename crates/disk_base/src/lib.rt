//! Disks as the log sees them: what a read gives, what a crash at any moment may leave, and how often a call
//! failed; racks, which lend disks by number and take them back; and the forms of both in memory.
//!
//! A disk that keeps synced bytes leaves after a crash what its last sync made stable, but for the ranges
//! written since, which may hold any bytes. No proof says that a real disk does: that is a premise.
#![tactic(auto)]

mod content;
mod disk;
mod laws;
mod memory_disk;
mod memory_rack;
mod rack;

pub use disk::{Disk, Plan};
pub use laws::crashes_tear_writes;
pub use memory_disk::MemoryDisk;
pub use memory_rack::MemoryRack;
pub use rack::{DiskError, Rack};

#[cfg(test)]
mod tests;
