//! The values that are decided, slot by slot.

use log_base::{Position, Shard};

/// Lengths of segments. The first `count` of them are meant, and those past it are 0.
#[derive(Clone, Copy, Debug, PartialEq, Eq)]
pub struct Lengths {
    /// 1 to 32.
    pub count: u8,
    /// Each at most 16,384.
    pub length: [u32; 32],
}

/// A value that is decided. Their list, in order of slots, spells the order of the log.
#[derive(Clone, Copy, Debug, PartialEq, Eq)]
pub enum Value {
    /// Nothing, where a slot has to be filled.
    Noop,
    /// How much of each segment is in the log now: the length of segment j of shard s stands at
    /// s times the replicas of a shard, plus j.
    Cut(Lengths),
    /// The shard is there from now on.
    Add(Shard),
    /// The shard takes no more entries.
    Finalise(Shard),
    /// Positions below this one are given up.
    Trim(Position),
}
