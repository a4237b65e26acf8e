//! What the calls of a replica answer.

use log_base::{Number, Position, Shard, Slot};
use record_frame::Head;

/// The answer to a submitted entry.
#[derive(Clone, Copy, Debug, PartialEq, Eq)]
pub enum Submitted {
    /// The pair stands in the own list at this offset, now or since before.
    Stored { offset: u32 },
    /// The client gave this number, or a greater one, before.
    Stale { last: Number },
    /// The shard is not known as added.
    NotAdded,
    /// The shard is known as finalised.
    Finalised,
    /// The own list has as many entries as it may have.
    Full,
    /// The disk failed, and the entry is in flight.
    Halted,
}

/// What is known of a pair.
#[derive(Clone, Copy, Debug, PartialEq, Eq)]
pub enum Asked {
    /// Its position in the log.
    At { position: Position },
    /// It is stored, and no known cut covers it.
    Pending { covered: u32 },
    /// It is stored, and never gets a position.
    FinalisedAt { frozen: u32 },
    /// It is not stored, or trimmed, and the client gave this number, or a greater one, before.
    Stale { last: Number },
    Missing,
}

/// What is known of a position.
#[derive(Clone, Copy, Debug)]
pub enum ReadAnswer<'a> {
    Found { head: Head, bytes: &'a [u8] },
    /// Positions below the mark are given up.
    Trimmed { mark: Position },
    /// No known cut covers it.
    Pending { end: Position },
    /// Its entry is in another shard.
    Elsewhere { shard: Shard },
}

/// What became of a decided value.
#[derive(Clone, Copy, Debug, PartialEq, Eq)]
pub enum Learned {
    Added,
    Have,
    /// Values before it are missing.
    Gap { next: Slot },
}

/// What became of a copied entry, and the length of the list.
#[derive(Clone, Copy, Debug, PartialEq, Eq)]
pub enum Copied {
    Put { len: u32 },
    Have { len: u32 },
    /// Entries before it are missing.
    Gap { len: u32 },
    /// The disk failed, and the entry is in flight.
    Halted,
}
