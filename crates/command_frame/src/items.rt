//! The items, each a command of one lane.

ghost use Rattle.std.specs.Prelude.{◌≡◌, ◌≤◌};
ghost use Rattle.command_frame.specs.Items.{record_bytes_of};

use fault_script::Fault;
use log_base::{Bytes, Position, Replica, Shard};

/// A command. Its lane, 0 to 63, is the client of the same number.
#[derive(Debug, Drop)]
pub enum Item {
    /// Appends a record of at most 65,535 bytes to the segment of a replica of a shard.
    Append {
        lane: u8,
        shard: Shard,
        replica: Replica,
        bytes: Bytes,
    },
    /// Asks a replica of a shard for the entry at a position.
    Read {
        lane: u8,
        shard: Shard,
        replica: Replica,
        position: Position,
    },
    /// Asks a replica of a shard for the entries at so many positions, 1 to 4,096, from one on.
    Subscribe {
        lane: u8,
        shard: Shard,
        replica: Replica,
        from: Position,
        count: u16,
    },
    /// Gives up the positions below this one, or below the end of the log where that comes first.
    Trim {
        lane: u8,
        position: Position,
    },
    /// Adds a shard to the log.
    Add {
        lane: u8,
        shard: Shard,
    },
    /// Finalises a shard: its segments grow no more.
    Finalise {
        lane: u8,
        shard: Shard,
    },
    /// Asks where the last append of the lane stands.
    Ask {
        lane: u8,
    },
    /// Something goes wrong, or is told to: what a line of the fault script says.
    Fault {
        lane: u8,
        fault: Fault,
    },
}

/// How many bytes the record of an item has.
pub fn record_length(item: &Item) -> u32
    requires { record_bytes_of item.now ≤ 65535 }
    ensures { result ≡ record_bytes_of item.now }
{
    match item {
        Item::Append { bytes, .. } => bytes.get().len() as u32,
        _ => 0,
    }
}
