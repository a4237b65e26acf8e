//! How a run ends.

ghost use Rattle.std.specs.Prelude.{◌≡◌};

use command_frame::Reply;
use history_frame::History;
use log_base::{List, Memory, Position};
use std::alloc::{AllocError, AllocFailed};

/// A run to its end: its history, a reply to each item, and what the lowest of the nodes with the most known
/// values knows.
#[derive(Debug, Drop)]
pub struct Driven {
    pub history: History,
    pub replies: List<Reply>,
    /// How many values are known.
    pub known: u32,
    /// The end of the log.
    pub end: Position,
    /// The mark below which positions are given up.
    pub trim: Position,
}

/// Why a run did not come to its end.
#[derive(Clone, Copy, Debug, PartialEq, Eq)]
pub enum DriveStop {
    /// There would be too many events (3), a node knows too many values (4), or the events have too many
    /// bytes (5).
    Limit { cause: u8 },
    Memory,
}

impl From<Memory> for DriveStop {
    ghost use Rattle.quiet_run.specs.declared.outcomes.DriveStop.TheVariants.{Memory as Want};

    ghost from_gives = { λ _ stop. stop ≡ Want };

    fn from(_memory: Memory) -> DriveStop {
        DriveStop::Memory
    }
}

impl From<AllocError> for DriveStop {
    ghost use Rattle.quiet_run.specs.declared.outcomes.DriveStop.TheVariants.{Memory as Want};

    ghost from_gives = { λ _ stop. stop ≡ Want };

    fn from(_error: AllocError) -> DriveStop {
        DriveStop::Memory
    }
}

impl<T: Drop> From<AllocFailed<T>> for DriveStop {
    ghost use Rattle.quiet_run.specs.declared.outcomes.DriveStop.TheVariants.{Memory as Want};

    ghost from_gives = { λ _ stop. stop ≡ Want };

    fn from(_error: AllocFailed<T>) -> DriveStop {
        DriveStop::Memory
    }
}
