//! The pieces that a history is read in.

use crate::events::{Event, Kept};
use log_base::Config;

/// What a frame of a history has, or the end of the source, which came at a frame's first place.
#[derive(Debug, Drop)]
pub enum Piece {
    /// A reply, which may stand before a history and is no part of it.
    Reply,
    /// The config of the history, and its run.
    Head { config: Config, run: u32 },
    /// A payload that a disk held before the run.
    Kept(Kept),
    /// The next event. Where it delivers a letter, the message is not told.
    Event(Event),
    End,
}
