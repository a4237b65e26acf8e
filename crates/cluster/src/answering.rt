//! What the calls of a cluster answer.

use reply_frame::Reply;

/// What becomes of a turn at a node.
#[derive(Clone, Copy, Debug, PartialEq, Eq)]
pub enum Turn {
    /// The event has this place, and so many of its letters were lost.
    Handled { place: u32, lost: u8 },
    /// Another pass had the turn. There is no event.
    Busy,
    /// The pass may make no further event.
    Spent,
}

/// What becomes of a call of a node.
#[derive(Debug, Drop)]
pub enum Called {
    /// The event has this place, and this is the node's reply.
    Answered { place: u32, reply: Reply },
    /// Another pass had the turn. There is no event.
    Busy,
    /// The pass may make no further event.
    Spent,
}
