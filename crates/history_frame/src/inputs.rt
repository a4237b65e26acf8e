//! What a node takes in one event, and how its disks turned out.

use log_base::{Bytes, Client, Number, Position};
use message_frame::Message;
use record_frame::Value;

/// What a node takes.
#[derive(Debug, Drop)]
pub enum Input {
    /// A letter: the output with this index of the event at this place. The message is that output's.
    Deliver {
        place: u32,
        index: u8,
        message: Option<Message>,
    },
    /// A client's call.
    Call(Call),
    /// Time passes.
    Tick,
    /// An orderer is to lead.
    Lead,
    /// The node stops.
    Stop,
    /// The node starts again.
    Restart,
}

/// A client's call of a node.
#[derive(Debug, Drop)]
pub enum Call {
    /// Stores a record under the client's number.
    Submit {
        client: Client,
        number: Number,
        bytes: Bytes,
    },
    /// Asks where the append of this number stands.
    Ask {
        client: Client,
        number: Number,
    },
    /// Asks for the entry at a position.
    Read {
        client: Client,
        position: Position,
    },
    /// Asks for a value to be decided.
    Request {
        client: Client,
        value: Value,
    },
    /// Asks whether a value is decided in a slot from this one on.
    Settled {
        client: Client,
        value: Value,
        from: u32,
    },
}

/// How an event turned out on the node's disks.
#[derive(Clone, Copy, Debug, PartialEq, Eq)]
pub enum Mark {
    /// What it put, if anything, is stored.
    Done,
    /// The disk failed in its put: the node is down, with that payload in flight.
    Halted,
    /// The node started with its lists as they were.
    OpenedWithout,
    /// The node started, and the payload in flight had been stored.
    OpenedWith,
    /// The node could not start.
    StayedDown,
}
