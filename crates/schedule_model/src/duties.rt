//! What is due.

use disk_base::Plan;
use history_frame::Call;
use log_base::{Client, NodeId, Number, Position, Replica, Shard};
use record_frame::Value;

/// An input that the schedule gives by itself. No answer is wanted of it.
#[derive(Clone, Copy, Debug, PartialEq, Eq)]
pub enum Signal {
    Restart,
    Lead,
    Tick,
    Stop,
}

/// What a held item asks last. It can be asked again.
#[derive(Clone, Copy, Debug, PartialEq, Eq)]
pub enum Question {
    /// Where the append of this number stands, of its primary.
    Append {
        primary: NodeId,
        client: Client,
        number: Number,
    },
    /// Whether a value is settled in a slot from this one on, of an orderer.
    Wish {
        orderer: u8,
        client: Client,
        value: Value,
        from: u32,
    },
}

/// A question that was put off, and the place of the item's reply among the replies.
#[derive(Clone, Copy, Debug, PartialEq, Eq)]
pub struct PutOff {
    pub item: usize,
    pub question: Question,
}

/// What becomes of a letter once it is delivered.
#[derive(Clone, Copy, Debug, PartialEq, Eq)]
pub enum Afterwards {
    TakenOut,
    LeftIn,
}

/// What the disks of a node are told of a failure to come.
#[derive(Clone, Copy, Debug, PartialEq, Eq)]
pub struct Planned {
    pub node: NodeId,
    pub plan: Plan,
}

/// Where a subscription stands.
#[derive(Clone, Copy, Debug, PartialEq, Eq)]
pub struct Subscription {
    /// The shard and the replica that are asked.
    pub shard: Shard,
    pub replica: Replica,
    pub client: Client,
    /// The position that is asked for.
    pub position: Position,
    /// How many entries are wanted from there on.
    pub count: u16,
    /// For how many bytes of entries the reply has room.
    pub room: u32,
}

/// Which answer is awaited.
#[derive(Clone, Copy, Debug, PartialEq, Eq)]
pub enum Awaited {
    /// The primary's, to the append of this number.
    Storing {
        primary: NodeId,
        client: Client,
        number: Number,
    },
    /// An orderer's, to the request of a value.
    Requesting {
        orderer: u8,
        client: Client,
        value: Value,
    },
    /// A replica's, to the first read of a position.
    Reading {
        replica: Replica,
        client: Client,
        position: Position,
    },
    /// A replica's, to the first read of a subscription's position.
    Streaming(Subscription),
    /// The told shard's, to the second.
    StreamingOn(Subscription),
    /// The last, which is the reply.
    Last,
    /// A held item's last, which is the reply. The question is put off where nothing is known yet.
    Held(Question),
    /// The last of an item that was held, which takes the place of its reply.
    Again {
        item: usize,
    },
}

/// What is due.
#[derive(Debug, Drop)]
pub enum Duty {
    /// The signal goes to so many nodes from the first on, in order.
    Give {
        signal: Signal,
        first: NodeId,
        count: u16,
    },
    /// The first letter is taken and delivered, until the queue is empty.
    DeliverAll,
    /// A letter of the queue is delivered, where there is one with this number.
    DeliverOne {
        letter: u32,
        afterwards: Afterwards,
    },
    /// A node is called.
    MakeCall {
        node: NodeId,
        call: Call,
        awaited: Awaited,
    },
}
