//! The messages, and the votes that orderers report.

use log_base::{Ballot, List, NodeId, Replica, Shard, Slot};
use record_frame::{Entry, Lengths, Value};

/// That an orderer accepted a value for a slot in a ballot.
#[derive(Clone, Copy, Debug, PartialEq, Eq)]
pub struct Vote {
    pub slot: Slot,
    pub ballot: Ballot,
    pub value: Value,
}

/// A message. The first three go between storage nodes and gatherers, `Least` from a gatherer to the
/// orderers, and the others are those of Paxos, with `Want` asking for decided values.
#[derive(Debug, Drop)]
pub enum Message {
    /// An entry of a segment, from its primary to a peer. The offset is at most 16,383.
    Copy {
        segment: Replica,
        offset: u32,
        entry: Entry,
    },
    /// How much of the primary's segment a peer holds, at most 16,384 entries.
    CopyAck {
        peer: Replica,
        length: u32,
    },
    /// How much a replica holds of each segment of its shard, which has 1 to 5.
    Report {
        shard: Shard,
        replica: Replica,
        lengths: Lengths,
    },
    /// How much every replica of a shard holds of each of its segments, which are 1 to 5.
    Least {
        shard: Shard,
        lengths: Lengths,
    },
    /// Asks for a promise, and for the votes in the window of 64 slots from one on, at most 16,384.
    Prepare {
        ballot: Ballot,
        from: Slot,
    },
    /// An orderer's promise, with at most 64 votes in the window, in order of slots, one a slot. `who` is
    /// the orderer's number, at most 6.
    Promised {
        ballot: Ballot,
        from: Slot,
        who: u8,
        votes: List<Vote>,
    },
    /// The ballot is below this promise.
    Lower {
        ballot: Ballot,
        promised: Ballot,
    },
    /// Asks to accept a value for a slot.
    Accept {
        ballot: Ballot,
        slot: Slot,
        value: Value,
    },
    /// An orderer accepted the ballot's value for a slot.
    Accepted {
        ballot: Ballot,
        slot: Slot,
        who: u8,
    },
    /// The value of a slot is decided.
    Decide {
        slot: Slot,
        value: Value,
    },
    /// Asks for the decided values from a slot on.
    Want {
        from: Slot,
        node: NodeId,
    },
}
