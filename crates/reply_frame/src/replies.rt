//! The replies to items, and those of nodes to calls.

use log_base::{List, Number, Position, Shard, Slot};
use record_frame::Entry;

/// A reply. The kinds up to `Settled` are answers of a node, and the later ones are given to items
/// alone.
#[derive(Debug, Drop)]
pub enum Reply {
    /// Nothing is answered.
    Nothing,
    /// The record is stored at this offset of its segment.
    Stored {
        offset: u32,
    },
    /// The record stands at this position of the log.
    At {
        position: Position,
    },
    /// The entry at the position.
    Found {
        position: Position,
        entry: Entry,
    },
    /// The record is stored, and its segment is covered up to this offset only.
    PendingAsk {
        covered: u32,
    },
    /// The position is not covered yet: the log has this end.
    PendingRead {
        end: Position,
    },
    /// The value is not decided among this many.
    PendingWish {
        known: u32,
    },
    /// The shard takes no more records.
    Finalised,
    /// The record lies past this frozen length of its segment and will not be in the log.
    FinalisedAt {
        frozen: u32,
    },
    /// The shard was not added.
    NotAdded,
    /// The client has stored this later number already.
    Stale {
        last: Number,
    },
    /// The segment has no room for another entry.
    Full,
    /// The disk failed while the record was stored.
    Halted,
    /// The node is down.
    Down,
    /// No such append is stored.
    Missing,
    /// The position lies below this mark and is given up.
    Trimmed {
        mark: Position,
    },
    /// The position is held by this shard.
    Elsewhere {
        shard: Shard,
    },
    /// The wish is taken, and stands from this slot on.
    Taken {
        from: u32,
    },
    /// There is no such shard to finalise.
    NoSuchShard,
    /// This orderer does not lead.
    NotLeading,
    /// The value is decided in this slot.
    Settled {
        slot: Slot,
    },
    /// The entries from a position on, and the answer that ended them: `Nothing` where the count was
    /// reached.
    Stream {
        from: Position,
        entries: List<Entry>,
        last: Box<Reply>,
    },
    /// No orderer leads.
    NoLeader,
    /// No such letter: this many are waiting.
    NoLetter {
        waiting: u32,
    },
    /// The lane has appended nothing yet.
    NothingKept,
    /// The fault was made.
    Done,
    /// The pass of the lane is used up, with this many places.
    Spent {
        used: u32,
    },
}
