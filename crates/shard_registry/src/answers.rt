//! What a registry says of a shard, and what its changes answer.

/// Whether a shard that was added still takes entries.
#[derive(Clone, Copy, Debug, PartialEq, Eq)]
pub enum State {
    Live,
    Finalised,
}

/// What an addition did.
#[derive(Clone, Copy, Debug, PartialEq, Eq)]
pub enum Added {
    /// The shard is the last in the order now.
    New,
    /// The shard was there, and stays as it was.
    Have,
}

/// What a finalisation did.
#[derive(Clone, Copy, Debug, PartialEq, Eq)]
pub enum Ended {
    /// The shard was live until now.
    New,
    /// The shard was finalised already.
    Have,
    /// The shard was not added, and nothing is kept of this.
    NotThere,
}
