//! The answers of an acceptor.

use log_base::Ballot;

/// Why a journal's list is no acceptor's.
#[derive(Clone, Copy, Debug, PartialEq, Eq)]
pub enum BadList {
    /// The payload at this offset is the first that is no promise or vote.
    Payload { offset: u32 },
    Memory,
}

/// What becomes of a promise that is asked for.
#[derive(Clone, Copy, Debug, PartialEq, Eq)]
pub enum Prepared {
    /// It is given, and kept. The votes of the window are there to be told.
    Promised,
    /// The ballot is below this promise.
    Lower { promised: Ballot },
    /// The put of the promise failed.
    Halted,
}

/// What becomes of a vote that is asked for.
#[derive(Clone, Copy, Debug, PartialEq, Eq)]
pub enum Acceptance {
    /// It is cast, and kept.
    Accepted,
    /// The ballot is below this promise.
    Lower { promised: Ballot },
    /// The put of the vote failed.
    Halted,
}
