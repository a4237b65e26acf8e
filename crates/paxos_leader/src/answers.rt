//! What a leader answers.

use log_base::{Ballot, Slot};
use record_frame::Value;

/// What becomes of a promise.
#[derive(Clone, Copy, Debug, PartialEq, Eq)]
pub enum Heard {
    /// So many orderers have promised by now.
    Counted { answers: u8 },
    /// It does not lead with this ballot and this window. Nothing changes.
    Other,
}

/// What a leader sends next, to every orderer.
#[derive(Clone, Copy, Debug, PartialEq, Eq)]
pub enum Next {
    /// That they accept this value for the slot.
    Propose { slot: Slot, value: Value },
    /// That they promise for the window from this slot on.
    Window { from: Slot },
    /// It sends nothing.
    Nothing,
}

/// What becomes of an acceptance.
#[derive(Clone, Copy, Debug, PartialEq, Eq)]
pub enum Counting {
    /// A majority has accepted the value. It is no longer pending.
    Chosen { value: Value },
    /// So many orderers have accepted by now, and they are no majority.
    NotYet { votes: u8 },
    /// It is no acceptance of a proposal that is pending here. Nothing changes.
    Other,
}

/// What a leader says again when time has passed, to every orderer.
#[derive(Clone, Copy, Debug, PartialEq, Eq)]
pub enum Again {
    /// That they promise: fewer than a majority did.
    Prepare {
        ballot: Ballot,
        from: Slot,
    },
    /// That they accept the proposal that is pending.
    Accept {
        ballot: Ballot,
        slot: Slot,
        value: Value,
    },
    /// Nothing: it does not lead, or may go on with what comes next.
    Nothing,
}
