//! How an item goes on after an answer.

use crate::duties::{Duty, Question};
use log_base::{List, Position};
use record_frame::Entry;
use reply_frame::Reply;

/// How an item goes on after an answer.
#[derive(Debug, Drop)]
pub enum Course {
    /// The item is done, with this reply.
    Replies(Reply),
    /// These are due before all else.
    GoesOn(List<Duty>),
    /// The entry of a position is taken, and the next position is asked for.
    Takes {
        position: Position,
        entry: Entry,
        next: Duty,
    },
    /// The entry of a position is taken, and it is the last that is wanted.
    Completes {
        position: Position,
        entry: Entry,
    },
    /// The stream ends with this answer.
    Ends(Reply),
    /// The item is done, with this reply, and these are due before all else.
    Answers {
        reply: Reply,
        duties: List<Duty>,
    },
    /// The item is done, with this reply for now: the question is asked again once the hold ends.
    PutsOff {
        reply: Reply,
        question: Question,
    },
    /// The reply to an earlier item is this one from now on.
    Replaces {
        item: usize,
        reply: Reply,
    },
}
