//! The schedule of a run, as definitions: which node takes which input next.
//!
//! First every node restarts, orderer 0 is to lead, and all letters are delivered. Then the items are served
//! one after another, each to its reply. Letters are delivered in the order in which they were put out, and
//! between the calls of an item every node ticks, so that what was stored is decided and known. Lines of the
//! fault script come between: they hold the items, pick letters out of the queue, and give nodes signals.
//!
//! The laws hold of all runs of items, whatever the nodes do.
#![tactic(auto)]

mod courses;
mod duties;
mod laws;
mod turns;

pub use courses::Course;
pub use duties::{Afterwards, Awaited, Duty, Planned, PutOff, Question, Signal, Subscription};
pub use laws::{
    answers_are_single, each_item_is_answered, inputs_are_allowed, letters_were_sent,
    nodes_are_started_first, one_event_more, plans_are_allowed, submissions_agree, worked_runs,
};
pub use turns::{NextTurn, Turn};
