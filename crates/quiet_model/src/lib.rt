//! Quiet runs, in the model: what all nodes are at a settled moment, and what the rounds of settling make
//! of it.
//!
//! `specs/Moments.antt` says what a moment of a run is and how one comes from another, `specs/Settled.antt`
//! what is so at a settled one, `specs/Ahead.antt` what is so where primaries are ahead of their peers, and
//! `specs/Deciding.antt` which value is decided next, `specs/Opening.antt` how a run opens. The functions do
//! nothing: their contracts are the laws.
#![tactic(auto)]

mod calls;
mod laws;
mod steps;

pub use calls::{request_waits, submission_goes_ahead};
pub use laws::{
    copies_catch_up, none_is_ahead, opening_settles, orderers_are_told, settled_stays_settled,
    settling_settles, value_is_decided,
};
pub use steps::{
    known_copy_is_acknowledged, leader_rests, next_copy_is_stored, nothing_is_reported,
};
