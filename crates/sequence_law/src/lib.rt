//! The law of the one sequence, over every legal history with founded kept lists: one decided list that
//! every node knows a beginning of; an acknowledged pair stands in the sequence once, where it was told,
//! after all that its client had seen; a pair that was refused as finalised stands nowhere; reads agree
//! with the sequence; and each run goes on where the run before it ended.
//!
//! `specs/` says what the laws say of a history. The functions do nothing: their contracts are the laws.
#![tactic(auto)]

mod example;
mod laws;

pub use example::{one_refusal_is_legal, second_run_begins};
pub use laws::{
    acknowledged_once, decided_is_held, founded_histories_are_safe, founded_lists_are_sound,
    next_run_goes_on, one_decided_list, pairs_stand_once, pending_is_unknown, reads_agree,
    refused_nowhere, sequence_stays,
};
