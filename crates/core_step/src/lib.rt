//! The core: one node takes one input. A node has one of the three roles, and is a machine to the layers
//! above it. Beside it are the laws of what nodes do together, over every legal history, and the test of the
//! lists that disks kept before a run.
#![tactic(auto)]

mod laws;
mod node;
mod part;

pub use kept_lists::{Sounding, sound};
pub use laws::{
    agreement, answers_are_true, ballots_are_owned, decided_stays, empty_lists_are_sound,
    founded_lists_are_sound, legal_at_each_moment, lists_left_are_sound, no_rival_is_open,
    promises_are_true, two_leaders_agree, whole_histories_agree,
};
pub use node::Node;
pub use safety_law::{
    copies_are_prefixes, cuts_are_held, lengths_are_held, letters_are_spelled, letters_fit,
    replicas_hold_what_they_know,
};
pub use sequence_law::{
    acknowledged_once, decided_is_held, founded_histories_are_safe, next_run_goes_on,
    one_decided_list, one_refusal_is_legal, pairs_stand_once, pending_is_unknown, reads_agree,
    refused_nowhere, sequence_stays,
};

#[cfg(test)]
mod tests;
