//! The model of the nodes: who is who, what a storage node, a gatherer and an orderer do at each input, and
//! histories of events. It says which inputs fit a node, which histories are legal, which lists their
//! disks may have kept and which they leave, and what they have chosen, decided and told. Other crates'
//! contracts cite its definitions; its functions are worked examples and laws, and do nothing.
#![tactic(auto)]

mod histories;
mod laws;
mod rows;
mod state;

pub use histories::{
    first_break_is_found, legal_in_parts, letters_spell_messages, one_append_is_legal,
    sound_one_by_one, vote_past_the_lists,
};
pub use laws::{
    crash_in_a_put, decided_by_a_majority, leader_begins, nodes_in_order, nothing_while_down,
    promise_is_kept,
};
pub use rows::{
    copies_follow_each_other, events_turn_out, gatherer_ticks, replica_is_down, replica_ticks,
    rows_are_named, submit_puts, value_is_learned, window_moves,
};
pub use state::RuleState;
