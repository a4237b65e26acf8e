//! The laws of safety that need sound kept lists alone: what a replica copies, what nodes say of each
//! other's lengths, what cuts cover, and that every letter fits its addressee for good.
//!
//! `specs/Fit.antt` says what holds at each moment, `specs/Statements.antt` what follows from it. The
//! lemmas speak of any nodes and any letters of which that holds. The functions do nothing: their
//! contracts are the laws.
#![tactic(auto)]

mod laws;

pub use laws::{
    all_holds, copies_are_prefixes, cuts_are_held, deliveries_fit, event_keeps_all,
    lengths_are_held, letters_are_spelled, letters_fit, replicas_hold_what_they_know,
    sound_lists_are_a_start,
};
