//! The law of agreement, as lemmas: whatever the network loses, repeats or reorders, whichever orderers
//! lead at once and whenever they crash, at most one value is chosen for a slot.
//!
//! `specs/Invariant.antt` says what holds at each moment, `specs/Statements.antt` what follows from it.
//! The lemmas speak of any nodes and any letters of which the invariant holds. The functions do nothing:
//! their contracts are the steps on which all rests.
#![tactic(auto)]

mod laws;

pub use laws::{
    event_keeps_all, invariant_holds, majorities_meet, only_open_value_is_picked, start_is_good,
    values_stay_fine,
};
