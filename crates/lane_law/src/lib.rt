//! The laws of the replies of a cluster's run, over every legal history that lanes and workers share: a stream
//! from a position on has the entries of that position, the next and so on, none left out and none twice, as
//! they stand in the one sequence; and the reply in the place of an item is one that the item may have.
//!
//! `specs/Answers.antt` says which. The functions do nothing: their contracts are the laws.
#![tactic(auto)]

mod laws;

pub use laws::{served_replies_fit, served_streams_agree};
