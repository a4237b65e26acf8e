//! The model of Paxos: what an acceptor, a leader and a learner do. Other crates' contracts cite its
//! definitions; its functions are worked examples and laws of them, and do nothing.
#![tactic(auto)]

mod laws;

pub use laws::{
    acceptances_are_counted, acceptor_example, ballots_are_apart, gap_is_filled,
    payloads_are_spelled, reported_vote_wins, slots_in_order,
};
