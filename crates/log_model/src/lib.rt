//! The model of the log: what a list of decided values means. Other crates' contracts cite its
//! definitions; its functions are laws about them, and do nothing.
#![tactic(auto)]

mod laws;

pub use laws::{
    chain_only_grows, end_counts_places, no_place_twice, nothing_after_finalisation,
    order_of_addition, position_is_index, position_stays, segment_in_order, spelled_where_covered,
    spelling_goes_on, well_formed, without_effect,
};
