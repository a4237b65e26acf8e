//! What a gatherer heard of its shards: how much each replica holds of each segment, and how much of
//! each segment every replica of a shard holds.
#![tactic(auto)]

mod laws;
mod merging;
mod reports;

pub use laws::{
    heard_rises, least_is_of_all, least_is_reached, merged_are_lengths, none_where_one_is_missing,
};
pub use reports::Reports;

#[cfg(test)]
mod tests;
