//! A replica of a shard: its list of entries for each segment, and the values that it knows. It stores
//! entries in its own list and copies of its peers' lists, each before it says so, learns decided values,
//! and answers where a pair stands in the log and what stands at a position, from these alone.
#![tactic(auto)]

mod answers;
mod indexed;
mod laws;
mod lists;
mod pairs;
mod replica;

pub use answers::{Asked, Copied, Learned, ReadAnswer, Submitted};
pub use laws::{a_pair_is_asked, a_position_is_read, an_entry_is_submitted};
pub use replica::ShardReplica;
