//! The commands that the program reads, which are framed items. The replies are given on from `reply_frame`.
#![tactic(auto)]

mod answers;
mod frames;
mod item_reader;
mod items;
mod laws;
mod making;
mod reading;

pub use answers::Next;
pub use item_reader::ItemReader;
pub use items::Item;
pub use laws::{item_spelled, one_spelling};
pub use making::make;
pub use reply_frame::{ItemFault, Reply, put_reply, reply_length, write_reply};

#[cfg(test)]
mod tests;
