//! A history walked by its rules: each event is compared with what its node does.
#![tactic(auto)]

mod beginning;
mod filling;
mod inputs;
mod laws;
mod letters;
mod lists;
mod memory_journal;
mod messages;
mod replies;
mod stepping;
mod submissions;
mod walker;

pub use laws::nodes_reply_as_nodes;
pub use memory_journal::MemoryJournal;
pub use walker::{Following, Walker};
