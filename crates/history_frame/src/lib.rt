//! The events of nodes, and the history of a run, with one spelling in bytes.
//!
//! A history is a head with the config and the run, the payloads that the disks held before it, and its
//! events in order of place, each a frame. The writers append the spelling. The reader gives the frames one by
//! one, and refuses exactly the bytes that are no frame that may stand there. The message of a letter that is
//! delivered is not in the bytes: the output that is named tells it.
#![tactic(auto)]

mod bodies;
mod events;
mod frame_reading;
mod frames;
mod history_reader;
mod input_writing;
mod inputs;
mod laws;
mod lengths;
mod merging;
mod pieces;
mod reading;
mod reply_reading;
mod stages;
mod writing;

pub use events::{Effect, Event, Happened, History, Kept, Sent};
pub use history_reader::HistoryReader;
pub use inputs::{Call, Input, Mark};
pub use laws::{event_sized, one_history, one_order};
pub use lengths::event_length;
pub use merging::merge;
pub use pieces::Piece;
pub use writing::{write_event, write_head, write_history, write_kept};

#[cfg(test)]
mod tests;
