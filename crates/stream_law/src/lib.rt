//! The law of streams, over every legal history that follows the serial schedule of items: a stream from a
//! position on has the entries of that position, the next and so on, none left out and none twice, as they
//! were found by reads of these positions and as they stand in the one sequence; and the stream in the place
//! of an item begins where that item says.
//!
//! `specs/Streams.antt` says what a stream says of a history, `specs/Replies.antt` which reply an item may have. The functions do nothing: their contracts are the laws.
#![tactic(auto)]

mod laws;

pub use laws::{replies_fit_their_items, streams_agree, streams_were_found};
