//! Letters between nodes.

use log_base::Bytes;

/// A letter on its way: an output of an event, by the event's place, the output's index among the event's
/// outputs, and its bytes.
#[derive(Debug, Drop)]
pub struct Letter {
    pub place: u32,
    pub index: u8,
    pub bytes: Bytes,
}
