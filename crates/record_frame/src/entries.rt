//! The entries of the log.

use log_base::{Bytes, Client, Number};

/// An entry: a record with the client that appended it and the number that the client gave it.
#[derive(Debug, Drop)]
pub struct Entry {
    pub client: Client,
    pub number: Number,
    /// At most 65,535 bytes.
    pub bytes: Bytes,
}

/// An entry without the bytes of its record.
#[derive(Clone, Copy, Debug, PartialEq, Eq)]
pub struct Head {
    pub client: Client,
    pub number: Number,
    /// How many bytes the record has.
    pub length: u32,
}
