//! The file: for each payload an open gate, its length and its bytes, and then a closed gate.

/// The gate of a payload that counts.
pub const OPEN: u8 = 1;

/// The gate behind the last payload.
pub const CLOSED: u8 = 0;

/// The most bytes of a payload.
pub const LONGEST: usize = 131_072;

/// A shorter file holds no payload.
pub const SHORTEST: usize = 6;
