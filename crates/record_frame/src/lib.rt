//! The entries that clients append and the values that orderers decide, each with one spelling in bytes.
//!
//! A writer appends the spelling. A reader takes the fields from left to right, and the first that is
//! wrong decides its refusal. Reading from a place serves the formats that hold an entry or a value.
#![tactic(auto)]

mod entries;
mod entry_bytes;
mod fields;
mod laws;
mod refusals;
mod value_bytes;
mod values;

pub use entries::{Entry, Head};
pub use entry_bytes::{read_entry, read_entry_at, read_head, write_entry};
pub use fields::{field_end, read_kind, read_u8, read_u16, read_u32, read_u64};
pub use laws::{entry_spelled, value_spelled};
pub use refusals::Refusal;
pub use value_bytes::{
    put_lengths, put_value, read_lengths, read_shard, read_value, read_value_at, value_length,
    write_value,
};
pub use values::{Lengths, Value};

#[cfg(test)]
mod tests;
