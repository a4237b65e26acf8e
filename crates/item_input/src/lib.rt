//! The items of an input: all of them, or the first place where none is or a limit is passed. An input may be one
//! that has lines of the fault script among its items, or one where such a line is no item.
#![tactic(auto)]

mod laws;
mod plain_reading;
mod reading;
mod steps;

pub use laws::{one_plain_reading, one_reading};
pub use plain_reading::read_plain_items;
pub use reading::read_items;

#[cfg(test)]
mod tests;
