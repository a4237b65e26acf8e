//! The words of the command line, those after the program's name: which lists of words are which command,
//! with which options.
#![tactic(auto)]

mod command;
mod given;
mod laws;
mod number;
mod offered;
mod reading;
mod setting;

pub use command::{Command, Options, WordsFault};
pub use laws::one_command;
pub use offered::{Offered, read_offered};
pub use reading::read_words;

#[cfg(test)]
mod tests;
