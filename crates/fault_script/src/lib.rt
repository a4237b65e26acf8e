//! The lines that tell a cluster what goes wrong, and when. A line is the text of one fault: its words with
//! one space between them and nothing else, each number in decimal digits with no leading zero.
#![tactic(auto)]

mod fault;
mod kind;
mod laws;
mod numbers;
mod operand;
mod reading;
mod sharing;

pub use fault::{Fault, FaultLine};
pub use laws::one_text_each;
pub use reading::read_fault;

#[cfg(test)]
mod tests;
