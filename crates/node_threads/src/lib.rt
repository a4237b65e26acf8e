//! Runs lanes and workers in threads of their own, and gathers what they leave. It knows nothing of the log:
//! what a lane and a worker do is a `Work`, which the caller brings.
#![tactic(auto)]

mod fanning;
mod gates;
mod runs;
mod slots;
mod working;

pub use fanning::{Gathered, fan_out};
pub use gates::{Gate, OpenGate};
pub use working::Work;

#[cfg(test)]
mod tests;
