//! The real outside: a reader and a writer of the standard library as a source and a sink, and a rack of
//! disks. None of them tells more than the standard library does, and each counts its errors as faults.
#![tactic(auto)]

mod any_rack;
mod streams;

pub use any_rack::AnyRack;
pub use streams::{Reading, Writing};

#[cfg(test)]
mod tests;
