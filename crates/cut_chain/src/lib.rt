//! The chain of decided values, applied one after another: which shards were added and finalised, how
//! much of each segment is covered, where the log ends and how far it is trimmed; and the one sequence
//! of places that the values spell, looked up by position and by place.
#![tactic(auto)]

mod applying;
mod covering;
mod laws;
mod runs;
mod sequence;
mod walking;

pub use applying::Chain;
pub use laws::known_grows;
pub use runs::Run;
pub use sequence::Places;
pub use walking::WalkPlaces;

#[cfg(test)]
mod tests;
