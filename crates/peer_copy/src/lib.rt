//! Which entries of its own list a replica copies to its peers next. A peer acknowledges how much of
//! the list it holds, and at most four entries past what it acknowledged are on their way to it.
#![tactic(auto)]

mod copy_state;
mod laws;
mod span;
mod taking;

pub use copy_state::CopyState;
pub use laws::{note_opens_the_rest, offsets_within};
pub use span::Span;
pub use taking::{Taking, take};

#[cfg(test)]
mod tests;
