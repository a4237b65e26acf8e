//! How an item of a run goes: the calls that it makes, what an answer means for it, and what a line of the fault
//! script does.
//!
//! A course says what an item, or an answer to it, makes due, and what its reply is. Nothing is kept here: the
//! schedule asks for a course and follows it.
#![tactic(auto)]

mod calls;
mod courses;
mod lines;
mod replies;
mod rounds;
mod streams;

pub use calls::{enquiry, reading, request, submission};
pub use courses::{course_after, held_course};
pub use lines::line_course;
pub use rounds::{opening, signal_input};
pub use streams::{following, subscription_at};

#[cfg(test)]
mod tests;
