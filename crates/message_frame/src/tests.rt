//! Vectors both ways, and the first wrong field of what is no message.

mod refusals;
mod spellings;
