//! Events as they are written, histories as they are read, and what is no history.

mod histories;
mod merges;
mod spellings;
