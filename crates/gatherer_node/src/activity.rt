//! Whether a gatherer runs.

/// A gatherer is down or runs.
#[derive(Clone, Copy, Debug, PartialEq, Eq)]
pub enum Activity {
    Down,
    Running,
}
