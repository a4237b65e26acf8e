//! How far a history is read.

/// Which frames may come next.
#[derive(Clone, Copy, Debug, PartialEq, Eq)]
pub enum Stage {
    /// Replies, or the head.
    Before,
    /// Payloads of disks from this one on, or the first event.
    Keeping { least: u32 },
    /// Events.
    Running,
}
