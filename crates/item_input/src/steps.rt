//! The steps of reading.

/// What came next in the source.
#[derive(Drop)]
pub enum Step {
    /// An item, which is taken.
    Taken,
    /// The end.
    Ended,
}
