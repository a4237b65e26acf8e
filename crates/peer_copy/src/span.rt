//! A range of offsets.

/// The offsets of a list from `from` to below `to`. There is none where `to` is not above `from`.
#[derive(Clone, Copy, Debug, PartialEq, Eq)]
pub struct Span {
    pub from: u32,
    pub to: u32,
}
