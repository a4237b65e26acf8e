//! What a lane tells of its items, so that another may hold it back.

use std::marker::Sync;

/// A lane calls it around each of its items, which are numbered from 0. It may hold the lane back for a while.
pub trait Gate: Sync {
    /// Ahead of the lane's first call for the item.
    fn before(&self, lane: u8, item: u32);

    /// Once the item's reply stands.
    fn after(&self, lane: u8, item: u32);
}

/// A gate that holds nothing back.
#[derive(Clone, Copy, Debug)]
pub struct OpenGate;

impl Gate for OpenGate {
    fn before(&self, _lane: u8, _item: u32) {}

    fn after(&self, _lane: u8, _item: u32) {}
}
