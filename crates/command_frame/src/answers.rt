//! What the reader of items answers.

use crate::items::Item;

/// The next item, or the end of the source, which came at a frame's first place.
#[derive(Debug, Drop)]
pub enum Next {
    Item(Item),
    End,
}
