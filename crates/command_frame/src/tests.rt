//! Vectors of items, what is no item, the limits, and items that are made.

mod items;
mod making;
