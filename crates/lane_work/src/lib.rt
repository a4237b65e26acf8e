//! What lanes and workers do on a cluster, each with a pass of its own. A lane serves the items of one client:
//! it makes their calls, turns every node once where an answer may come later, and asks again. A worker turns
//! all nodes in rounds, so that what was stored is decided and known.
#![tactic(auto)]

mod answers;
mod beginnings;
mod calling;
mod copies;
mod items;
mod serving;
mod stages;
mod turning;
mod work;

pub use items::lane_of;
pub use stages::{Asking, Due, Stage};
pub use work::LaneWork;

#[cfg(test)]
mod tests;
