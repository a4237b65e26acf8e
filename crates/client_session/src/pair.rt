//! The name of an append.

use log_base::{Client, NodeId, Number};

/// An append's client and number, with the node that it was drawn for.
#[derive(Clone, Copy, Debug, PartialEq, Eq)]
pub struct Pair {
    pub client: Client,
    pub number: Number,
    pub node: NodeId,
}
