//! Turns.

use crate::duties::Planned;
use history_frame::Input;
use log_base::{List, NodeId};

/// A turn: a node takes an input.
#[derive(Debug, Drop)]
pub struct Turn {
    pub node: NodeId,
    pub input: Input,
}

/// What comes next: the disks of nodes are told of failures to come, and then a turn is taken, if the run is not
/// over.
#[derive(Debug, Drop)]
pub struct NextTurn {
    pub plans: List<Planned>,
    pub turn: Option<Turn>,
}
