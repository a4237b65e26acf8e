//! The state of a node, as its rules speak of it.

use std::marker::Model;

/// A node of a cluster, as its rules speak of it: which one it is, and its state. The program keeps the
/// state in other forms, so no value of this type is made.
#[derive(Drop)]
pub struct RuleState {
    _unused: u8,
}

impl Model for RuleState {
    ghost use Rattle.node_model.specs.Machine.{ClusterNode, no_node};

    ghost Value = { ClusterNode };

    ghost view = { λ _. no_node };
}
