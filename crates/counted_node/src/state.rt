//! The state of a node that counts, as its rules speak of it.

use std::marker::Model;

/// The state of a node in the rules, with its counts. No value of this type is made.
#[derive(Drop)]
pub struct CountedRuleState {
    _unused: u8,
}

impl Model for CountedRuleState {
    ghost use Rattle.std.specs.Prelude.{[]};
    ghost use Rattle.node_model.specs.Machine.{no_node};
    ghost use Rattle.counted_node.specs.Counted.{CountedState, state_not_counted};

    ghost Value = { CountedState };

    ghost view = { λ _. state_not_counted [] no_node };
}
