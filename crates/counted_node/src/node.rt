//! A node and its counts.

ghost use Rattle.std.specs.Prelude.{◌≡◌, ◌≤◌, ◌++◌, length, IfOk};
ghost use Rattle.core_step.specs.Known.{is_down as is_down_in};
ghost use Rattle.core_step.specs.Standing.{state_of};
ghost use Rattle.counted_node.specs.Causes.{journals_at, node_media};
ghost use Rattle.counted_node.specs.Counted.{AreCounted, IsReadyToCount, counted_meanings, counted_node, not_counted};
ghost use Rattle.counted_node.specs.Projected.{deliveries_fit as letters_fit};

use crate::counting::{halted_after, stayed_after};
use crate::state::CountedRuleState;
use core_step::Node;
use cut_chain::Places;
use history_frame::{Happened, Input};
use log_base::{Machine, Memory, Outbox};
use segment_journal::Journal;
use std::marker::Model;
use std::snapshot::Snapshot;

/// A node, and how many of its events halted and how many stayed down, up to the last number of a `u64`.
#[derive(Drop)]
pub struct CountedNode<J: Journal, P: Places> {
    node: Node<J, P>,
    first: Snapshot<Node<J, P>>,
    halted: u64,
    stayed: u64,
}

impl<J: Journal, P: Places> Model for CountedNode<J, P> {
    ghost use Rattle.counted_node.specs.Causes.{journals_at, node_media};
    ghost use Rattle.counted_node.specs.Counted.{AreCounted, Counted};

    ghost Value = { Counted J P };

    ghost view = { λ n. record {
      node = n.node;
      first = node_media J.state J.faults J.keeps_synced J.turns n.first.value;
      halted = n.halted;
      stayed = n.stayed;
    } };

    ghost invariant = { λ n. AreCounted (journals_at n.node.config n.node.number)
        (node_media J.state J.faults J.keeps_synced J.turns n.first.value) (node_media J.state J.faults J.keeps_synced J.turns n.node) n.halted n.stayed };
}

impl<J: Journal, P: Places> CountedNode<J, P> {
    /// A node, of whose events none is counted yet.
    pub fn new(node: Node<J, P>) -> CountedNode<J, P>
        ensures { result ≡ not_counted (node_media J.state J.faults J.keeps_synced J.turns node) node }
    {
        let first = Snapshot::of(&node);
        CountedNode {
            node,
            first,
            halted: 0,
            stayed: 0,
        }
    }

    /// How many of its events halted.
    pub fn halted(&self) -> u64
        ensures { result ≡ self.now.halted }
    {
        self.halted
    }

    /// How many stayed down.
    pub fn stayed(&self) -> u64
        ensures { result ≡ self.now.stayed }
    {
        self.stayed
    }

    /// Whether it is down.
    pub fn is_down(&self) -> bool
        ensures { result ≡ is_down_in (state_of J.state self.now.node.part) }
    {
        self.node.is_down()
    }
}

impl<J: Journal + Drop, P: Places> CountedNode<J, P> {
    /// The node. The counts of its journals rose as often as its events showed that they failed.
    pub fn into_node(self) -> Node<J, P>
        ensures node { result ≡ self.node }
        ensures counted { AreCounted (journals_at self.node.config self.node.number) self.first (node_media J.state J.faults J.keeps_synced J.turns self.node) self.halted self.stayed }
    {
        let CountedNode {
            node,
            first: _,
            halted: _,
            stayed: _,
        } = self;
        node
    }
}

impl<J: Journal + Drop, P: Places> Machine for CountedNode<J, P> {
    type Input = Input;

    type Happened = Happened;

    type State = CountedRuleState;

    ghost state = { counted_node J.state };

    ghost meanings = { counted_meanings };

    ghost is_ready = { λ node input out. IsReadyToCount J.state J.faults J.keeps_synced J.turns node input out };

    /// For a start the journals are read. Where this fails the start shows it.
    fn ready(&mut self, input: &Input, out: &mut Outbox) -> Result<(), Memory>
        requires { counted_meanings.fits (counted_node J.state self.old) input.now }
        ensures same { counted_node J.state self.new ≡ counted_node J.state self.old }
        ensures letters { out.new.letters ≡ out.old.letters }
        ensures ready { IfOk result (λ _. IsReadyToCount J.state J.faults J.keeps_synced J.turns self.new input.now out.new) }
    {
        self.node.tell();
        let outcome = self.node.ready(input, out);
        self.node.tell();
        outcome
    }

    /// One row of the rules of its role, which is counted.
    fn step(&mut self, input: Input, out: &mut Outbox) -> Happened
        requires fits { counted_meanings.fits (counted_node J.state self.old) input }
        requires ready { IsReadyToCount J.state J.faults J.keeps_synced J.turns self.old input out.old }
        ensures input { result.input ≡ input }
        ensures row { counted_meanings.is_row (counted_node J.state self.old) result }
        ensures after { counted_node J.state self.new ≡ counted_meanings.after (counted_node J.state self.old) result }
        ensures letters { out.new.letters ≡ out.old.letters ++ counted_meanings.outputs result }
        ensures few { length result.outputs ≤ 255 }
        ensures size { counted_meanings.size result ≤ 2097152 }
    {
        let happened = self.node.step(input, out);
        self.node.tell();
        self.halted = halted_after(self.halted, happened.mark);
        self.stayed = stayed_after(self.stayed, happened.mark);
        happened
    }

    ghost deliveries_fit = { letters_fit };
}
