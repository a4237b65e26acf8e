//! What an orderer's node does as a learner.

ghost use Rattle.std.specs.Prelude.{◌≡◌, ◌+◌, ◌*◌, ◌<◌, ◌≤◌, ◌++◌, [], drop, length, map, replicate, take};
ghost use Rattle.std.specs.List.{AllByRecursion};
ghost use Rattle.event_letters.specs.Letters.{HasSpace};
ghost use Rattle.record_frame.specs.Values.{IsLengths, IsValue};
ghost use Rattle.node_model.specs.Machine.{posted};
ghost use Rattle.node_model.specs.OrdererRow.{learned, on_least, on_want, quiet};
ghost use Rattle.orderer_node.specs.Announcing.{AreSmall, decides};
ghost use Rattle.orderer_node.specs.Fine.{IsFine};
ghost use Rattle.orderer_node.specs.Ordering.{Follows};
ghost use Rattle.orderer_node.specs.Remembering.{HasRoom};

use crate::node::{OrdererNode, Standing};
use cut_chain::Places;
use event_letters::EventLetters;
use history_frame::Mark;
use log_base::{NodeId, Outbox, Shard, Slot};
use message_frame::Message;
use record_frame::{Lengths, Value};
use segment_journal::Journal;

impl<J: Journal, P: Places> OrdererNode<J, P> {
    /// The value of a slot is decided.
    pub(super) fn learn(&mut self, slot: Slot, value: &Value, letters: &EventLetters, out: &Outbox)
        requires slot { slot.0 ≤ 16383 }
        requires value { IsFine self.old.memory.config value.now }
        requires room { HasRoom self.old.memory }
        requires running { self.old.standing ≡ Standing.Up }
        requires sent { letters.now.sent ≡ [] }
        ensures row { Follows J.state (quiet (learned self.old.memory.orderer slot.0 value.now)) self.old self.new Mark.Done letters.now out.now out.now }
        ensures journal { self.new.journal ≡ self.old.journal }
    {
        self.memory.learn(slot, value);
    }

    /// A gatherer says how much all replicas of a shard hold.
    #[tactic(auto, unfolding(node_model::specs::OrdererRow::on_least))]
    pub(super) fn hear(
        &mut self,
        shard: Shard,
        lengths: &Lengths,
        letters: &EventLetters,
        out: &Outbox,
    )
        requires shard { shard.0 < self.old.memory.config.shards }
        requires lengths { IsLengths 5 lengths.now }
        requires count { lengths.now.count ≡ self.old.memory.config.replicas }
        requires running { self.old.standing ≡ Standing.Up }
        requires sent { letters.now.sent ≡ [] }
        ensures row { Follows J.state (on_least self.old.memory.config self.old.memory.orderer shard.0 lengths.now.length)
            self.old self.new Mark.Done letters.now out.now out.now }
        ensures journal { self.new.journal ≡ self.old.journal }
    {
        self.memory.hear(shard, lengths);
    }

    /// A node asks for the decided values from a slot on.
    #[tactic(auto, unfolding(node_model::specs::OrdererRow::on_want))]
    pub(super) fn give(
        &self,
        from: Slot,
        node: NodeId,
        letters: &mut EventLetters,
        out: &mut Outbox,
    )
        requires from { from.0 ≤ 16384 }
        requires running { self.now.standing ≡ Standing.Up }
        requires sent { letters.old.sent ≡ [] }
        requires space { HasSpace letters.old out.old.rooms (replicate (length (take 16 (drop from.0 self.now.memory.orderer.known))) 143) }
        ensures { Follows J.state (on_want self.now.memory.orderer from.0 node.0) self.now self.now Mark.Done letters.new out.old out.new }
    {
        tell(node, from, self.memory.give(from), letters, out);
    }
}

// Tells a node the values of the slots from one on.
fn tell(node: NodeId, from: Slot, values: &[Value], letters: &mut EventLetters, out: &mut Outbox)
    requires values { AllByRecursion IsValue values.now }
    requires slots { from.0 + length values.now ≤ 16384 }
    requires space { HasSpace letters.old out.old.rooms (replicate (length values.now) 143) }
    ensures sent { letters.new.sent ≡ letters.old.sent ++ decides node.0 from.0 values.now }
    ensures posted { out.new.letters ≡ out.old.letters ++ map posted (decides node.0 from.0 values.now) }
    ensures small { AreSmall (length values.now) (decides node.0 from.0 values.now) }
{
    let mut slot = from.0;
    for value in values {
        let decide = Message::Decide {
            slot: Slot(slot),
            value: *value,
        };
        letters.send(node, decide, out);
        slot += 1;
    }
}
