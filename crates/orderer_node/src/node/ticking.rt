//! What an orderer's node does as time passes.

ghost use Rattle.std.specs.Prelude.{◌≡◌, [], replicate};
ghost use Rattle.event_letters.specs.Letters.{HasSpace};
ghost use Rattle.node_model.specs.OrdererRow.{on_tick};
ghost use Rattle.orderer_node.specs.Ordering.{Follows};
ghost use Rattle.orderer_node.specs.Remembering.{HasRoom};

use crate::announcing::announce;
use crate::node::{OrdererNode, Standing};
use cut_chain::Places;
use event_letters::EventLetters;
use history_frame::Mark;
use log_base::{Outbox, Slot};
use message_frame::Message;
use node_table::orderer;
use segment_journal::Journal;

impl<J: Journal, P: Places> OrdererNode<J, P> {
    /// Time passes.
    #[tactic(auto, unfolding(node_model::specs::OrdererRow::on_tick))]
    pub(super) fn tick(&mut self, letters: &mut EventLetters, out: &mut Outbox)
        requires room { HasRoom self.old.memory }
        requires running { self.old.standing ≡ Standing.Up }
        requires sent { letters.old.sent ≡ [] }
        requires space { HasSpace letters.old out.old.rooms (replicate self.old.memory.config.orderers 143) }
        ensures row { Follows J.state (on_tick self.old.memory.config self.old.index self.old.memory.orderer)
            self.old self.new Mark.Done letters.new out.old out.new }
        ensures journal { self.new.journal ≡ self.old.journal }
    {
        let config = self.memory.config();
        let asked = self.memory.count_tick();
        if self.memory.leads() {
            let again = self.memory.say_again(asked);
            announce(&config, &again, letters, out);
            return;
        }
        if asked == self.index {
            return;
        }
        let want = Message::Want {
            from: Slot(self.memory.known()),
            node: orderer(&config, self.index),
        };
        letters.send(orderer(&config, asked), want, out);
    }
}
