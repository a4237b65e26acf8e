//! What an orderer's node does as a leader.

ghost use Rattle.std.specs.Prelude.{◌≡◌, ◌+◌, ◌*◌, ◌<◌, ◌≤◌, [], replicate};
ghost use Rattle.std.specs.List.{AllByRecursion};
ghost use Rattle.event_letters.specs.Letters.{HasSpace};
ghost use Rattle.node_model.specs.OrdererRow.{on_accepted, on_lower, on_promised};
ghost use Rattle.orderer_node.specs.Fine.{IsFineVote};
ghost use Rattle.orderer_node.specs.Ordering.{Follows};
ghost use Rattle.orderer_node.specs.Remembering.{HasRoom};

use crate::announcing::{Announcement, announce, tell_learners};
use crate::node::{OrdererNode, Standing};
use cut_chain::Places;
use event_letters::EventLetters;
use history_frame::Mark;
use log_base::{Ballot, Outbox, Slot};
use message_frame::Vote;
use segment_journal::Journal;

impl<J: Journal, P: Places> OrdererNode<J, P> {
    /// An orderer promised.
    pub(super) fn promised(
        &mut self,
        ballot: Ballot,
        from: Slot,
        who: u8,
        votes: &[Vote],
        letters: &mut EventLetters,
        out: &mut Outbox,
    )
        requires votes { AllByRecursion (IsFineVote self.old.memory.config) votes.now }
        requires running { self.old.standing ≡ Standing.Up }
        requires sent { letters.old.sent ≡ [] }
        requires space { HasSpace letters.old out.old.rooms (replicate self.old.memory.config.orderers 143) }
        ensures row { Follows J.state (on_promised self.old.memory.config self.old.memory.orderer ballot.0 from.0 who votes.now)
            self.old self.new Mark.Done letters.new out.old out.new }
        ensures journal { self.new.journal ≡ self.old.journal }
    {
        let next = self.memory.promised(ballot, from, who, votes);
        announce(&self.memory.config(), &next, letters, out);
    }

    /// An orderer promised more.
    pub(super) fn lower(&mut self, ballot: Ballot, letters: &EventLetters, out: &Outbox)
        requires running { self.old.standing ≡ Standing.Up }
        requires sent { letters.now.sent ≡ [] }
        ensures row { Follows J.state (on_lower self.old.memory.orderer ballot.0) self.old self.new Mark.Done letters.now out.now out.now }
        ensures journal { self.new.journal ≡ self.old.journal }
    {
        self.memory.lower(ballot);
    }

    /// An orderer accepted.
    pub(super) fn accepted(
        &mut self,
        ballot: Ballot,
        slot: Slot,
        who: u8,
        letters: &mut EventLetters,
        out: &mut Outbox,
    )
        requires slot { slot.0 ≤ 16383 }
        requires room { HasRoom self.old.memory }
        requires running { self.old.standing ≡ Standing.Up }
        requires sent { letters.old.sent ≡ [] }
        requires space { HasSpace letters.old out.old.rooms
            (replicate (self.old.memory.config.replicas * self.old.memory.config.shards + self.old.memory.config.orderers + self.old.memory.config.orderers) 143) }
        ensures row { Follows J.state (on_accepted self.old.memory.config self.old.index self.old.memory.orderer ballot.0 slot.0 who)
            self.old self.new Mark.Done letters.new out.old out.new }
        ensures journal { self.new.journal ≡ self.old.journal }
    {
        let config = self.memory.config();
        let Some(decided) = self.memory.accepted(ballot, slot, who) else {
            return;
        };
        let decide = Announcement::Decide {
            slot,
            value: decided.value,
        };
        tell_learners(&config, self.index, &decide, letters, out);
        announce(&config, &decided.next, letters, out);
    }
}
