//! What an orderer does as a leader.

ghost use Rattle.std.specs.Prelude.{◌≡◌, ℕ, ◌<◌, ◌≤◌, length, Option, Some, None};
ghost use Rattle.std.specs.List.{AllByRecursion};
ghost use Rattle.message_frame.specs.Spelling.{IsBallot};
ghost use Rattle.node_model.specs.OrdererRow.{on_accepted, on_lower, on_promised, quiet, told, with_leader};
ghost use Rattle.paxos_model.specs.Leader.{leader_from};
ghost use Rattle.orderer_node.specs.Announcing.{IsSaid, announced, decided_letters};
ghost use Rattle.orderer_node.specs.Fine.{IsFine, IsFineVote};
ghost use Rattle.orderer_node.specs.Remembering.{HasRoom, gone_on};
ghost use Rattle.orderer_node.specs.Deciding.{IsDecision};

use crate::announcing::{Announcement, Decided, said_next};
use crate::memory::OrdererMemory;
use cut_chain::Places;
use log_base::{Ballot, Slot};
use message_frame::Vote;
use paxos_leader::{Counting, Heard};

impl<P: Places> OrdererMemory<P> {
    /// Leads with a ballot, with the window from the next slot on, which it gives.
    pub fn lead(&mut self, ballot: Ballot) -> Slot
        requires { IsBallot ballot.0 }
        ensures config { self.new.config ≡ self.old.config }
        ensures slot { result.0 ≡ length self.old.orderer.known }
        ensures most { result.0 ≤ 16384 }
        ensures orderer { self.new.orderer ≡ with_leader self.old.orderer (Some (leader_from ballot.0 (length self.old.orderer.known))) }
    {
        let from = Slot(self.known.len());
        self.leader.start(ballot, from);
        from
    }

    /// An orderer promised, and told its votes. It says what it does next.
    #[tactic(auto, unfolding(node_model::specs::OrdererRow::on_promised))]
    pub fn promised(
        &mut self,
        ballot: Ballot,
        from: Slot,
        who: u8,
        votes: &[Vote],
    ) -> Option<Announcement>
        requires votes { AllByRecursion (IsFineVote self.old.config) votes.now }
        ensures config { self.new.config ≡ self.old.config }
        ensures row { on_promised self.old.config self.old.orderer ballot.0 from.0 who votes.now
            ≡ told self.new.orderer (announced self.old.config result) }
        ensures said { IsSaid result }
    {
        match self.leader.promised(ballot, from, who, votes) {
            Heard::Counted { .. } => return self.go_on(),
            Heard::Other => return None,
        }
    }

    /// An orderer promised more: with this ballot it leads no longer.
    #[tactic(auto, unfolding(node_model::specs::OrdererRow::on_lower))]
    pub fn lower(&mut self, ballot: Ballot)
        ensures config { self.new.config ≡ self.old.config }
        ensures row { on_lower self.old.orderer ballot.0 ≡ quiet self.new.orderer }
    {
        if self.leader.ballot() == Some(ballot) {
            self.leader.stop();
        }
    }

    /// An orderer accepted. Where a majority has, the value is decided, and it says what it does next.
    #[tactic(auto, unfolding(node_model::specs::OrdererRow::on_accepted))]
    pub fn accepted(&mut self, ballot: Ballot, slot: Slot, who: u8) -> Option<Decided>
        requires slot { slot.0 ≤ 16383 }
        requires room { HasRoom self.old }
        ensures config { self.new.config ≡ self.old.config }
        ensures row { (index : ℕ) → on_accepted self.old.config index self.old.orderer ballot.0 slot.0 who
            ≡ told self.new.orderer (decided_letters self.old.config index slot.0 result) }
        ensures said { IsDecision slot.0 result }
    {
        match self.leader.accepted(ballot, slot, who) {
            Counting::Chosen { value } => {
                self.learn(slot, &value);
                let next = self.go_on();
                return Some(Decided { value, next });
            }
            Counting::NotYet { .. } => return None,
            Counting::Other => return None,
        }
    }

    /// Goes on as a leader, if it leads. It says what it does next.
    pub fn go_on(&mut self) -> Option<Announcement>
        ensures config { self.new.config ≡ self.old.config }
        ensures row { gone_on self.old.config self.old.orderer ≡ told self.new.orderer (announced self.old.config result) }
        ensures said { IsSaid result }
    {
        let Some(ballot) = self.leader.ballot() else {
            return None;
        };
        let wish = self.wish();
        let next = self.leader.next(self.known.len(), wish);
        said_next(ballot, next)
    }
}
