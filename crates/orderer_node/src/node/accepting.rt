//! What an orderer does as an acceptor, and how it begins to lead.

ghost use Rattle.std.specs.Prelude.{◌≡◌, ◌<◌, ◌≤◌, ◌∷◌, [], length, replicate, vec_capacity};
ghost use Rattle.event_letters.specs.Letters.{HasSpace};
ghost use Rattle.message_frame.specs.Spelling.{IsBallot};
ghost use Rattle.node_model.specs.OrdererRow.{on_accept, on_lead, on_prepare};
ghost use Rattle.paxos_acceptor.specs.Accepting.{HasRoom as HasPayloadRoom};
ghost use Rattle.paxos_acceptor.specs.Listed.{list_of};
ghost use Rattle.paxos_model.specs.Leader.{ballot_above};
ghost use Rattle.record_frame.specs.Values.{IsValue};
ghost use Rattle.orderer_node.specs.Ordering.{Follows, IsCaused};

use crate::announcing::{Announcement, announce, to_owner};
use crate::node::{OrdererNode, Standing};
use cut_chain::Places;
use event_letters::EventLetters;
use history_frame::Mark;
use log_base::{Ballot, List, Outbox, Slot};
use message_frame::{Message, Vote};
use paxos_acceptor::{Acceptance, Prepared};
use record_frame::Value;
use segment_journal::Journal;
use std::alloc::Global;
use std::mem;

// The end of the ballots.
const BALLOTS: u64 = 1 << 56;

impl<J: Journal, P: Places> OrdererNode<J, P> {
    /// It is asked for a promise.
    #[tactic(auto, unfolding(node_model::specs::OrdererRow::on_prepare))]
    pub(super) fn prepare(
        &mut self,
        ballot: Ballot,
        from: Slot,
        letters: &mut EventLetters,
        out: &mut Outbox,
    ) -> Mark
        requires ballot { IsBallot ballot.0 }
        requires from { from.0 ≤ 16384 }
        requires running { self.old.standing ≡ Standing.Up }
        requires room { HasPayloadRoom (J.state self.old.journal) }
        requires votes { 64 ≤ self.old.vote_room }
        requires sent { letters.old.sent ≡ [] }
        requires space { HasSpace letters.old out.old.rooms (9103 ∷ []) }
        ensures row { Follows J.state (on_prepare self.old.memory.config self.old.index (list_of (J.state self.old.journal)) self.old.memory.orderer ballot.0 from.0)
            self.old self.new result letters.new out.old out.new }
        ensures cause { IsCaused J.faults J.keeps_synced J.turns
            (on_prepare self.old.memory.config self.old.index (list_of (J.state self.old.journal)) self.old.memory.orderer ballot.0 from.0).put
            self.old.journal self.new.journal result }
    {
        match self.acceptor.prepare(ballot, from) {
            Prepared::Promised => {
                let promise = Message::Promised {
                    ballot,
                    from,
                    who: self.index,
                    votes: report(self.alloc, self.acceptor.votes(), &mut self.votes),
                };
                to_owner(&self.memory.config(), ballot, promise, letters, out);
                return Mark::Done;
            }
            Prepared::Lower { promised } => {
                let lower = Message::Lower { ballot, promised };
                to_owner(&self.memory.config(), ballot, lower, letters, out);
                return Mark::Done;
            }
            Prepared::Halted => {
                self.standing = Standing::Down;
                return Mark::Halted;
            }
        }
    }

    /// It is asked for a vote.
    #[tactic(auto, unfolding(node_model::specs::OrdererRow::on_accept))]
    pub(super) fn accept(
        &mut self,
        ballot: Ballot,
        slot: Slot,
        value: &Value,
        letters: &mut EventLetters,
        out: &mut Outbox,
    ) -> Mark
        requires ballot { IsBallot ballot.0 }
        requires slot { slot.0 ≤ 16383 }
        requires value { IsValue value.now }
        requires running { self.old.standing ≡ Standing.Up }
        requires room { HasPayloadRoom (J.state self.old.journal) }
        requires sent { letters.old.sent ≡ [] }
        requires space { HasSpace letters.old out.old.rooms (143 ∷ []) }
        ensures row { Follows J.state (on_accept self.old.memory.config self.old.index (list_of (J.state self.old.journal)) self.old.memory.orderer ballot.0 slot.0 value.now)
            self.old self.new result letters.new out.old out.new }
        ensures cause { IsCaused J.faults J.keeps_synced J.turns
            (on_accept self.old.memory.config self.old.index (list_of (J.state self.old.journal)) self.old.memory.orderer ballot.0 slot.0 value.now).put
            self.old.journal self.new.journal result }
    {
        match self.acceptor.accept(ballot, slot, value) {
            Acceptance::Accepted => {
                let accepted = Message::Accepted {
                    ballot,
                    slot,
                    who: self.index,
                };
                to_owner(&self.memory.config(), ballot, accepted, letters, out);
                return Mark::Done;
            }
            Acceptance::Lower { promised } => {
                let lower = Message::Lower { ballot, promised };
                to_owner(&self.memory.config(), ballot, lower, letters, out);
                return Mark::Done;
            }
            Acceptance::Halted => {
                self.standing = Standing::Down;
                return Mark::Halted;
            }
        }
    }

    /// It is to lead: it promises its least ballot above its promise, and asks every orderer to promise it.
    #[tactic(auto, unfolding(node_model::specs::OrdererRow::on_lead))]
    pub(super) fn lead(&mut self, letters: &mut EventLetters, out: &mut Outbox) -> Mark
        requires running { self.old.standing ≡ Standing.Up }
        requires room { HasPayloadRoom (J.state self.old.journal) }
        requires sent { letters.old.sent ≡ [] }
        requires space { HasSpace letters.old out.old.rooms (replicate self.old.memory.config.orderers 143) }
        ensures row { Follows J.state (on_lead self.old.memory.config self.old.index (list_of (J.state self.old.journal)) self.old.memory.orderer)
            self.old self.new result letters.new out.old out.new }
        ensures cause { IsCaused J.faults J.keeps_synced J.turns
            (on_lead self.old.memory.config self.old.index (list_of (J.state self.old.journal)) self.old.memory.orderer).put
            self.old.journal self.new.journal result }
    {
        let config = self.memory.config();
        let ballot = least_above(config.orderers(), self.index, self.acceptor.promised());
        if ballot.0 >= BALLOTS {
            return Mark::Done;
        }
        if self.acceptor.promise_own(ballot).is_err() {
            self.standing = Standing::Down;
            return Mark::Halted;
        }
        let from = self.memory.lead(ballot);
        let ask = Some(Announcement::Prepare { ballot, from });
        announce(&config, &ask, letters, out);
        Mark::Done
    }
}

// The least ballot of an orderer above a ballot.
fn least_above(orderers: u8, index: u8, ballot: Ballot) -> Ballot
    requires index { index < orderers }
    requires orderers { orderers ≤ 7 }
    requires ballot { ballot.0 < 72057594037927936 }
    ensures least { result.0 ≡ ballot_above orderers index ballot.0 }
{
    let orderers = u64::from(orderers);
    let index = u64::from(index);
    let rounds = ballot.0.saturating_sub(index) / orderers + 1;
    Ballot(rounds * orderers + index)
}

// Some votes, of which there is room for, as the list of a letter.
fn report(alloc: Global, votes: &[Vote], room: &mut Vec<Vote>) -> List<Vote>
    requires { length votes.now ≤ vec_capacity room.old }
    ensures { result ≡ votes.now }
{
    let mut list = mem::replace(room, Vec::new(alloc));
    list.clear();
    let _ = list.extend_from_slice(votes);
    List::of(list)
}
