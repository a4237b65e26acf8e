//! What a leader keeps while it leads, beside the votes of its window.

ghost use Rattle.std.specs.Prelude.{◌≡◌, ◌≤◌, List, Option, Some};
ghost use Rattle.message_frame.specs.declared.messages.Vote.{Vote};
ghost use Rattle.paxos_model.specs.Leader.{advance, leader_from, next_of, propose, with_promise};
ghost use Rattle.paxos_leader.specs.Leading.{acceptance_for, again_to, as_next, without_below};

use crate::answers::{Again, Counting, Next};
use crate::marks::Marks;
use crate::window::{WINDOW, forget_votes, merge_votes, pick};
use log_base::{Ballot, Slot};
use message_frame::Vote;
use record_frame::Value;

// How many slots there are.
const SLOTS: u32 = 16384;

/// A proposal that waits for its majority.
#[derive(Clone, Copy, Debug)]
pub struct Proposal {
    pub slot: Slot,
    pub value: Value,
    pub accepted: Marks,
}

/// A ballot that is led, the first slot of its window, who has promised, and the proposal that waits.
#[derive(Clone, Copy, Debug)]
pub struct Lead {
    pub ballot: Ballot,
    pub window: Slot,
    pub answered: Marks,
    pub pending: Option<Proposal>,
}

impl Lead {
    ghost use Rattle.paxos_leader.specs.Kept.{leader_with};

    /// Leads with a window from a slot on, of which nothing was heard.
    pub fn begin(ballot: Ballot, window: Slot, best: &mut [Option<Vote>; WINDOW]) -> Lead
        ensures { leader_with result best.new ≡ leader_from ballot.0 window.0 }
    {
        forget_votes(best);
        Lead {
            ballot,
            window,
            answered: Marks::none(),
            pending: None,
        }
    }

    /// An orderer has promised, with these votes.
    pub fn hear(&mut self, best: &mut [Option<Vote>; WINDOW], who: u8, votes: &[Vote])
        ensures { leader_with self.new best.new ≡ with_promise (leader_with self.old best.old) who votes.now }
    {
        self.answered.mark(who);
        merge_votes(best, self.window, votes);
    }

    /// Goes on, of so many orderers, where so many values are known and it would like a value.
    #[tactic(auto, unfolding(paxos_model::specs::Leader::advance))]
    pub fn go_on(
        &mut self,
        best: &mut [Option<Vote>; WINDOW],
        orderers: u8,
        known: u32,
        wish: Option<Value>,
    ) -> Next
        requires { orderers ≤ 7 }
        ensures answer { result ≡ as_next (advance orderers (leader_with self.old best.old) known wish).next }
        ensures leader { leader_with self.new best.new ≡ (advance orderers (leader_with self.old best.old) known wish).leader }
    {
        if !self.answered.are_most(orderers) {
            return Next::Nothing;
        }
        if self.pending.is_some() {
            return Next::Nothing;
        }
        self.take_next(best, known, wish)
    }

    // Goes on with promises of a majority and no proposal.
    fn take_next(
        &mut self,
        best: &mut [Option<Vote>; WINDOW],
        known: u32,
        wish: Option<Value>,
    ) -> Next
        ensures answer { result ≡ as_next (next_of (leader_with self.old best.old) known wish).next }
        ensures leader { leader_with self.new best.new ≡ (next_of (leader_with self.old best.old) known wish).leader }
    {
        if known >= SLOTS {
            return Next::Nothing;
        }
        let place = known.saturating_sub(self.window.0) as usize;
        if place >= WINDOW {
            *self = Lead::begin(self.ballot, Slot(known), best);
            return Next::Window { from: Slot(known) };
        }
        let value = pick(best, place, wish);
        self.propose(known, value, best)
    }

    // Proposes a value, if there is one.
    fn propose(&mut self, known: u32, value: Option<Value>, best: &[Option<Vote>; WINDOW]) -> Next
        ensures answer { result ≡ as_next (propose (leader_with self.old best.now) known value).next }
        ensures leader { leader_with self.new best.now ≡ (propose (leader_with self.old best.now) known value).leader }
    {
        let Some(value) = value else {
            return Next::Nothing;
        };
        let slot = Slot(known);
        self.pending = Some(Proposal {
            slot,
            value,
            accepted: Marks::none(),
        });
        Next::Propose { slot, value }
    }

    /// Counts an acceptance of the proposal of a slot. At a majority the proposal is dropped.
    pub fn count_acceptance(&mut self, orderers: u8, slot: Slot, who: u8) -> Counting
        requires { orderers ≤ 7 }
        ensures answer { (best : List (Option Vote)) → result ≡ (acceptance_for orderers (leader_with self.old best) (leader_with self.old best).pending slot.0 who).answer }
        ensures leader { (best : List (Option Vote)) → Some (leader_with self.new best) ≡ (acceptance_for orderers (leader_with self.old best) (leader_with self.old best).pending slot.0 who).leader }
    {
        let Some(mut proposal) = self.pending else {
            return Counting::Other;
        };
        if proposal.slot != slot {
            return Counting::Other;
        }
        proposal.accepted.mark(who);
        if proposal.accepted.are_most(orderers) {
            self.pending = None;
            return Counting::Chosen {
                value: proposal.value,
            };
        }
        self.pending = Some(proposal);
        Counting::NotYet {
            votes: proposal.accepted.count(orderers),
        }
    }

    /// Drops a proposal of a slot below the number of known values.
    pub fn pass(&mut self, known: u32)
        ensures { (best : List (Option Vote)) → leader_with self.new best ≡ without_below known (leader_with self.old best) }
    {
        if self.pending.is_some_and(|proposal| proposal.slot.0 < known) {
            self.pending = None;
        }
    }

    /// What is said again.
    pub fn again(&self, orderers: u8) -> Again
        requires { orderers ≤ 7 }
        ensures { (best : List (Option Vote)) → result ≡ again_to orderers (leader_with self.now best) }
    {
        if !self.answered.are_most(orderers) {
            return Again::Prepare {
                ballot: self.ballot,
                from: self.window,
            };
        }
        match &self.pending {
            Some(proposal) => Again::Accept {
                ballot: self.ballot,
                slot: proposal.slot,
                value: proposal.value,
            },
            None => Again::Nothing,
        }
    }
}
