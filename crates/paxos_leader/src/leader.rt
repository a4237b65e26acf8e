//! The leader that an orderer may be.

ghost use Rattle.std.specs.Prelude.{◌≡◌, Some, None, IfOk};
ghost use Rattle.std.specs.Option.{option_map};
ghost use Rattle.log_base.specs.Shape.{shape};
ghost use Rattle.paxos_model.specs.Leader.{leader_from};
ghost use Rattle.paxos_leader.specs.Leading.{acceptance_to, again_by, led_ballot, next_to, promise_to, without_below};

use crate::answers::{Again, Counting, Heard, Next};
use crate::lead::Lead;
use crate::window::WINDOW;
use log_base::{Ballot, Config, Memory, Slot};
use message_frame::Vote;
use record_frame::Value;
use std::alloc::Global;
use std::marker::Model;

/// What an orderer does as a leader, after Paxos Made Simple. It leads with at most one ballot and has at
/// most one proposal pending. No call but the first takes memory.
#[derive(Debug, Drop)]
pub struct Leader {
    orderers: u8,
    lead: Option<Lead>,
    best: Box<[Option<Vote>; WINDOW]>,
}

impl Model for Leader {
    ghost use Rattle.std.specs.Prelude.{◌≤◌};
    ghost use Rattle.paxos_leader.specs.Leading.{Leading};
    ghost use Rattle.paxos_leader.specs.Kept.{kept_leader};

    ghost Value = { Leading };

    ghost view = { λ s. record { orderers = s.orderers; leader = kept_leader s.lead s.best.value } };

    ghost invariant = { λ s. s.orderers ≤ 7 };
}

impl Leader {
    /// That of an orderer that does not lead.
    pub fn new(alloc: Global, config: Config) -> Result<Leader, Memory>
        ensures { IfOk result (λ leader. leader ≡ record { orderers = (shape config).orderers; leader = None }) }
    {
        let best = Box::new(alloc, [None; WINDOW])?;
        Ok(Leader {
            orderers: config.orderers(),
            lead: None,
            best,
        })
    }

    /// Leads with a ballot, and a window from a slot on. What it led before is given up.
    pub fn start(&mut self, ballot: Ballot, from: Slot)
        ensures { self.new ≡ record self.old { leader = Some (leader_from ballot.0 from.0) } }
    {
        self.lead = Some(Lead::begin(ballot, from, &mut self.best));
    }

    /// Leads no more.
    pub fn stop(&mut self)
        ensures { self.new ≡ record self.old { leader = None } }
    {
        self.lead = None;
    }

    /// The ballot that it leads with.
    pub fn ballot(&self) -> Option<Ballot>
        ensures { result ≡ option_map led_ballot self.now.leader }
    {
        match &self.lead {
            Some(lead) => Some(lead.ballot),
            None => None,
        }
    }

    /// Drops a proposal of a slot below the number of known values: its slot is decided.
    pub fn passed(&mut self, known: u32)
        ensures { self.new ≡ record self.old { leader = option_map (without_below known) self.old.leader } }
    {
        let Some(lead) = &mut self.lead else {
            return;
        };
        lead.pass(known);
    }

    /// An orderer promised a ballot for the window from a slot on, and reported its votes there. An
    /// orderer that promises again counts once.
    pub fn promised(&mut self, ballot: Ballot, from: Slot, who: u8, votes: &[Vote]) -> Heard
        ensures answer { result ≡ (promise_to self.old.orderers self.old.leader ballot.0 from.0 who votes.now).answer }
        ensures leader { self.new ≡ record self.old { leader = (promise_to self.old.orderers self.old.leader ballot.0 from.0 who votes.now).leader } }
    {
        let Some(lead) = &mut self.lead else {
            return Heard::Other;
        };
        if lead.ballot != ballot {
            return Heard::Other;
        }
        if lead.window != from {
            return Heard::Other;
        }
        lead.hear(&mut self.best, who, votes);
        Heard::Counted {
            answers: lead.answered.count(self.orderers),
        }
    }

    /// What it sends next, where so many values are known and it would like `fresh` decided. Nothing
    /// where it does not lead, without promises of a majority, while a proposal is pending, where all
    /// 16,384 slots are known, and where neither a vote nor `fresh` gives a value.
    pub fn next(&mut self, known: u32, fresh: Option<Value>) -> Next
        ensures answer { result ≡ (next_to self.old.orderers self.old.leader known fresh).answer }
        ensures leader { self.new ≡ record self.old { leader = (next_to self.old.orderers self.old.leader known fresh).leader } }
    {
        match &mut self.lead {
            Some(lead) => lead.go_on(&mut self.best, self.orderers, known, fresh),
            None => Next::Nothing,
        }
    }

    /// An orderer accepted the value that was proposed for a slot in a ballot. An orderer that accepts
    /// again counts once.
    pub fn accepted(&mut self, ballot: Ballot, slot: Slot, who: u8) -> Counting
        ensures answer { result ≡ (acceptance_to self.old.orderers self.old.leader ballot.0 slot.0 who).answer }
        ensures leader { self.new ≡ record self.old { leader = (acceptance_to self.old.orderers self.old.leader ballot.0 slot.0 who).leader } }
    {
        let Some(lead) = &mut self.lead else {
            return Counting::Other;
        };
        if lead.ballot != ballot {
            return Counting::Other;
        }
        lead.count_acceptance(self.orderers, slot, who)
    }

    /// What it says again when time has passed.
    pub fn again(&self) -> Again
        ensures { result ≡ again_by self.now.orderers self.now.leader }
    {
        match &self.lead {
            Some(lead) => lead.again(self.orderers),
            None => Again::Nothing,
        }
    }
}
