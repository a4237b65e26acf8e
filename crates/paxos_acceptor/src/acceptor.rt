//! An acceptor.

ghost use Rattle.std.specs.Prelude.{◌≡◌, ◌≢◌, ℕ, ◌+◌, ◌<◌, ◌≤◌, [], List, Some, None, Err, Bool, IsTrue, IsSome, IfSome, IfOk, IfErr, OnOk, OnErr, IsErrOf, is_err, false};
ghost use Rattle.log_base.specs.Outside.{HasCause, Rose};
ghost use Rattle.message_frame.specs.Spelling.{IsBallot};
ghost use Rattle.record_frame.specs.Values.{IsValue};
ghost use Rattle.segment_journal.specs.Journalled.{Journalled, IsReloaded, installed, with_payload, with_flight, with_reload, with_room, end_of, planned};
ghost use Rattle.paxos_model.specs.Acceptor.{prepare, accept};
ghost use Rattle.paxos_model.specs.Payloads.{IsPayload, payload_limit, payload_spelling};
ghost use Rattle.paxos_model.specs.Votes.{Promise, promised, reports, votes};
ghost use Rattle.paxos_acceptor.specs.Accepting.{HasRoom, TellsAccepted, TellsPromised, put_by_accept, put_by_prepare, is_halted, is_halted_vote, reported_after};
ghost use Rattle.paxos_acceptor.specs.Listed.{after_put, bad_offset, list_of, payload_so};

use crate::answers::{Acceptance, BadList, Prepared};
use crate::listing::{first_bad, note_from};
use crate::payloads::{Entry, spell};
use crate::table::VoteTable;
use disk_base::Plan;
use log_base::{Ballot, Memory, Slot};
use message_frame::Vote;
use record_frame::Value;
use segment_journal::{Halted, Installed, Journal, OpenFault};
use std::alloc::Global;
use std::marker::Model;

/// How many bytes a payload has at most.
const PAYLOAD_LIMIT: u32 = 143;

/// How many slots a window has.
const WINDOW: usize = 64;

/// An acceptor of Paxos over a journal, which keeps its list of promises and votes.
#[derive(Debug, Drop)]
pub struct Acceptor<J: Journal> {
    journal: J,
    table: VoteTable,
    reported: Vec<Vote>,
    spelling: Vec<u8>,
}

impl<J: Journal> Model for Acceptor<J> {
    ghost use Rattle.std.specs.Prelude.{vec_capacity};
    ghost use Rattle.paxos_acceptor.specs.Accepting.{Accepting, IsAcceptor};
    ghost use Rattle.paxos_acceptor.specs.Listed.{list_of};

    ghost Value = { Accepting J };

    ghost view = { λ a. record { journal = a.journal; reported = a.reported.items } };

    ghost invariant = { λ a. IsAcceptor (list_of (J.state a.journal)) a.table (vec_capacity a.reported) (vec_capacity a.spelling) };
}

impl<J: Journal> Acceptor<J> {
    /// An acceptor by the list of a journal. An error gives the journal back. It makes room for the table of
    /// all slots, so that no later call needs memory for it.
    pub fn new(alloc: Global, journal: J) -> Result<Acceptor<J>, (BadList, J)>
        ensures list { IfOk result (λ a. bad_offset (J.state a.journal) ≡ None) }
        ensures journal { IfOk result (λ a. a.journal ≡ journal) }
        ensures reported { IfOk result (λ a. a.reported ≡ []) }
        ensures bad { IfErr result (λ e. (offset : ℕ) → e.0 ≡ BadList.Payload offset → bad_offset (J.state e.1) ≡ Some offset) }
        ensures back { IfErr result (λ e. e.1 ≡ journal) }
    {
        if let Some(offset) = first_bad(&journal) {
            return Err((BadList::Payload { offset }, journal));
        }
        let mut table = match VoteTable::new(alloc) {
            Ok(table) => table,
            Err(_) => return Err((BadList::Memory, journal)),
        };
        let reported = match Vec::with_capacity(alloc, WINDOW) {
            Ok(reported) => reported,
            Err(_) => return Err((BadList::Memory, journal)),
        };
        let spelling = match Vec::with_capacity(alloc, PAYLOAD_LIMIT as usize) {
            Ok(spelling) => spelling,
            Err(_) => return Err((BadList::Memory, journal)),
        };
        note_from(&journal, journal.first(), &mut table);
        Ok(Acceptor {
            journal,
            table,
            reported,
            spelling,
        })
    }

    /// Makes room for one promise or vote.
    pub fn ready(&mut self) -> Result<(), Memory>
        ensures ok { OnOk result (J.state self.new.journal ≡ with_room (J.state self.old.journal) payload_limit) }
        ensures room { OnOk result (HasRoom (J.state self.new.journal)) }
        ensures err { OnErr result (J.state self.new.journal ≡ J.state self.old.journal) }
        ensures reported { self.new.reported ≡ self.old.reported }
        ensures faults { J.faults self.new.journal ≡ J.faults self.old.journal }
        ensures keeps { J.keeps_synced self.new.journal ≡ J.keeps_synced self.old.journal }
        ensures turns { J.turns self.new.journal ≡ J.turns self.old.journal }
    {
        self.journal.ready(PAYLOAD_LIMIT)
    }

    /// The greatest ballot of the list, which is 0 where there is none.
    pub fn promised(&self) -> Ballot
        ensures { result.0 ≡ promised (list_of (J.state self.now.journal)) }
    {
        self.table.promised()
    }

    /// The votes that the last given promise reports: for each slot of the window the vote of the greatest
    /// ballot below the promise's, the first such in the list.
    pub fn votes(&self) -> &[Vote]
        ensures { result.now ≡ self.now.reported }
    {
        &self.reported
    }

    /// Promises to take no ballot below this one, and gathers the votes of the window from a slot on. A ballot
    /// below the promise is refused. The promise is put, unless the list has it, before it is answered.
    #[tactic(auto, unfolding(paxos_model::specs::Acceptor::prepare))]
    pub fn prepare(&mut self, ballot: Ballot, from: Slot) -> Prepared
        requires ballot { IsBallot ballot.0 }
        requires from { from.0 ≤ 16384 }
        requires running { (J.state self.old.journal).halted ≡ false }
        requires room { HasRoom (J.state self.old.journal) }
        ensures answer { TellsPromised result (prepare (list_of (J.state self.old.journal)) ballot.0 from.0) self.old.reported self.new.reported }
        ensures journal { J.state self.new.journal ≡ after_put (J.state self.old.journal)
            (put_by_prepare (prepare (list_of (J.state self.old.journal)) ballot.0 from.0)) (is_halted result) }
        ensures later { J.faults self.old.journal ≤ J.faults self.new.journal }
        ensures failed { result ≡ Prepared.Halted → Rose (J.faults self.old.journal) (J.faults self.new.journal) }
        ensures keeps { J.keeps_synced self.new.journal ≡ J.keeps_synced self.old.journal }
        ensures turn { IsSome (put_by_prepare (prepare (list_of (J.state self.old.journal)) ballot.0 from.0))
            → IfSome (J.turns self.old.journal) (λ turn. is_halted result ≡ turn.put_fails) }
        ensures nothing_put { put_by_prepare (prepare (list_of (J.state self.old.journal)) ballot.0 from.0) ≡ None
            → self.new.journal ≡ self.old.journal }
    {
        let promised = self.table.promised();
        if ballot.0 < promised.0 {
            return Prepared::Lower { promised };
        }
        if ballot.0 > promised.0 {
            match self.put(&Entry::Promise(ballot)) {
                Ok(()) => {}
                Err(_) => return Prepared::Halted,
            }
        }
        self.report(ballot, from);
        Prepared::Promised
    }

    /// Accepts a value for a slot in a ballot. A ballot below the promise is refused. The vote is put, unless
    /// the list has one for the slot in this ballot, before it is answered.
    #[tactic(auto, unfolding(paxos_model::specs::Acceptor::accept))]
    pub fn accept(&mut self, ballot: Ballot, slot: Slot, value: &Value) -> Acceptance
        requires ballot { IsBallot ballot.0 }
        requires slot { slot.0 ≤ 16383 }
        requires value { IsValue value.now }
        requires running { (J.state self.old.journal).halted ≡ false }
        requires room { HasRoom (J.state self.old.journal) }
        ensures answer { TellsAccepted result (accept (list_of (J.state self.old.journal)) ballot.0 slot.0 value.now) }
        ensures journal { J.state self.new.journal ≡ after_put (J.state self.old.journal)
            (put_by_accept (accept (list_of (J.state self.old.journal)) ballot.0 slot.0 value.now)) (is_halted_vote result) }
        ensures reported { self.new.reported ≡ self.old.reported }
        ensures later { J.faults self.old.journal ≤ J.faults self.new.journal }
        ensures failed { result ≡ Acceptance.Halted → Rose (J.faults self.old.journal) (J.faults self.new.journal) }
        ensures keeps { J.keeps_synced self.new.journal ≡ J.keeps_synced self.old.journal }
        ensures turn { IsSome (put_by_accept (accept (list_of (J.state self.old.journal)) ballot.0 slot.0 value.now))
            → IfSome (J.turns self.old.journal) (λ turn. is_halted_vote result ≡ turn.put_fails) }
        ensures nothing_put { put_by_accept (accept (list_of (J.state self.old.journal)) ballot.0 slot.0 value.now) ≡ None
            → self.new.journal ≡ self.old.journal }
    {
        let promised = self.table.promised();
        if ballot.0 < promised.0 {
            return Acceptance::Lower { promised };
        }
        if self.table.has(ballot, slot) {
            return Acceptance::Accepted;
        }
        let vote = Vote {
            slot,
            ballot,
            value: *value,
        };
        match self.put(&Entry::Vote(vote)) {
            Ok(()) => return Acceptance::Accepted,
            Err(_) => return Acceptance::Halted,
        }
    }

    /// Promises a ballot of the own orderer, which is to lead by it.
    pub fn promise_own(&mut self, ballot: Ballot) -> Result<(), Halted>
        requires ballot { IsBallot ballot.0 }
        requires above { promised (list_of (J.state self.old.journal)) < ballot.0 }
        requires running { (J.state self.old.journal).halted ≡ false }
        requires room { HasRoom (J.state self.old.journal) }
        ensures journal { J.state self.new.journal ≡ after_put (J.state self.old.journal) (Some (Promise ballot.0)) (is_err result) }
        ensures reported { self.new.reported ≡ self.old.reported }
        ensures cause { HasCause (J.faults self.old.journal) (J.faults self.new.journal) result }
        ensures keeps { J.keeps_synced self.new.journal ≡ J.keeps_synced self.old.journal }
        ensures turn { IfSome (J.turns self.old.journal) (λ turn. is_err result ≡ turn.put_fails) }
    {
        self.put(&Entry::Promise(ballot))
    }

    /// Reads the journal's list anew. The list and the table stay until it is put in place.
    pub fn reload(&mut self) -> Result<(), OpenFault>
        ensures ok { OnOk result (IsReloaded (J.state self.old.journal) (J.state self.new.journal)) }
        ensures err { OnErr result (J.state self.new.journal ≡ with_reload (J.state self.old.journal) Installed.Failed) }
        ensures reported { self.new.reported ≡ self.old.reported }
        ensures later { J.faults self.old.journal ≤ J.faults self.new.journal }
        ensures failed { IsErrOf result OpenFault.Failed → Rose (J.faults self.old.journal) (J.faults self.new.journal) }
        ensures damaged { IsTrue (J.keeps_synced self.old.journal) → (at : ℕ) → result ≢ Err (OpenFault.Damaged at) }
        ensures keeps { J.keeps_synced self.new.journal ≡ J.keeps_synced self.old.journal }
        ensures turn { IfSome (J.turns self.old.journal) (λ turn. result ≢ Err OpenFault.Memory
            → J.state self.new.journal ≡ with_reload (J.state self.old.journal) turn.reload) }
    {
        self.journal.reload()
    }

    /// Puts the list that was read in place. Where the last reload failed nothing changes, and else all else
    /// is as at first.
    pub fn install(&mut self) -> Installed
        requires { IsSome (J.state self.old.journal).reloaded }
        ensures answer { (J.state self.old.journal).reloaded ≡ Some result }
        ensures journal { J.state self.new.journal ≡ installed (J.state self.old.journal) result }
        ensures reported { self.new.reported ≡ reported_after result self.old.reported }
        ensures faults { J.faults self.new.journal ≡ J.faults self.old.journal }
        ensures keeps { J.keeps_synced self.new.journal ≡ J.keeps_synced self.old.journal }
    {
        let known = self.journal.len();
        match self.journal.install() {
            Installed::Failed => return Installed::Failed,
            came => {
                self.reported.clear();
                note_from(&self.journal, known, &mut self.table);
                return came;
            }
        }
    }

    /// Hands a plan to the journal.
    pub fn plan(&mut self, plan: Plan)
        ensures state { J.state self.new.journal ≡ J.state self.old.journal }
        ensures reported { self.new.reported ≡ self.old.reported }
        ensures gates { J.gate_at self.new.journal ≡ J.gate_at self.old.journal }
        ensures faults { J.faults self.new.journal ≡ J.faults self.old.journal }
        ensures keeps { J.keeps_synced self.new.journal ≡ J.keeps_synced self.old.journal }
        ensures turns { J.turns self.new.journal ≡ planned (J.state self.old.journal).flight plan (J.turns self.old.journal) }
    {
        self.journal.plan(plan);
    }

    /// Gives the journal back.
    pub fn into_journal(self) -> J
        ensures { result ≡ self.journal }
    {
        let Acceptor {
            journal,
            table: _table,
            reported: _reported,
            spelling: _spelling,
        } = self;
        journal
    }

    // Puts a promise or vote, and notes it.
    fn put(&mut self, entry: &Entry) -> Result<(), Halted>
        requires entry { IsPayload (payload_so entry.now) }
        requires running { (J.state self.old.journal).halted ≡ false }
        requires room { HasRoom (J.state self.old.journal) }
        ensures journal { J.state self.new.journal ≡ after_put (J.state self.old.journal) (Some (payload_so entry.now)) (is_err result) }
        ensures reported { self.new.reported ≡ self.old.reported }
        ensures cause { HasCause (J.faults self.old.journal) (J.faults self.new.journal) result }
        ensures keeps { J.keeps_synced self.new.journal ≡ J.keeps_synced self.old.journal }
        ensures turn { IfSome (J.turns self.old.journal) (λ turn. is_err result ≡ turn.put_fails) }
    {
        spell(entry, &mut self.spelling);
        match self.journal.put(&self.spelling) {
            Ok(()) => {
                self.table.note(entry);
                return Ok(());
            }
            Err(halted) => return Err(halted),
        }
    }

    // Gathers the votes of a window below a ballot that is not below the promise.
    fn report(&mut self, ballot: Ballot, from: Slot)
        requires from { from.0 ≤ 16384 }
        requires ballot { promised (list_of (J.state self.old.journal)) ≤ ballot.0 }
        ensures journal { self.new.journal ≡ self.old.journal }
        ensures reported { self.new.reported ≡ reports ballot.0 from.0 64 (votes (list_of (J.state self.old.journal))) }
    {
        self.table.report(ballot, from, &mut self.reported);
    }
}
