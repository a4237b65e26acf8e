//! What is kept of the whole list.

ghost use Rattle.std.specs.Prelude.{◌≡◌, ◌≢◌, ℕ, ◌+◌, ◌<◌, ◌≤◌, List, [], ◌∷◌, ◌++◌, length, vec_capacity, max, option_to_list, IfOk, Some};
ghost use Rattle.message_frame.specs.declared.messages.Vote.{Vote};
ghost use Rattle.paxos_model.specs.Votes.{Payload, promised, votes, counts, greatest, has_vote, reports};
ghost use Rattle.paxos_acceptor.specs.Listed.{HasSlot, payload_so};
ghost use Rattle.paxos_acceptor.specs.Table.{Table, Tables, IsRow, row_at, no_row};

use crate::payloads::Entry;
use crate::rows::Row;
use log_base::{Ballot, Memory, Slot};
use message_frame::Vote;
use std::alloc::Global;
use std::marker::Model;

/// How many slots there are.
const SLOTS: usize = 16_384;

/// How many slots a window has.
const WINDOW: u32 = 64;

/// The promise, and a row for each slot up to the greatest one that has a vote. It has room for every slot.
#[derive(Debug, Drop)]
pub struct VoteTable {
    promise: Ballot,
    rows: Vec<Row>,
}

impl Model for VoteTable {
    ghost use Rattle.std.specs.Prelude.{◌≤◌, vec_capacity};
    ghost use Rattle.paxos_acceptor.specs.Table.{Table};

    ghost Value = { Table };

    ghost view = { λ t. record { promise = t.promise.0; rows = t.rows.items } };

    ghost invariant = { λ t. 16384 ≤ vec_capacity t.rows };
}

impl VoteTable {
    /// The table of an empty list.
    pub fn new(alloc: Global) -> Result<VoteTable, Memory>
        ensures { IfOk result (λ t. Tables t []) }
    {
        let rows = Vec::with_capacity(alloc, SLOTS)?;
        Ok(VoteTable {
            promise: Ballot(0),
            rows,
        })
    }

    /// The greatest ballot of the list.
    pub fn promised(&self) -> Ballot
        ensures { result.0 ≡ self.now.promise }
    {
        self.promise
    }

    /// Notes one promise or vote more.
    pub fn note(&mut self, entry: &Entry)
        requires { HasSlot entry.now }
        ensures { (list : List Payload) → Tables self.old list → Tables self.new (list ++ payload_so entry.now ∷ []) }
    {
        match entry {
            Entry::Promise(ballot) => self.raise(*ballot),
            Entry::Vote(vote) => {
                self.raise(vote.ballot);
                self.note_vote(vote);
            }
        }
    }

    // Raises the promise to a ballot, where that is greater.
    fn raise(&mut self, ballot: Ballot)
        ensures { self.new ≡ record self.old { promise = max ballot.0 self.old.promise } }
    {
        if ballot.0 > self.promise.0 {
            self.promise = ballot;
        }
    }

    // Notes a vote in its slot's row.
    fn note_vote(&mut self, vote: &Vote)
        requires { vote.now.slot.0 ≤ 16383 }
        ensures promise { self.new.promise ≡ self.old.promise }
        ensures row { (votes : List Vote) → IsRow vote.now.slot.0 (row_at self.old.rows vote.now.slot.0) votes
            → IsRow vote.now.slot.0 (row_at self.new.rows vote.now.slot.0) (votes ++ vote.now ∷ []) }
        ensures others { (slot : ℕ) → slot ≢ vote.now.slot.0 → row_at self.new.rows slot ≡ row_at self.old.rows slot }
    {
        let at = vote.slot.0 as usize;
        self.reach(at);
        self.rows[at] = self.rows[at].with(vote);
    }

    // Makes the rows up to a slot's.
    fn reach(&mut self, at: usize)
        requires { at < 16384 }
        ensures promise { self.new.promise ≡ self.old.promise }
        ensures rows { (slot : ℕ) → row_at self.new.rows slot ≡ row_at self.old.rows slot }
        ensures there { at < length self.new.rows }
    {
        if at >= self.rows.len() {
            let _ = self.rows.resize(at + 1, Row::none());
        }
    }

    // The row of a slot.
    fn row(&self, slot: Slot) -> Row
        ensures { result ≡ row_at self.now.rows slot.0 }
    {
        match self.rows.get(slot.0 as usize) {
            Some(row) => return *row,
            None => return Row::none(),
        }
    }

    /// Whether there is a vote for a slot in a ballot that is not below the promise.
    pub fn has(&self, ballot: Ballot, slot: Slot) -> bool
        ensures { (list : List Payload) → Tables self.now list → promised list ≤ ballot.0 → result ≡ has_vote (votes list) ballot.0 slot.0 }
    {
        self.row(slot).has(ballot)
    }

    // The vote for a slot of the greatest ballot below one that is not below the promise.
    fn below(&self, ballot: Ballot, slot: Slot) -> Option<Vote>
        ensures { (list : List Payload) → Tables self.now list → promised list ≤ ballot.0 → result ≡ greatest (counts ballot.0 slot.0) (votes list) }
    {
        self.row(slot).below(ballot)
    }

    /// For each slot of the window from one on the vote of the greatest ballot below one that is not below the
    /// promise. They are put into a vector with room for them, which is emptied first.
    pub fn report(&self, ballot: Ballot, from: Slot, out: &mut Vec<Vote>)
        requires from { from.0 ≤ 16384 }
        requires room { 64 ≤ vec_capacity out.old }
        ensures votes { (list : List Payload) → Tables self.now list → promised list ≤ ballot.0 → out.new.items ≡ reports ballot.0 from.0 64 (votes list) }
        ensures capacity { 64 ≤ vec_capacity out.new }
    {
        out.clear();
        for slot in from.0..from.0 + WINDOW {
            put_some(self.below(ballot, Slot(slot)), out);
        }
    }
}

// Puts a vote at the end, if there is one. There is room.
fn put_some(vote: Option<Vote>, out: &mut Vec<Vote>)
    requires { length out.old.items < vec_capacity out.old }
    ensures items { out.new.items ≡ out.old.items ++ option_to_list vote }
    ensures capacity { vec_capacity out.old ≤ vec_capacity out.new }
{
    if let Some(vote) = vote {
        let _ = out.push(vote);
    }
}
