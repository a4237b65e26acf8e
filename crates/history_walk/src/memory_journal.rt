//! A journal without a disk.

ghost use Rattle.std.specs.Prelude.{◌≡◌, ◌+◌, ◌≤◌, ◌<◌, ◌++◌, [], ◌∷◌, IsSome, OnOk, length, option_to_list, vec_capacity};
ghost use Rattle.segment_journal.specs.Journalled.{IsPayload, loaded};

use disk_base::Plan;
use log_base::{Bytes, Memory};
use segment_journal::{Halted, Installed, Journal, OpenFault};
use std::alloc::Global;
use std::marker::Model;
use std::mem;

/// A list of this many payloads is full.
const MOST: usize = 16_777_216;

/// The plan by which the next put succeeds, and the next reload reads the list as it was.
const NO_FAILURE: Plan = Plan {
    after: 1,
    keep: 0,
    lose: false,
};

/// A journal in memory, whose puts and reloads turn out by its plan.
#[derive(Drop)]
pub struct MemoryJournal {
    alloc: Global,
    payloads: Vec<Bytes>,
    flight: Option<Bytes>,
    room: Option<u32>,
    spare: Vec<u8>,
    reloaded: Option<Installed>,
    plan: Plan,
    faults: u64,
}

impl Model for MemoryJournal {
    ghost use Rattle.std.specs.Prelude.{vec_capacity};
    ghost use Rattle.segment_journal.specs.Journalled.{turns_by};
    ghost use Rattle.history_walk.specs.InMemory.{InMemory, IsInMemory, journal_of};

    ghost Value = { InMemory };

    ghost view = { λ j. record {
      journal = journal_of j.payloads.items j.flight j.room j.reloaded;
      faults = j.faults;
      turns = turns_by j.flight j.plan;
    } };

    ghost invariant = { λ j. IsInMemory j.payloads.items (vec_capacity j.payloads) j.flight j.room j.spare.items (vec_capacity j.spare) };
}

impl MemoryJournal {
    /// An empty journal.
    pub fn new(alloc: Global) -> MemoryJournal
        ensures { result.journal ≡ loaded [] }
    {
        MemoryJournal {
            alloc,
            payloads: Vec::new(alloc),
            flight: None,
            room: None,
            spare: Vec::new(alloc),
            reloaded: None,
            plan: NO_FAILURE,
            faults: 0,
        }
    }

    /// Adds a payload that was kept before.
    pub fn keep(&mut self, payload: Bytes) -> Result<(), Memory>
        requires unused { self.old.journal ≡ loaded self.old.journal.payloads }
        requires size { length payload ≤ 131072 }
        requires few { length self.old.journal.payloads < 16777216 }
        ensures ok { OnOk result (self.new.journal ≡ loaded (self.old.journal.payloads ++ payload ∷ [])) }
    {
        are_bytes(payload.get());
        self.payloads.push(payload)?;
        Ok(())
    }
}

impl Journal for MemoryJournal {
    ghost use Rattle.std.specs.Prelude.{Some, true};

    ghost state = { λ j. j.journal };

    ghost gate_at = { λ j at. at };

    ghost faults = { λ j. j.faults };

    ghost keeps_synced = { λ j. true };

    ghost turns = { λ j. Some j.turns };

    fn first(&self) -> u32 {
        let _ = &self.payloads;
        0
    }

    fn len(&self) -> u32 {
        self.payloads.len() as u32
    }

    fn get(&self, at: u32) -> &[u8] {
        self.payloads[at as usize].get()
    }

    /// There is no file: the offset stands for the place.
    fn gate(&self, at: u32) -> u64 {
        let _ = &self.payloads;
        u64::from(at)
    }

    fn is_halted(&self) -> bool {
        self.flight.is_some()
    }

    fn plan(&mut self, plan: Plan) {
        self.plan = plan;
    }

    fn ready(&mut self, bytes: u32) -> Result<(), Memory> {
        if self.payloads.len() >= MOST {
            return Err(Memory);
        }
        let most = self.room.unwrap_or(0).max(bytes);
        self.payloads.reserve(2)?;
        self.spare.reserve(most as usize)?;
        self.room = Some(most);
        Ok(())
    }

    fn put(&mut self, payload: &[u8]) -> Result<(), Halted> {
        let copy = copy_in(self.alloc, &mut self.spare, payload);
        self.reloaded = None;
        self.room = None;
        if self.plan.after == 0 {
            self.faults = self.faults.saturating_add(1);
            self.flight = Some(copy);
            return Err(Halted);
        }
        append(&mut self.payloads, Some(copy));
        Ok(())
    }

    fn reload(&mut self) -> Result<(), OpenFault> {
        if self.plan.lose {
            self.faults = self.faults.saturating_add(1);
            self.reloaded = Some(Installed::Failed);
            return Err(OpenFault::Failed);
        }
        if self.plan.keep > 0 && self.flight.is_some() {
            self.reloaded = Some(Installed::OneMore);
        } else {
            self.reloaded = Some(Installed::Same);
        }
        Ok(())
    }

    fn install(&mut self) -> Installed {
        match self.reloaded {
            None | Some(Installed::Failed) => return Installed::Failed,
            Some(Installed::OneMore) => {
                let flight = self.flight.take();
                append(&mut self.payloads, flight);
                self.reloaded = None;
                return Installed::OneMore;
            }
            Some(Installed::Same) => {
                self.flight = None;
                self.reloaded = None;
                return Installed::Same;
            }
        }
    }
}

// A payload has bytes.
fn are_bytes(payload: &[u8])
    requires { length payload.now ≤ 131072 }
    ensures { IsPayload payload.now }
{
    let _ = payload;
}

// The copy of a payload that stays, in the memory that was made for it.
fn copy_in(alloc: Global, spare: &mut Vec<u8>, payload: &[u8]) -> Bytes
    requires empty { spare.old.items ≡ [] }
    requires room { length payload.now ≤ vec_capacity spare.old }
    ensures copy { result ≡ payload.now }
    ensures payload { length payload.now ≤ 131072 → IsPayload result }
    ensures empty { spare.new.items ≡ [] }
{
    let mut copy = mem::replace(spare, Vec::new(alloc));
    let _ = copy.extend_from_slice(payload);
    Bytes::of(copy)
}

// Adds a payload, if there is one, to a list that has room for it.
fn append(payloads: &mut Vec<Bytes>, payload: Option<Bytes>)
    requires { IsSome payload → length payloads.old.items + 1 ≤ vec_capacity payloads.old }
    ensures items { payloads.new.items ≡ payloads.old.items ++ option_to_list payload }
    ensures capacity { vec_capacity payloads.old ≤ vec_capacity payloads.new }
{
    if let Some(payload) = payload {
        let _ = payloads.push(payload);
    }
}
