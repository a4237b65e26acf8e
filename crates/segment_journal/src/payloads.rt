//! Payloads in order, each with the place of its gate in the file.

ghost use Rattle.std.specs.Prelude.{◌≡◌, ◌+◌, ◌^◌, ◌<◌, ◌≤◌, Some, OnOk, [], ◌∷◌, ◌++◌, length, slice_get};
ghost use Rattle.log_base.specs.Wide.{IsBytes};
ghost use Rattle.segment_journal.specs.Journalled.{AllPayloads, IsPayload};
ghost use Rattle.segment_journal.specs.File.{spelled, place_of};

use log_base::{Bytes, Memory};
use std::alloc::{AllocError, Global};
use std::marker::Model;

/// A payload, and the place of its gate.
#[derive(Debug, Drop)]
struct Held {
    gate: u64,
    payload: Bytes,
}

/// A list of payloads, each of at most 131,072 bytes. Every look-up is by index.
#[derive(Debug, Drop)]
pub struct Payloads {
    held: Vec<Held>,
    end: u64,
}

impl Model for Payloads {
    ghost use Rattle.segment_journal.specs.Listed.{Listed};

    ghost Value = { Listed };

    ghost use Rattle.segment_journal.specs.Listing.{listed, IsInOrder};

    ghost view = { listed };

    ghost invariant = { IsInOrder };
}

impl Payloads {
    /// No payload yet.
    pub fn new(alloc: Global) -> Payloads
        ensures { result.list ≡ [] }
    {
        Payloads {
            held: Vec::new(alloc),
            end: 0,
        }
    }

    pub fn len(&self) -> u32
        ensures len { result ≡ length self.now.list }
        ensures payloads { AllPayloads self.now.list }
    {
        self.held.len() as u32
    }

    /// The payload of an index.
    pub fn get(&self, index: u32) -> &[u8]
        requires { index < length self.now.list }
        ensures payload { slice_get self.now.list index ≡ Some result.now }
        ensures bytes { IsBytes result.now }
        ensures size { length result.now ≤ 131072 }
    {
        self.held[index as usize].payload.get()
    }

    /// The place of the gate of that payload, and of the closed gate for the index after the last.
    pub fn place(&self, index: u32) -> u64
        requires { index ≤ length self.now.list }
        ensures { result ≡ place_of self.now.list index }
    {
        match self.held.get(index as usize) {
            Some(held) => held.gate,
            None => self.end,
        }
    }

    /// The place of the closed gate.
    pub fn end(&self) -> u64
        ensures place { result ≡ length (spelled self.now.list) }
        ensures small { result < 2 ^ 62 }
    {
        self.end
    }

    /// Makes room for one payload more.
    pub fn ready(&mut self) -> Result<(), Memory>
        ensures list { self.new.list ≡ self.old.list }
        ensures payloads { AllPayloads self.new.list }
        ensures ok { OnOk result (length self.new.list + 1 ≤ self.new.capacity) }
        ensures capacity { self.old.capacity ≤ self.new.capacity }
    {
        self.held.reserve(1)?;
        Ok(())
    }

    /// Puts a payload at the end, for which there has to be room.
    pub fn push(&mut self, payload: Bytes)
        requires room { length self.old.list + 1 ≤ self.old.capacity }
        requires few { length self.old.list + 1 < 2 ^ 32 }
        requires payload { IsPayload payload }
        ensures list { self.new.list ≡ self.old.list ++ payload ∷ [] }
        ensures payloads { AllPayloads self.new.list }
    {
        let gate = self.end;
        self.end += 5 + payload.get().len() as u64;
        let _ = self.held.push(Held { gate, payload });
    }
}
