//! A sink in memory.

ghost use Rattle.std.specs.Prelude.{◌≡◌, ℕ, ◌+◌, ◌<◌, ◌≤◌, ◌++◌, [], length, IfOk, OnErr, min, take, Some, ◌==◌, is_err, ◌||◌, nat_lt};
ghost use Rattle.std.specs.List.{list_any};
ghost use Rattle.std.specs.Io.KnownBytes.{WriteAppends};
ghost use Rattle.log_base.specs.Outside.{HasCause, next_count};

use crate::listed::is_listed;
use crate::outside::{Failed, Memory, Sink};
use std::alloc::Global;
use std::marker::Model;

/// A sink that keeps its bytes in memory and takes at most a piece at a time. The calls whose numbers
/// from 0 are listed fail, and so does one that would pass the room.
#[derive(Debug, Drop)]
pub struct MemorySink {
    taken: Vec<u8>,
    room: usize,
    piece: usize,
    calls: u64,
    fails: Vec<u32>,
    faults: u64,
}

impl Model for MemorySink {
    ghost use Rattle.std.specs.Prelude.{◌≤◌, length, vec_capacity};
    ghost use Rattle.log_base.specs.Outside.{Writing};

    ghost Value = { Writing };

    ghost view = { λ s. record { taken = s.taken.items; room = s.room; piece = s.piece; calls = s.calls; fails = s.fails.items; faults = s.faults } };

    ghost invariant = { λ s. (length s.taken.items ≤ s.room) × (s.room ≤ vec_capacity s.taken) × (1 ≤ s.piece) };
}

impl MemorySink {
    /// An empty sink with this room, with no call and no fault so far.
    pub fn new(
        alloc: Global,
        room: usize,
        piece: usize,
        fails: Vec<u32>,
    ) -> Result<MemorySink, Memory>
        requires { 1 ≤ piece }
        ensures { IfOk result (λ sink. sink ≡ record { taken = []; room = room; piece = piece; calls = 0; fails = fails.items; faults = 0 }) }
    {
        let taken = Vec::with_capacity(alloc, room)?;
        Ok(MemorySink {
            taken,
            room,
            piece,
            calls: 0,
            fails,
            faults: 0,
        })
    }

    /// The bytes that it has taken.
    pub fn bytes(&self) -> &[u8]
        ensures { result.now ≡ self.now.taken }
    {
        &self.taken
    }
}

impl Sink for MemorySink {
    ghost taken = { λ s. Some s.taken };

    ghost faults = { λ s. s.faults };

    /// Fails exactly at the listed calls and where the room would be passed; else takes a piece.
    fn write(&mut self, bytes: &[u8]) -> Result<usize, Failed>
        requires { 0 < length bytes.now }
        ensures bound { IfOk result (λ n. (0 < n) × (n ≤ length bytes.now)) }
        ensures bytes { WriteAppends (Some self.old.taken) (Some self.new.taken) result bytes.now }
        ensures cause { HasCause self.old.faults self.new.faults result }
        ensures fails { is_err result ≡ (list_any (λ number. number == self.old.calls) self.old.fails
            || nat_lt self.old.room (length self.old.taken + min self.old.piece (length bytes.now))) }
        ensures count { IfOk result (λ n. n ≡ min self.old.piece (length bytes.now)) }
        ensures kept { OnErr result (self.new ≡ record self.old { calls = next_count self.old.calls; faults = next_count self.old.faults }) }
        ensures written { IfOk result (λ n. self.new ≡ record self.old { taken = self.old.taken ++ take n bytes.now; calls = next_count self.old.calls }) }
    {
        let call = self.calls;
        self.calls = self.calls.saturating_add(1);
        let count = self.piece.min(bytes.len());
        if is_listed(&self.fails, call) {
            self.faults = self.faults.saturating_add(1);
            return Err(Failed);
        }
        if count > self.room - self.taken.len() {
            self.faults = self.faults.saturating_add(1);
            return Err(Failed);
        }
        let _ = self.taken.extend_from_slice(&bytes[..count]);
        Ok(count)
    }
}
