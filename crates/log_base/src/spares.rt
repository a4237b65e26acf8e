//! The spare buffers of an outbox, and those that it keeps for later ones.

ghost use Rattle.std.specs.Prelude.{◌≡◌, ◌+◌, ◌≤◌, [], vec_len, vec_capacity, nat_le, IfOk};
ghost use Rattle.std.specs.List.{position_or_len};
ghost use Rattle.log_base.specs.Outgoing.{HasRoom, rooms_after};

use crate::outside::Memory;
use std::alloc::Global;
use std::marker::Model;

/// How many buffers are kept at most.
const MOST_KEPT: usize = 64;

/// How many bytes a buffer that is kept has room for at most.
const LARGEST_KEPT: usize = 4_096;

/// A buffer with the room that was asked for. It may have more.
#[derive(Debug, Drop)]
pub(crate) struct Spare {
    room: u32,
    buffer: Vec<u8>,
}

impl Model for Spare {
    ghost use Rattle.std.specs.Prelude.{ℕ, ◌≤◌, vec_capacity};

    ghost Value = { ℕ };

    ghost view = { λ s. s.room };

    ghost invariant = { λ s. s.room ≤ vec_capacity s.buffer };
}

impl Spare {
    /// A buffer that was kept, or else a new one.
    pub(crate) fn make(alloc: Global, kept: &mut Kept, room: u32) -> Result<Spare, Memory>
        ensures { IfOk result (λ spare. spare ≡ room) }
    {
        let mut buffer = kept.take(alloc);
        buffer.reserve_exact(room as usize)?;
        Ok(Spare { room, buffer })
    }

    fn has_room(&self, bytes: usize) -> bool
        ensures { result ≡ nat_le bytes self.now }
    {
        self.room as usize >= bytes
    }

    pub(crate) fn into_buffer(self) -> Vec<u8>
        ensures { self ≤ vec_capacity result }
    {
        self.buffer
    }
}

/// Buffers for later letters: few, and none of them large.
#[derive(Debug, Drop)]
pub(crate) struct Kept {
    buffers: Vec<Vec<u8>>,
}

impl Model for Kept {
    ghost use Rattle.std.specs.Prelude.{◌≤◌, vec_len, vec_capacity};
    ghost use Rattle.std.specs.List.{AllByRecursion};

    ghost Value = { Unit };

    ghost view = { λ _. tt };

    ghost invariant = { λ k. (vec_len k.buffers ≤ 64) × AllByRecursion (λ b. vec_capacity b ≤ 4096) k.buffers.items };
}

impl Kept {
    pub(crate) fn new(alloc: Global) -> Kept {
        Kept {
            buffers: Vec::new(alloc),
        }
    }

    /// A buffer without bytes.
    fn take(&mut self, alloc: Global) -> Vec<u8>
        ensures { vec_len result ≡ 0 }
    {
        match self.buffers.pop() {
            Some(mut buffer) => {
                buffer.clear();
                buffer
            }
            None => Vec::new(alloc),
        }
    }

    /// Keeps a buffer that is not large, if there are not many.
    pub(crate) fn keep(&mut self, buffer: Vec<u8>) {
        if self.buffers.len() < MOST_KEPT && buffer.capacity() <= LARGEST_KEPT {
            let _ = self.buffers.push(buffer);
        }
    }
}

/// Takes the first buffer that has room for that many bytes out of the others.
pub(crate) fn take_spare(spares: &mut Vec<Spare>, bytes: usize) -> Vec<u8>
    requires { HasRoom bytes spares.old.items }
    ensures empty { result.items ≡ [] }
    ensures len { vec_len result ≡ 0 }
    ensures room { bytes ≤ vec_capacity result }
    ensures rest { spares.new.items ≡ rooms_after bytes spares.old.items }
    ensures fewer { vec_len spares.new + 1 ≡ vec_len spares.old }
{
    let at = oldest_with_room(spares, bytes);
    let spare = spares.remove(at);
    let mut buffer = spare.into_buffer();
    buffer.clear();
    buffer
}

/// The place of the first buffer that has room for that many bytes, or their number where none has.
fn oldest_with_room(spares: &[Spare], bytes: usize) -> usize
    ensures { result ≡ position_or_len (λ spare. nat_le bytes spare) spares.now }
{
    spares
        .iter()
        .position(|spare| spare.has_room(bytes))
        .unwrap_or(spares.len())
}
