//! Letters on their way out of a node.

ghost use Rattle.std.specs.Prelude.{◌≡◌, ◌<◌, [], ◌∷◌, ◌++◌, length, vec_len, vec_capacity, is_ok, if◌then◌else◌, slice_set};
ghost use Rattle.log_base.specs.Outgoing.{Outgoing, letter_at, HasRoom, rooms_after};

use crate::numbers::NodeId;
use crate::outside::Memory;
use crate::spares::{Kept, Spare, take_spare};
use std::alloc::Global;
use std::marker::Model;
use std::mem;

/// A letter with its addressee.
#[derive(Debug, Drop)]
struct Parcel {
    to: NodeId,
    bytes: Vec<u8>,
}

impl Model for Parcel {
    ghost use Rattle.std.specs.Prelude.{ℕ, List};

    ghost Value = { ℕ × List ℕ };

    ghost view = { λ p. (p.to.0, p.bytes.items) };
}

impl Parcel {
    fn to(&self) -> NodeId
        ensures { result.0 ≡ self.now.0 }
    {
        self.to
    }

    fn bytes(&self) -> &[u8]
        ensures { result.now ≡ self.now.1 }
    {
        &self.bytes
    }

    fn take(&mut self, alloc: Global) -> Vec<u8>
        ensures bytes { result.items ≡ self.old.1 }
        ensures after { self.new ≡ (self.old.0, []) }
    {
        mem::replace(&mut self.bytes, Vec::new(alloc))
    }
}

/// The letters that a node puts out, in order, and spare buffers that later letters fill. A step of a
/// node takes no memory: its letters go into buffers that were made before it.
///
/// The spare buffers are few, a row of letters at most, so that the oldest with room is looked for from
/// the front.
#[derive(Debug, Drop)]
pub struct Outbox {
    alloc: Global,
    letters: Vec<Parcel>,
    spares: Vec<Spare>,
    kept: Kept,
}

impl Model for Outbox {
    ghost use Rattle.std.specs.Prelude.{◌+◌, ◌≤◌, vec_len, vec_capacity};
    ghost use Rattle.log_base.specs.Outgoing.{Outgoing};

    ghost Value = { Outgoing };

    ghost view = { λ o. record { letters = o.letters.items; rooms = o.spares.items } };

    ghost invariant = { λ o. vec_len o.letters + vec_len o.spares ≤ vec_capacity o.letters };
}

impl Outbox {
    /// An outbox with no letter and no spare buffer.
    pub fn new(alloc: Global) -> Outbox
        ensures { result ≡ record { letters = []; rooms = [] } }
    {
        Outbox {
            alloc,
            letters: Vec::new(alloc),
            spares: Vec::new(alloc),
            kept: Kept::new(alloc),
        }
    }

    /// How many letters there are.
    pub fn len(&self) -> usize
        ensures { result ≡ length self.now.letters }
    {
        self.letters.len()
    }

    /// The addressee of the i-th letter.
    pub fn to(&self, i: usize) -> NodeId
        requires { i < length self.now.letters }
        ensures { result.0 ≡ (letter_at i self.now.letters).0 }
    {
        self.letters[i].to()
    }

    /// The bytes of the i-th letter.
    pub fn bytes(&self, i: usize) -> &[u8]
        requires { i < length self.now.letters }
        ensures { result.now ≡ (letter_at i self.now.letters).1 }
    {
        self.letters[i].bytes()
    }

    /// Takes the bytes of the i-th letter out, and leaves it empty. The spare buffers stay.
    pub fn take(&mut self, i: usize) -> Vec<u8>
        requires { i < length self.old.letters }
        ensures bytes { result.items ≡ (letter_at i self.old.letters).1 }
        ensures after { self.new ≡ record self.old { letters = slice_set self.old.letters i ((letter_at i self.old.letters).0, []) } }
    {
        let alloc = self.alloc;
        self.letters[i].take(alloc)
    }

    /// Drops all letters with their buffers. The spare buffers stay.
    pub fn clear(&mut self)
        ensures { self.new ≡ record self.old { letters = [] } }
    {
        self.letters.clear();
    }

    /// Drops all letters and spare buffers, but for the memory of some buffers, which spare buffers that are
    /// added later have.
    pub fn reset(&mut self)
        ensures { self.new ≡ record { letters = []; rooms = [] } }
    {
        keep_letters(&mut self.letters, &mut self.kept);
        keep_spares(&mut self.spares, &mut self.kept);
    }

    /// Adds a spare buffer with room for that many bytes. After `Memory` there is no new one.
    pub fn ready(&mut self, bytes: u32) -> Result<(), Memory>
        ensures letters { self.new.letters ≡ self.old.letters }
        ensures rooms { self.new.rooms ≡ (if is_ok result then self.old.rooms ++ bytes ∷ [] else self.old.rooms) }
    {
        self.letters.reserve(self.spares.len() + 1)?;
        let spare = Spare::make(self.alloc, &mut self.kept, bytes)?;
        self.spares.push(spare)?;
        Ok(())
    }

    /// Puts a letter at the end, in the oldest spare buffer that has room for its bytes. It takes no memory.
    pub fn push(&mut self, to: NodeId, bytes: &[u8])
        requires { HasRoom (length bytes.now) self.old.rooms }
        ensures letters { self.new.letters ≡ self.old.letters ++ (to.0, bytes.now) ∷ [] }
        ensures rooms { self.new.rooms ≡ rooms_after (length bytes.now) self.old.rooms }
    {
        let mut buffer = take_spare(&mut self.spares, bytes.len());
        let _ = buffer.extend_from_slice(bytes);
        let _ = self.letters.push(Parcel { to, bytes: buffer });
    }
}

/// Takes the letters out, and keeps their buffers.
fn keep_letters(letters: &mut Vec<Parcel>, kept: &mut Kept)
    ensures items { letters.new.items ≡ [] }
    ensures len { vec_len letters.new ≡ 0 }
    ensures capacity { vec_capacity letters.new ≡ vec_capacity letters.old }
{
    'letters: while let Some(letter) = letters.pop() {
        kept.keep(letter.bytes);
    }
}

/// Takes the spare buffers out, and keeps them.
fn keep_spares(spares: &mut Vec<Spare>, kept: &mut Kept)
    ensures items { spares.new.items ≡ [] }
    ensures len { vec_len spares.new ≡ 0 }
{
    'spares: while let Some(spare) = spares.pop() {
        kept.keep(spare.into_buffer());
    }
}
