//! A reader that takes pieces of 4,096 bytes from a source and gives as many bytes as are wanted.

ghost use Rattle.std.specs.Prelude.{◌≡◌, ◌≢◌, ℕ, ◌<◌, ◌≤◌, ◌↔◌, [], ◌++◌, length, vec_len, vec_capacity, slice_index, IsTrue, OnOk, IfOk, OnErr};
ghost use Rattle.std.specs.Io.KnownBytes.{Consumes, IsAtEnd, Keeps};
ghost use Rattle.log_base.specs.Outside.{HasCause, Rose, unread, ReadsOn, TakesOn};

use crate::big_endian::put_bytes;
use crate::outside::{Failed, Source};
use std::alloc::{AllocError, Global};
use std::marker::Model;

/// The size of a piece.
pub const PIECE: usize = 4_096;

/// A reader of pieces. It asks its source for a piece whenever it has used up the bytes that it has, so
/// what it still gives is its pending bytes and then what the source has left.
#[derive(Debug, Drop)]
pub struct PieceReader {
    buffer: [u8; 4_096],
    at: usize,
    filled: usize,
    taken: u64,
}

impl Model for PieceReader {
    ghost use Rattle.std.specs.Prelude.{◌≤◌, take, drop};
    ghost use Rattle.log_base.specs.Outside.{Piecewise};

    ghost Value = { Piecewise };

    ghost view = { λ r. record { pending = drop r.at (take r.filled r.buffer); taken = r.taken } };

    ghost invariant = { λ r. (r.at ≤ r.filled) × (r.filled ≤ 4096) };
}

/// Why bytes could not be read.
#[derive(Clone, Copy, Debug, PartialEq, Eq)]
pub enum Stop {
    /// The source failed.
    Read,
    /// Memory ran out.
    Memory,
}

impl From<AllocError> for Stop {
    ghost use Rattle.log_base.specs.declared.pieces.Stop.TheVariants.{Memory};
    ghost use Rattle.std.specs.Prelude.{◌≡◌};

    ghost from_gives = { λ _ e. e ≡ Memory };

    fn from(_error: AllocError) -> Stop {
        Stop::Memory
    }
}

impl PieceReader {
    /// A reader that has taken nothing yet.
    pub fn new() -> PieceReader
        ensures { result ≡ record { pending = []; taken = 0 } }
    {
        PieceReader {
            buffer: [0; 4_096],
            at: 0,
            filled: 0,
            taken: 0,
        }
    }

    /// How many bytes it took from its source so far, up to the end of the type.
    pub fn taken(&self) -> u64
        ensures { result ≡ self.now.taken }
    {
        self.taken
    }

    /// Asks for a piece, if all bytes are used up. Only at the end is none pending after that.
    fn refill<S: Source>(&mut self, source: &mut S) -> Result<(), Failed>
        ensures bytes { Keeps (unread self.old.pending (S.left source.old)) (unread self.new.pending (S.left source.new)) }
        ensures end { OnOk result (self.new.pending ≡ [] → IsAtEnd (unread self.new.pending (S.left source.new))) }
        ensures taken { TakesOn self.old.taken self.new.taken (S.left source.old) (S.left source.new) }
        ensures cause { HasCause (S.faults source.old) (S.faults source.new) result }
    {
        if self.at < self.filled {
            return Ok(());
        }
        let count = source.read(&mut self.buffer)?;
        self.at = 0;
        self.filled = count;
        self.taken = self.taken.saturating_add(count as u64);
        Ok(())
    }

    /// The next bytes, as many as are wanted, or all that are left where those are fewer.
    pub fn take<S: Source>(
        &mut self,
        alloc: Global,
        source: &mut S,
        wanted: usize,
    ) -> Result<Vec<u8>, Stop>
        ensures bytes { IfOk result (λ bytes. Consumes (unread self.old.pending (S.left source.old)) (unread self.new.pending (S.left source.new)) bytes.items) }
        ensures count { IfOk result (λ bytes. length bytes.items ≤ wanted) }
        ensures short { IfOk result (λ bytes. length bytes.items < wanted → IsAtEnd (unread self.new.pending (S.left source.new))) }
        ensures fits { IfOk result (λ bytes. (k : ℕ) → slice_index bytes.items k < 256) }
        ensures err { OnErr result (ReadsOn (unread self.old.pending (S.left source.old)) (unread self.new.pending (S.left source.new))) }
        ensures taken { TakesOn self.old.taken self.new.taken (S.left source.old) (S.left source.new) }
        ensures later { S.faults source.old ≤ S.faults source.new }
        ensures read { result ≡ Err Stop.Read → Rose (S.faults source.old) (S.faults source.new) }
    {
        let mut bytes = Vec::new(alloc);
        self.take_into(source, wanted, &mut bytes)?;
        Ok(bytes)
    }

    /// The same, with the bytes in place of those that a buffer had. After an error it holds what was read.
    pub fn take_into<S: Source>(
        &mut self,
        source: &mut S,
        wanted: usize,
        bytes: &mut Vec<u8>,
    ) -> Result<(), Stop>
        ensures bytes { OnOk result (Consumes (unread self.old.pending (S.left source.old)) (unread self.new.pending (S.left source.new)) bytes.new.items) }
        ensures count { OnOk result (length bytes.new.items ≤ wanted) }
        ensures short { OnOk result (length bytes.new.items < wanted → IsAtEnd (unread self.new.pending (S.left source.new))) }
        ensures fits { OnOk result ((k : ℕ) → slice_index bytes.new.items k < 256) }
        ensures err { OnErr result (ReadsOn (unread self.old.pending (S.left source.old)) (unread self.new.pending (S.left source.new))) }
        ensures taken { TakesOn self.old.taken self.new.taken (S.left source.old) (S.left source.new) }
        ensures later { S.faults source.old ≤ S.faults source.new }
        ensures read { result ≡ Err Stop.Read → Rose (S.faults source.old) (S.faults source.new) }
    {
        let _ = &self.taken;
        bytes.clear();
        bytes.reserve_exact(wanted)?;
        'bytes: while bytes.len() < wanted {
            match self.refill(source) {
                Ok(()) => {}
                Err(_) => return Err(Stop::Read),
            }
            if self.is_used_up() {
                return Ok(());
            }
            self.give(bytes, wanted);
        }
        Ok(())
    }

    fn is_used_up(&self) -> bool
        ensures { IsTrue result ↔ (self.now.pending ≡ []) }
    {
        self.at == self.filled
    }

    /// Moves pending bytes to the end of others, until these are as many as are wanted or none is left.
    fn give(&mut self, bytes: &mut Vec<u8>, wanted: usize)
        requires some { self.old.pending ≢ [] }
        requires more { vec_len bytes.old < wanted }
        requires room { wanted ≤ vec_capacity bytes.old }
        ensures moved { bytes.new.items ++ self.new.pending ≡ bytes.old.items ++ self.old.pending }
        ensures grows { vec_len bytes.old < vec_len bytes.new }
        ensures within { vec_len bytes.new ≤ wanted }
        ensures room { wanted ≤ vec_capacity bytes.new }
        ensures taken { self.new.taken ≡ self.old.taken }
        ensures fits { (k : ℕ) → slice_index bytes.new.items k < 256 }
    {
        let count = (wanted - bytes.len()).min(self.filled - self.at);
        let from = self.at;
        put_bytes(&self.buffer[from..from + count], bytes);
        self.at += count;
    }
}
