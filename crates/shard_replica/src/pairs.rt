//! The index of a replica's own list.

ghost use Rattle.std.specs.Prelude.{◌≡◌, ℕ, ◌+◌, ◌<◌, ◌≤◌, ◌==◌, ◌&&◌, [], length, Some, IfOk, if◌then◌else◌};
ghost use Rattle.log_model.specs.Pairs.{greater};
ghost use Rattle.shard_replica.specs.Index.{Index, offset_in, number_in, last_in};

use indexmap::IndexMap;
use log_base::{Client, Memory, Number};
use std::alloc::Global;
use std::marker::Model;

/// How many entries a list may have.
pub(crate) const LIST_LIMIT: u32 = 16_384;

/// A client, and a number that it gave to an append.
#[derive(Clone, Copy, Debug, PartialEq, Eq, Hash)]
pub struct Pair {
    pub client: Client,
    pub number: Number,
}

/// Where each pair stands in a list, and the greatest number of each client, in order of storing. It
/// has room for a whole list from the first, so that noting an entry takes no memory.
#[derive(Drop)]
pub struct Pairs {
    offsets: IndexMap<Pair, u32>,
    lasts: IndexMap<Client, Number>,
}

impl Model for Pairs {
    ghost use Rattle.std.specs.Prelude.{length};
    ghost use Rattle.indexmap.specs.IndexMap.{spare};
    ghost use Rattle.shard_replica.specs.Index.{Index, HasRoom};

    ghost Value = { Index };

    ghost view = { λ p. record { offsets = p.offsets.entries; lasts = p.lasts.entries } };

    ghost invariant = { λ p. HasRoom (length p.offsets.entries) (spare p.offsets) × HasRoom (length p.lasts.entries) (spare p.lasts) };
}

impl Pairs {
    /// No pair yet.
    pub fn new(alloc: Global) -> Result<Pairs, Memory>
        ensures { IfOk result (λ pairs. pairs ≡ record { offsets = []; lasts = [] }) }
    {
        let offsets = IndexMap::with_capacity(alloc, LIST_LIMIT as usize)?;
        let lasts = IndexMap::with_capacity(alloc, LIST_LIMIT as usize)?;
        Ok(Pairs { offsets, lasts })
    }

    /// The offset of a pair, the last one that was noted.
    pub fn offset(&self, client: Client, number: Number) -> Option<u32>
        ensures { result ≡ offset_in self.now client.0 number.0 }
    {
        self.offsets.get(&Pair { client, number }).copied()
    }

    /// The greatest number of a client.
    pub fn last(&self, client: Client) -> Option<Number>
        ensures { result ≡ number_in self.now client.0 }
    {
        self.lasts.get(&client).copied()
    }

    /// Notes the entry at an offset.
    pub fn note(&mut self, client: Client, number: Number, offset: u32)
        requires offsets { length self.old.offsets < 16384 }
        requires lasts { length self.old.lasts < 16384 }
        ensures offset { (c n : ℕ) → offset_in self.new c n
            ≡ (if (client.0 == c) && (number.0 == n) then Some offset else offset_in self.old c n) }
        ensures last { (c : ℕ) → last_in self.new c
            ≡ (if client.0 == c then Some (greater number.0 (last_in self.old c)) else last_in self.old c) }
        ensures few_offsets { length self.new.offsets ≤ length self.old.offsets + 1 }
        ensures few_lasts { length self.new.lasts ≤ length self.old.lasts + 1 }
    {
        self.note_offset(client, number, offset);
        self.note_number(client, number);
    }

    fn note_offset(&mut self, client: Client, number: Number, offset: u32)
        requires { length self.old.offsets < 16384 }
        ensures offset { (c n : ℕ) → offset_in self.new c n
            ≡ (if (client.0 == c) && (number.0 == n) then Some offset else offset_in self.old c n) }
        ensures lasts { self.new.lasts ≡ self.old.lasts }
        ensures few { length self.new.offsets ≤ length self.old.offsets + 1 }
    {
        let pair = Pair { client, number };
        if let Some(noted) = self.offsets.get_mut(&pair) {
            *noted = offset;
            return;
        }
        self.offsets.insert(pair, offset).unwrap();
    }

    fn note_number(&mut self, client: Client, number: Number)
        requires { length self.old.lasts < 16384 }
        ensures last { (c : ℕ) → last_in self.new c
            ≡ (if client.0 == c then Some (greater number.0 (last_in self.old c)) else last_in self.old c) }
        ensures offsets { self.new.offsets ≡ self.old.offsets }
        ensures few { length self.new.lasts ≤ length self.old.lasts + 1 }
    {
        if let Some(last) = self.lasts.get_mut(&client) {
            *last = Number(number.0.max(last.0));
            return;
        }
        self.lasts.insert(client, number).unwrap();
    }

    /// Forgets all pairs.
    pub fn clear(&mut self)
        ensures { self.new ≡ record { offsets = []; lasts = [] } }
    {
        self.offsets.clear();
        self.lasts.clear();
    }
}
