//! The registry.

ghost use Rattle.std.specs.Prelude.{◌≡◌, ℕ, ◌<◌, ◌≤◌, [], length, slice_get, IfOk, Some};
ghost use Rattle.std.specs.List.{All};
ghost use Rattle.std.specs.Option.{option_map};
ghost use Rattle.shard_registry.specs.declared.answers.State.TheVariants.{Finalised};
ghost use Rattle.shard_registry.specs.Order.{number, shard_in, is_listed, state_in_order, added, finalised, told_addition, told_end};

use crate::{Added, Ended, State};
use indexmap::IndexMap;
use log_base::{Memory, Shard};
use std::alloc::Global;
use std::marker::Model;

/// The shards that were added, seen as their order, each with its state. It has room for all eight
/// from the first.
#[derive(Drop)]
pub struct Registry {
    shards: IndexMap<Shard, State>,
}

impl Model for Registry {
    ghost use Rattle.indexmap.specs.IndexMap.{spare};
    ghost use Rattle.shard_registry.specs.Order.{Order};
    ghost use Rattle.shard_registry.specs.Room.{HasRoomForEight};

    ghost Value = { Order };

    ghost view = { λ r. r.shards.entries };

    ghost invariant = { λ r. HasRoomForEight r.shards.entries (spare r.shards) };
}

impl Registry {
    /// No shard yet, with room for eight.
    pub fn new(alloc: Global) -> Result<Registry, Memory>
        ensures { IfOk result (λ registry. registry ≡ []) }
    {
        let shards = IndexMap::with_capacity(alloc, 8)?;
        Ok(Registry { shards })
    }

    /// Puts a shard that is not there at the end of the order, live.
    pub fn add(&mut self, shard: Shard) -> Added
        requires { shard.0 < 8 }
        ensures order { self.new ≡ added self.old shard.0 }
        ensures answer { result ≡ told_addition (is_listed self.old shard.0) }
    {
        if self.shards.contains_key(&shard) {
            return Added::Have;
        }
        self.shards.insert(shard, State::Live).unwrap();
        Added::New
    }

    /// Finalises a shard that is there.
    pub fn finalise(&mut self, shard: Shard) -> Ended
        requires { shard.0 < 8 }
        ensures order { self.new ≡ finalised self.old shard.0 }
        ensures answer { result ≡ told_end (state_in_order self.old shard.0) }
    {
        let Some(state) = self.shards.get_mut(&shard) else {
            return Ended::NotThere;
        };
        end(state)
    }

    /// The state of a shard, where it was added.
    pub fn state(&self, shard: Shard) -> Option<State>
        requires { shard.0 < 8 }
        ensures { result ≡ state_in_order self.now shard.0 }
    {
        self.shards.get(&shard).copied()
    }

    /// How many shards were added.
    pub fn count(&self) -> usize
        ensures count { result ≡ length self.now }

        // Numbers below a bound are no more than the bound.
        ensures few { (most : ℕ) → All (λ entry. number entry < most) self.now → result ≤ most }
    {
        self.shards.len()
    }

    /// The shard at an index of the order.
    pub fn at(&self, index: usize) -> Shard
        requires { index < length self.now }
        ensures { option_map shard_in (slice_get self.now index) ≡ Some result }
    {
        *self.shards.get_index(index).unwrap().0
    }

    /// Takes all shards out. The room for eight stays.
    pub fn clear(&mut self)
        ensures { self.new ≡ [] }
    {
        self.shards.clear();
    }
}

// Finalises a state.
fn end(state: &mut State) -> Ended
    ensures ended { state.new ≡ Finalised }
    ensures answer { result ≡ told_end (Some state.old) }
{
    let answer = match *state {
        State::Live => Ended::New,
        State::Finalised => Ended::Have,
    };
    *state = State::Finalised;
    answer
}
