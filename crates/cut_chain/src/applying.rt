//! The chain.

ghost use Rattle.std.specs.Prelude.{◌≡◌, ◌<◌, ◌≤◌, ◌*◌, [], slice_get, IsTrue, IfOk, OnOk};
ghost use Rattle.std.specs.Option.{option_map};
ghost use Rattle.log_base.specs.Shape.{shape};
ghost use Rattle.record_frame.specs.declared.values.Value.TheVariants.{Noop, Cut, Add, Finalise, Trim};
ghost use Rattle.log_model.specs.Lookup.{position_from};
ghost use Rattle.log_model.specs.Chain.{state_in, covered_of};
ghost use Rattle.shard_registry.specs.Order.{state_of};
ghost use Rattle.cut_chain.specs.Runs.{to_position};
ghost use Rattle.cut_chain.specs.Known.{known_of, learned, IsFor};

use crate::Places;
use crate::covering::{cover, index_of};
use log_base::{Config, Memory, Place, Position, Replica, Shard};
use record_frame::{Lengths, Value};
use shard_registry::{Registry, State};
use std::alloc::Global;
use std::marker::Model;

/// The chain of the values that were applied, with their places.
#[derive(Drop)]
pub struct Chain<P: Places> {
    config: Config,
    registry: Registry,
    // The length of segment j of shard s stands at s times the replicas of a shard, plus j.
    covered: [u32; 32],
    places: P,
    end: u64,
    mark: u64,
    count: u32,
}

impl<P: Places> Model for Chain<P> {
    ghost use Rattle.log_base.specs.Shape.{shape};
    ghost use Rattle.cut_chain.specs.Known.{Chained};
    ghost use Rattle.cut_chain.specs.Kept.{known_from, IsKept};

    ghost Value = { Chained };

    ghost view = { λ c. record {
      known = known_from (shape c.config) c.registry c.covered (P.places c.places) c.end c.mark c.count;
      room = P.room c.places;
    } };

    ghost invariant = { λ c. IsKept (shape c.config) c.registry c.covered (P.places c.places) c.end c.mark c.count };
}

impl<P: Places> Chain<P> {
    /// The chain of no values, over empty places. Where memory runs out, these are dropped.
    pub fn new(alloc: Global, config: Config, places: P) -> Result<Chain<P>, Memory>
        requires { P.places places ≡ [] }
        ensures { IfOk result (λ chain. chain.known ≡ known_of (shape config) []) }
    {
        let registry = Registry::new(alloc)?;
        Ok(Chain {
            config,
            registry,
            covered: [0; 32],
            places,
            end: 0,
            mark: 0,
            count: 0,
        })
    }

    /// Makes room for one value.
    pub fn ready(&mut self) -> Result<(), Memory>
        ensures known { self.new.known ≡ self.old.known }
        ensures room { OnOk result (self.new.known.config.replicas * self.new.known.config.shards ≤ self.new.room) }
    {
        let runs = u32::from(self.config.replicas()) * u32::from(self.config.shards());
        self.places.ready(runs)
    }

    /// Applies the next value, in time that does not grow with the number of values.
    pub fn apply(&mut self, value: &Value)
        requires value { IsFor self.old.known.config value.now }
        requires count { self.old.known.count < 16384 }
        requires room { self.old.known.config.replicas * self.old.known.config.shards ≤ self.old.room }
        ensures { self.new.known ≡ learned self.old.known value.now }
    {
        match value {
            Value::Noop => self.count_one(),
            Value::Cut(lengths) => self.cut(lengths),
            Value::Add(shard) => self.add(*shard),
            Value::Finalise(shard) => self.finalise(*shard),
            Value::Trim(position) => self.trim_to(*position),
        }
    }

    fn count_one(&mut self)
        requires count { self.old.known.count < 16384 }
        ensures { self.new.known ≡ learned self.old.known Noop }
    {
        self.count += 1;
    }

    fn cut(&mut self, lengths: &Lengths)
        requires value { IsFor self.old.known.config (Cut lengths.now) }
        requires count { self.old.known.count < 16384 }
        requires room { self.old.known.config.replicas * self.old.known.config.shards ≤ self.old.room }
        ensures { self.new.known ≡ learned self.old.known (Cut lengths.now) }
    {
        self.end += cover(
            &self.config,
            &self.registry,
            &lengths.length,
            &mut self.covered,
            &mut self.places,
        );
        self.count += 1;
    }

    fn add(&mut self, shard: Shard)
        requires value { shard.0 < self.old.known.config.shards }
        requires count { self.old.known.count < 16384 }
        ensures { self.new.known ≡ learned self.old.known (Add shard) }
    {
        let _ = self.registry.add(shard);
        self.count += 1;
    }

    fn finalise(&mut self, shard: Shard)
        requires value { shard.0 < self.old.known.config.shards }
        requires count { self.old.known.count < 16384 }
        ensures { self.new.known ≡ learned self.old.known (Finalise shard) }
    {
        let _ = self.registry.finalise(shard);
        self.count += 1;
    }

    fn trim_to(&mut self, position: Position)
        requires count { self.old.known.count < 16384 }
        ensures { self.new.known ≡ learned self.old.known (Trim position) }
    {
        self.mark = self.mark.max(position.0.min(self.end));
        self.count += 1;
    }

    /// How many values were applied.
    pub fn len(&self) -> u32
        ensures { result ≡ self.now.known.count }
    {
        self.count
    }

    /// The position after the last.
    pub fn end(&self) -> Position
        ensures { result ≡ to_position self.now.known.chain.end }
    {
        Position(self.end)
    }

    /// The mark below which positions are given up.
    pub fn trim(&self) -> Position
        ensures { result ≡ to_position self.now.known.chain.mark }
    {
        Position(self.mark)
    }

    /// The covered length of a segment.
    pub fn covered(&self, shard: Shard, segment: Replica) -> u32
        requires shard { shard.0 < self.now.known.config.shards }
        requires segment { segment.0 < self.now.known.config.replicas }
        ensures { result ≡ covered_of self.now.known.chain shard.0 segment.0 }
    {
        self.covered[index_of(&self.config, shard, segment)]
    }

    /// The state of a shard, where it was added.
    pub fn state(&self, shard: Shard) -> Option<State>
        requires { shard.0 < self.now.known.config.shards }
        ensures { result ≡ option_map (λ found. state_of found.standing) (state_in self.now.known.chain.shards shard.0) }
    {
        self.registry.state(shard)
    }

    /// The place at a position below the end.
    pub fn place(&self, position: Position) -> Option<Place>
        ensures { result ≡ slice_get self.now.known.places position.0 }
    {
        self.places.place(position)
    }

    /// The position of a place, where a cut covered it.
    pub fn position(&self, place: Place) -> Option<Position>
        ensures { result ≡ option_map to_position (position_from 0 self.now.known.places place) }
    {
        if self.is_past(place) {
            return None;
        }
        self.places.position(place)
    }

    // Whether the place is of a segment of the config, past the covered length.
    fn is_past(&self, place: Place) -> bool
        ensures { IsTrue result → position_from 0 self.now.known.places place ≡ None }
    {
        if place.shard.0 >= u16::from(self.config.shards())
            || place.segment.0 >= self.config.replicas()
        {
            return false;
        }
        place.offset >= self.covered[index_of(&self.config, place.shard, place.segment)]
    }

    /// Forgets all values.
    pub fn clear(&mut self)
        ensures { self.new.known ≡ known_of self.old.known.config [] }
    {
        self.registry.clear();
        self.covered = [0; 32];
        self.places.clear();
        self.end = 0;
        self.mark = 0;
        self.count = 0;
    }
}
