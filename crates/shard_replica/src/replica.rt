//! A replica of a shard.

ghost use Rattle.std.specs.Prelude.{◌≡◌, ◌≢◌, ℕ, ◌+◌, ◌*◌, ◌<◌, ◌≤◌, min, length, [], map, Some, None, IfOk, IfErr, OnOk, slice_get, slice_index};
ghost use Rattle.std.specs.List.{All};
ghost use Rattle.std.specs.Option.{option_map};
ghost use Rattle.log_base.specs.Shape.{shape};
ghost use Rattle.log_model.specs.Chain.{covered_of};
ghost use Rattle.log_model.specs.Learning.{learned, known_after};
ghost use Rattle.log_model.specs.Pairs.{held as held_in, is_trimmed as is_trimmed_in};
ghost use Rattle.log_model.specs.Storage.{IsSpelled, entry_in, position_of};
ghost use Rattle.cut_chain.specs.Known.{IsFor};
ghost use Rattle.cut_chain.specs.Runs.{to_position};
ghost use Rattle.shard_replica.specs.Answers.{learned_so};
ghost use Rattle.shard_replica.specs.Lists.{HoldsRecords, HasRoomFor, segments_of, media_of, segment_at, but_room};
ghost use Rattle.shard_replica.specs.Replica.{Replicated, member_of, own_entries, lists_of, at_first, entry_size};

use crate::answers::Learned;
use crate::indexed::IndexedLists;
use cut_chain::{Chain, Places};
use log_base::{Client, Config, Memory, Number, Place, Position, Replica, Shard, Slot};
use peer_copy::CopyState;
use record_frame::Value;
use segment_journal::Journal;
use std::alloc::Global;
use std::marker::Model;

mod asking;
mod copying;
mod reading;
mod reopening;
mod submitting;

/// The greatest length of a record.
const RECORD_LIMIT: u32 = 65_535;

/// How many bytes an entry has beside its record.
const ENTRY_BYTES: u32 = 15;

/// A replica of a shard, over a journal for each of the shard's segments.
#[derive(Drop)]
pub struct ShardReplica<J: Journal, P: Places> {
    config: Config,
    shard: Shard,
    own: Replica,
    lists: IndexedLists<J>,
    chain: Chain<P>,
    copying: CopyState,
    spelling: Vec<u8>,
}

impl<J: Journal, P: Places> Model for ShardReplica<J, P> {
    ghost use Rattle.std.specs.Prelude.{vec_capacity};
    ghost use Rattle.log_base.specs.Shape.{shape};
    ghost use Rattle.shard_replica.specs.Replica.{Replicated, IsReplica, knowledge_in};

    ghost Value = { Replicated };

    ghost view = { λ r. record {
      state = record {
        config = shape r.config;
        shard = r.shard.0;
        own = r.own.0;
        segments = r.lists.lists.segments;
        known = knowledge_in r.chain.known;
        copying = r.copying;
      };
      media = r.lists.lists.media;
      last_reload = r.lists.lists.last_reload;
      runs = r.chain.room;
      spelling = vec_capacity r.spelling;
    } };

    ghost invariant = { λ r. IsReplica (shape r.config) r.shard.0 r.own.0 r.lists r.chain.known r.copying };
}

impl<J: Journal, P: Places> ShardReplica<J, P> {
    /// A replica over its journals, which knows no value yet. It makes room for the index of a whole
    /// list, so that no later call needs memory for it.
    pub fn new(
        alloc: Global,
        config: Config,
        shard: Shard,
        replica: Replica,
        journals: Vec<J>,
        places: P,
    ) -> Result<ShardReplica<J, P>, (Memory, Vec<J>)>
        requires shard { shard.0 < (shape config).shards }
        requires replica { replica.0 < (shape config).replicas }
        requires journals { length journals.items ≡ (shape config).replicas }
        requires records { All (λ j. HoldsRecords (J.state j)) journals.items }
        requires places { P.places places ≡ [] }
        ensures state { IfOk result (λ r. r.state ≡ at_first (shape config) shard.0 replica.0 (segments_of J.state journals.items)) }
        ensures media { IfOk result (λ r. r.media ≡ media_of J.state J.faults J.keeps_synced J.turns journals.items) }
        ensures reading { IfOk result (λ r. r.last_reload ≡ None) }
        ensures err { IfErr result (λ e. e.1 ≡ journals) }
    {
        let chain = match Chain::new(alloc, config, places) {
            Ok(chain) => chain,
            Err(memory) => return Err((memory, journals)),
        };
        let lists = match IndexedLists::new(alloc, journals, replica) {
            Ok(lists) => lists,
            Err(refused) => return Err(refused),
        };
        let copying = CopyState::new(&config, replica);
        Ok(ShardReplica {
            config,
            shard,
            own: replica,
            lists,
            chain,
            copying,
            spelling: Vec::new(alloc),
        })
    }

    /// Makes room for one submit of a record of at most so many bytes, for one copy of an entry with
    /// such a record, and for one learn.
    pub fn ready(&mut self, bytes: u32) -> Result<(), Memory>
        ensures state { self.new.state ≡ self.old.state }
        ensures media { map but_room self.new.media ≡ map but_room self.old.media }
        ensures reading { self.new.last_reload ≡ self.old.last_reload }
        ensures payload { OnOk result (HasRoomFor (entry_size (min bytes 65535)) self.new.media) }
        ensures spelling { OnOk result (entry_size (min bytes 65535) ≤ self.new.spelling) }
        ensures count { OnOk result (length self.new.media ≡ self.new.state.config.replicas) }
        ensures runs { OnOk result (self.new.state.config.replicas * self.new.state.config.shards ≤ self.new.runs) }
    {
        let size = bytes.min(RECORD_LIMIT) + ENTRY_BYTES;
        self.spelling.clear();
        self.spelling.reserve(size as usize)?;
        self.lists.ready(size)?;
        self.chain.ready()?;
        Ok(())
    }

    /// Takes the decided value of a slot, where it is the next one.
    #[tactic(auto, unfolding(log_model::specs::Learning::known_after))]
    pub fn learn(&mut self, slot: Slot, value: &Value) -> Learned
        requires slot { slot.0 < 16384 }
        requires value { IsFor self.old.state.config value.now }
        requires room { self.old.state.config.replicas * self.old.state.config.shards ≤ self.old.runs }
        ensures answer { learned_so result ≡ learned self.old.state.known slot.0 }
        ensures state { self.new.state ≡ record self.old.state { known = known_after (member_of self.old.state) self.old.state.known slot.0 value.now } }
        ensures media { self.new.media ≡ self.old.media }
        ensures reading { self.new.last_reload ≡ self.old.last_reload }
        ensures spelling { self.new.spelling ≡ self.old.spelling }
    {
        let next = self.chain.len();
        if slot.0 < next {
            return Learned::Have;
        }
        if slot.0 > next {
            return Learned::Gap { next: Slot(next) };
        }
        self.chain.apply(value);
        Learned::Added
    }

    /// The length of a list.
    pub fn len(&self, segment: Replica) -> u32
        requires { segment.0 < self.now.state.config.replicas }
        ensures len { result ≡ length (segment_at self.now.state.segments segment.0).entries }
        ensures few { result ≤ 16384 }
    {
        self.lists.len(segment)
    }

    /// How many values are known.
    pub fn known(&self) -> u32
        ensures { result ≡ self.now.state.known.count }
    {
        self.chain.len()
    }

    /// The known end of the log.
    pub fn end(&self) -> Position
        ensures { result.0 ≡ self.now.state.known.chain.end }
    {
        self.chain.end()
    }

    /// The known mark, below which positions are given up.
    pub fn trim(&self) -> Position
        ensures { result.0 ≡ self.now.state.known.chain.mark }
    {
        self.chain.trim()
    }

    /// The spelling of the entry at an offset of a list.
    pub fn payload(&self, segment: Replica, offset: u32) -> &[u8]
        requires segment { segment.0 < self.now.state.config.replicas }
        requires offset { offset < length (segment_at self.now.state.segments segment.0).entries }
        ensures entry { slice_get (segment_at self.now.state.segments segment.0).entries offset ≡ Some (entry_in result.now) }
        ensures spelled { IsSpelled result.now }
    {
        self.lists.payload(segment, offset)
    }

    // The position of an offset of the own list.
    fn position(&self, offset: u32) -> Option<Position>
        ensures { result ≡ option_map to_position (position_of (member_of self.now.state) self.now.state.known offset) }
    {
        self.chain.position(Place {
            shard: self.shard,
            segment: self.own,
            offset,
        })
    }

    // The known covered length of the own list.
    fn covered(&self) -> u32
        ensures { result ≡ covered_of self.now.state.known.chain self.now.state.shard self.now.state.own }
    {
        self.chain.covered(self.shard, self.own)
    }

    // Whether an offset of the own list is trimmed.
    fn is_trimmed(&self, offset: u32) -> bool
        ensures { result ≡ is_trimmed_in (member_of self.now.state) self.now.state.known offset }
    {
        if offset >= self.covered() {
            return false;
        }
        match self.position(offset) {
            Some(position) => position.0 < self.chain.trim().0,
            None => false,
        }
    }

    // The offset of a pair that is stored and not trimmed.
    #[tactic(auto, unfolding(log_model::specs::Pairs::held))]
    fn held(&self, client: Client, number: Number) -> Option<u32>
        ensures { result ≡ held_in (member_of self.now.state) (own_entries self.now.state) self.now.state.known client.0 number.0 }
    {
        let Some(offset) = self.lists.offset(client, number) else {
            return None;
        };
        if self.is_trimmed(offset) {
            return None;
        }
        Some(offset)
    }
}
