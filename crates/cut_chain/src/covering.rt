//! A cut, made over the parts of a chain: each length that it raises gives a run of places.

ghost use Rattle.std.specs.Prelude.{◌≡◌, ◌≢◌, ℕ, ◌<◌, ◌≤◌, ◌+◌, ◌-◌, ◌*◌, ◌++◌, max, false, length, slice_index, slice_set};
ghost use Rattle.std.specs.List.{All};
ghost use Rattle.log_base.specs.Shape.{shape};
ghost use Rattle.log_model.specs.Places.{places_from};
ghost use Rattle.log_model.specs.Lookup.{segment_index};
ghost use Rattle.log_model.specs.Chain.{raised, cut_shard, covered_in_segments, covered_in_shard, covered_in_shards};
ghost use Rattle.shard_registry.specs.Order.{number, is_listed};
ghost use Rattle.cut_chain.specs.Covering.{shards_of, shard_state, standing_of, lengths_of, cut_shards, AreApart, AreCovered, AreShort};

use crate::{Places, Run};
use log_base::{Config, Replica, Shard};
use shard_registry::{Registry, State};

// Covers what a cut newly covers, in order of addition of the shards, then segment, then offset, and
// says how many places these are.
pub(crate) fn cover<P: Places>(
    config: &Config,
    registry: &Registry,
    lengths: &[u32; 32],
    covered: &mut [u32; 32],
    places: &mut P,
) -> u64
    requires in_range { All (λ entry. number entry < (shape config.now).shards) registry.now }
    requires apart { AreApart registry.now }
    requires short { AreShort lengths.now }
    requires covered { AreCovered (shape config.now).replicas covered.old (P.places places.old) }
    requires room { (shape config.now).replicas * (shape config.now).shards ≤ P.room places.old }
    ensures places { P.places places.new ≡ P.places places.old
        ++ covered_in_shards (shape config.now).replicas lengths.now (shards_of (shape config.now).replicas covered.old registry.now) }
    ensures covered { shards_of (shape config.now).replicas covered.new registry.now
        ≡ cut_shards (shape config.now).replicas lengths.now (shards_of (shape config.now).replicas covered.old registry.now) }
    ensures unlisted { (shard : ℕ) → is_listed registry.now shard ≡ false
        → lengths_of (shape config.now).replicas covered.new shard ≡ lengths_of (shape config.now).replicas covered.old shard }
    ensures count { length (P.places places.new) ≡ length (P.places places.old) + result }
    ensures small { result ≤ 655360 }
{
    let mut count: u64 = 0;
    for index in 0..registry.count() {
        let shard = registry.at(index);
        let state = registry.state(shard).unwrap();
        count += cover_in_state(config, shard, state, lengths, covered, places);
    }
    count
}

// Covers what a cut newly covers in a shard of a state: nothing where it is finalised.
fn cover_in_state<P: Places>(
    config: &Config,
    shard: Shard,
    state: State,
    lengths: &[u32; 32],
    covered: &mut [u32; 32],
    places: &mut P,
) -> u64
    requires shard { shard.0 < (shape config.now).shards }
    requires short { AreShort lengths.now }
    requires covered { AreCovered (shape config.now).replicas covered.old (P.places places.old) }
    requires room { (shape config.now).replicas ≤ P.room places.old }
    ensures places { P.places places.new ≡ P.places places.old
        ++ covered_in_shard (shape config.now).replicas lengths.now (standing_of state) (shard_state (shape config.now).replicas covered.old (shard, state)) }
    ensures raised { shard_state (shape config.now).replicas covered.new (shard, state)
        ≡ cut_shard (shape config.now).replicas lengths.now (standing_of state) (shard_state (shape config.now).replicas covered.old (shard, state)) }
    ensures others { (other : ℕ) → other ≢ shard.0
        → lengths_of (shape config.now).replicas covered.new other ≡ lengths_of (shape config.now).replicas covered.old other }
    ensures covered { AreCovered (shape config.now).replicas covered.new (P.places places.new) }
    ensures room { P.room places.old ≤ P.room places.new + (shape config.now).replicas }
    ensures count { length (P.places places.new) ≡ length (P.places places.old) + result }
    ensures small { result ≤ 81920 }
{
    match state {
        State::Live => return cover_shard(config, shard, lengths, covered, places),
        State::Finalised => return 0,
    }
}

// Covers what a cut newly covers in a live shard.
fn cover_shard<P: Places>(
    config: &Config,
    shard: Shard,
    lengths: &[u32; 32],
    covered: &mut [u32; 32],
    places: &mut P,
) -> u64
    requires shard { shard.0 < (shape config.now).shards }
    requires short { AreShort lengths.now }
    requires covered { AreCovered (shape config.now).replicas covered.old (P.places places.old) }
    requires room { (shape config.now).replicas ≤ P.room places.old }
    ensures places { P.places places.new ≡ P.places places.old
        ++ covered_in_segments shard.0 0 lengths.now (shard.0 * (shape config.now).replicas) (lengths_of (shape config.now).replicas covered.old shard.0) }
    ensures raised { lengths_of (shape config.now).replicas covered.new shard.0
        ≡ raised lengths.now (shard.0 * (shape config.now).replicas) (lengths_of (shape config.now).replicas covered.old shard.0) }
    ensures others { (other : ℕ) → other ≢ shard.0
        → lengths_of (shape config.now).replicas covered.new other ≡ lengths_of (shape config.now).replicas covered.old other }
    ensures covered { AreCovered (shape config.now).replicas covered.new (P.places places.new) }
    ensures room { P.room places.old ≤ P.room places.new + (shape config.now).replicas }
    ensures count { length (P.places places.new) ≡ length (P.places places.old) + result }
    ensures small { result ≤ 81920 }
{
    let mut count: u64 = 0;
    for segment in 0..config.replicas() {
        count += u64::from(cover_segment(
            config,
            shard,
            Replica(segment),
            lengths,
            covered,
            places,
        ));
    }
    count
}

// Covers what a cut newly covers in a segment of a live shard.
fn cover_segment<P: Places>(
    config: &Config,
    shard: Shard,
    segment: Replica,
    lengths: &[u32; 32],
    covered: &mut [u32; 32],
    places: &mut P,
) -> u32
    requires shard { shard.0 < (shape config.now).shards }
    requires segment { segment.0 < (shape config.now).replicas }
    requires short { AreShort lengths.now }
    requires covered { AreCovered (shape config.now).replicas covered.old (P.places places.old) }
    requires room { 0 < P.room places.old }
    ensures places { let at = segment_index (shape config.now).replicas shard.0 segment.0 in
        P.places places.new ≡ P.places places.old
        ++ places_from shard.0 segment.0 (slice_index covered.old at) (slice_index lengths.now at - slice_index covered.old at) }
    ensures raised { let at = segment_index (shape config.now).replicas shard.0 segment.0 in
        covered.new ≡ slice_set covered.old at (max (slice_index covered.old at) (slice_index lengths.now at)) }
    ensures covered { AreCovered (shape config.now).replicas covered.new (P.places places.new) }
    ensures room { P.room places.old ≤ P.room places.new + 1 }
    ensures count { let at = segment_index (shape config.now).replicas shard.0 segment.0 in
        result ≡ slice_index lengths.now at - slice_index covered.old at }
    ensures small { result ≤ 16384 }
{
    let at = index_of(config, shard, segment);
    let first = covered[at];
    let length = lengths[at];
    if length <= first {
        return 0;
    }
    let count = length - first;
    places.add(Run {
        shard,
        segment,
        first,
        count,
    });
    covered[at] = length;
    count
}

// Where the length of a segment stands in a list of lengths.
pub(crate) fn index_of(config: &Config, shard: Shard, segment: Replica) -> usize
    requires shard { shard.0 < (shape config.now).shards }
    requires segment { segment.0 < (shape config.now).replicas }
    ensures index { result ≡ segment_index (shape config.now).replicas shard.0 segment.0 }
    ensures within { result < 32 }
{
    usize::from(shard.0) * usize::from(config.replicas()) + usize::from(segment.0)
}
