//! Payloads of orderers.

ghost use Rattle.std.specs.Prelude.{◌≡◌, ◌↔◌, ◌<◌, ◌≤◌, ℕ, IsTrue, MatchOption, length, slice_index};
ghost use Rattle.log_base.specs.Shape.{shape};
ghost use Rattle.log_model.specs.Lookup.{segment_index};
ghost use Rattle.record_frame.specs.declared.values.Value.TheVariants.{Cut};
ghost use Rattle.paxos_acceptor.specs.Listed.{payload_so};
ghost use Rattle.paxos_model.specs.Payloads.{IsSpelled, payload_in};
ghost use Rattle.node_model.specs.Sound.{IsKeptCut, IsKeptValue, IsKeptVote, IsSoundPromise, payloads_on};
ghost use Rattle.kept_lists.specs.Covering.{CoversSegment, CoversShard};

use crate::disks::segment_disk_of;
use crate::lists::Lists;
use log_base::Config;
use paxos_acceptor::{Entry, read_entry};
use record_frame::{Lengths, Value};

/// How many payloads an orderer may have kept.
const ORDERER_LIMIT: usize = 16_000_000;

/// Whether an orderer may have kept these bytes at an offset.
pub fn is_promise(config: &Config, lists: &Lists, offset: usize, payload: &[u8]) -> bool
    ensures { IsTrue result ↔ IsSoundPromise (shape config.now) (payloads_on lists.now.kept.now) offset payload.now }
{
    if offset >= ORDERER_LIMIT {
        return false;
    }
    match spelled_entry(payload) {
        Some(entry) => return is_kept_vote(config, lists, &entry),
        None => return false,
    }
}

// The promise or vote that all of the bytes spell.
fn spelled_entry(payload: &[u8]) -> Option<Entry>
    ensures { MatchOption result (IsSpelled payload.now → ⊥) (λ entry. IsSpelled payload.now × (payload_so entry ≡ payload_in payload.now)) }
{
    read_entry(payload)
}

// Whether the lists hold what a vote speaks of.
fn is_kept_vote(config: &Config, lists: &Lists, entry: &Entry) -> bool
    ensures { IsTrue result ↔ IsKeptVote (shape config.now) (payloads_on lists.now.kept.now) (payload_so entry.now) }
{
    match entry {
        Entry::Promise(_) => return true,
        Entry::Vote(vote) => return is_kept_value(config, lists, &vote.value),
    }
}

// Whether the lists hold what a value speaks of, and its shard is one of the cluster.
fn is_kept_value(config: &Config, lists: &Lists, value: &Value) -> bool
    ensures { IsTrue result ↔ IsKeptValue (shape config.now) (payloads_on lists.now.kept.now) value.now }
{
    match value {
        Value::Noop => return true,
        Value::Cut(lengths) => return is_kept_cut(config, lists, lengths),
        Value::Add(shard) => return shard.0 < u16::from(config.shards()),
        Value::Finalise(shard) => return shard.0 < u16::from(config.shards()),
        Value::Trim(_) => return true,
    }
}

// Whether a cut has a length for each segment, which each replica of its shard holds.
fn is_kept_cut(config: &Config, lists: &Lists, lengths: &Lengths) -> bool
    ensures { IsTrue result ↔ IsKeptValue (shape config.now) (payloads_on lists.now.kept.now) (Cut lengths.now) }
{
    if lengths.count != config.replicas() * config.shards() {
        return false;
    }
    covers(config, lists, &lengths.length)
}

// Whether each replica holds the lengths of each segment.
fn covers(config: &Config, lists: &Lists, lengths: &[u32; 32]) -> bool
    ensures { IsTrue result ↔ IsKeptCut (shape config.now) (payloads_on lists.now.kept.now) lengths.now }
{
    for shard in 0..config.shards() {
        if !covers_shard(config, lists, shard, lengths) {
            return false;
        }
    }
    true
}

// Whether the replicas of a shard hold the lengths of its segments.
fn covers_shard(config: &Config, lists: &Lists, shard: u8, lengths: &[u32; 32]) -> bool
    requires { shard < (shape config.now).shards }
    ensures { IsTrue result ↔ CoversShard (shape config.now) (payloads_on lists.now.kept.now) shard lengths.now }
{
    for segment in 0..config.replicas() {
        let wanted = length_of(config, lengths, shard, segment);
        if !covers_segment(config, lists, shard, segment, wanted) {
            return false;
        }
    }
    true
}

// The length of a segment in a cut.
fn length_of(config: &Config, lengths: &[u32; 32], shard: u8, segment: u8) -> u32
    requires shard { shard < (shape config.now).shards }
    requires segment { segment < (shape config.now).replicas }
    ensures { result ≡ slice_index lengths.now (segment_index (shape config.now).replicas shard segment) }
{
    let index = shard * config.replicas() + segment;
    lengths[index as usize]
}

// Whether each replica of a shard holds so many entries of a segment.
fn covers_segment(config: &Config, lists: &Lists, shard: u8, segment: u8, wanted: u32) -> bool
    requires shard { shard < (shape config.now).shards }
    requires segment { segment < (shape config.now).replicas }
    ensures { IsTrue result ↔ CoversSegment (shape config.now) (payloads_on lists.now.kept.now) shard segment wanted }
{
    for replica in 0..config.replicas() {
        if lists.count(segment_disk_of(config, shard, replica, segment)) < wanted as usize {
            return false;
        }
    }
    true
}
