//! The first payload that breaks soundness.

ghost use Rattle.std.specs.Prelude.{◌≡◌, ◌↔◌, ◌<◌, ℕ, IsTrue, length};
ghost use Rattle.log_base.specs.Shape.{shape};
ghost use Rattle.history_frame.specs.Spelling.{DisksRise};
ghost use Rattle.node_table.specs.Numbering.{IsRole};
ghost use Rattle.node_model.specs.Sound.{BreaksFirst, IsBefore, IsSound, IsSoundAs, IsSoundEntry, IsSoundOne, payloads_on};

use crate::disks::segment_disk_of;
use crate::entries::is_entry_before;
use crate::lists::Lists;
use crate::promises::is_promise;
use history_frame::Kept;
use log_base::{Config, NodeId};
use node_table::{Role, nodes, role_of};

/// How many entries a segment may have.
const LIST_LIMIT: usize = 16_384;

/// How many disk numbers a node has.
const DISKS_OF_A_NODE: u32 = 8;

/// Whether kept lists are sound, or else which payload breaks it first.
#[derive(Clone, Copy, Debug, PartialEq, Eq)]
pub enum Sounding {
    /// None breaks it.
    Sound,
    /// This one does, and none before it.
    Breaks { index: usize },
}

/// Tells whether the payloads that disks kept may begin a run. It takes no memory.
pub fn sound(config: &Config, run: u32, kept: &[Kept]) -> Sounding
    requires { DisksRise 0 kept.now }
    ensures sound { (result ≡ Sounding.Sound) ↔ IsSound (shape config.now) run (payloads_on kept.now) }
    ensures breaks { (index : ℕ) → (result ≡ Sounding.Breaks index) ↔ BreaksFirst (shape config.now) run kept.now index }
{
    let lists = Lists::of(kept);
    for index in 0..kept.len() {
        if !is_sound_one(config, run, &lists, index) {
            return Sounding::Breaks { index };
        }
    }
    Sounding::Sound
}

// Whether the payload at an index does not break soundness.
fn is_sound_one(config: &Config, run: u32, lists: &Lists, index: usize) -> bool
    requires { index < length lists.now.kept.now }
    ensures { IsTrue result ↔ IsSoundOne (shape config.now) run lists.now.kept.now index }
{
    let one = &lists.kept[index];
    let node = one.disk / DISKS_OF_A_NODE;
    if node >= u32::from(nodes(config)) {
        return false;
    }
    let offset = lists.offset(index, one.disk);
    let role = role_of(config, NodeId(node as u16));
    let segment = (one.disk % DISKS_OF_A_NODE) as u8;
    may_keep(config, run, lists, role, segment, offset, one.payload.get())
}

// Whether a node of a role may have kept these bytes at an offset.
fn may_keep(
    config: &Config,
    run: u32,
    lists: &Lists,
    role: Role,
    segment: u8,
    offset: usize,
    payload: &[u8],
) -> bool
    requires { IsRole (shape config.now) role }
    ensures { IsTrue result ↔ IsSoundAs (shape config.now) (IsBefore run) (payloads_on lists.now.kept.now) role segment offset payload.now }
{
    match role {
        Role::Storage { shard, .. } => {
            return segment < config.replicas()
                && is_entry(config, run, lists, shard.0 as u8, segment, offset, payload);
        }
        Role::Gatherer { .. } => return false,
        Role::Orderer { .. } => return segment == 0 && is_promise(config, lists, offset, payload),
    }
}

// Whether a replica of a shard may have kept these bytes at an offset of a segment.
fn is_entry(
    config: &Config,
    run: u32,
    lists: &Lists,
    shard: u8,
    segment: u8,
    offset: usize,
    payload: &[u8],
) -> bool
    requires shard { shard < (shape config.now).shards }
    requires segment { segment < (shape config.now).replicas }
    ensures { IsTrue result ↔ IsSoundEntry (shape config.now) (IsBefore run) (payloads_on lists.now.kept.now) shard segment offset payload.now }
{
    if offset >= LIST_LIMIT || !is_entry_before(run, payload) {
        return false;
    }
    let primary = segment_disk_of(config, shard, segment, segment);
    lists.has(primary, offset, payload)
}
