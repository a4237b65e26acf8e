//! Copies of the payloads that disks hold, in order of disk and offset.

ghost use Rattle.std.specs.Prelude.{◌≡◌, ◌<◌, ◌≤◌, [], ◌∷◌, length, IfOk, IfErr};
ghost use Rattle.std.specs.List.{All, AllByRecursion};
ghost use Rattle.history_frame.specs.Spelling.{IsKept};
ghost use Rattle.node_table.specs.Numbering.{disk_of};
ghost use Rattle.cluster_disks.specs.Found.{TakesIn, TakesNot, bytes_in, kept_from, kept_in, kept_limit, kept_on};
ghost use Rattle.cluster_disks.specs.Opened.{AreFresh, AreSmall};

use crate::stop::OpenStop;
use disk_base::Disk;
use history_frame::Kept;
use log_base::{Bytes, List, NodeId};
use node_table::disk;
use segment_journal::{Journal, SegmentJournal};
use std::alloc::Global;

/// How many bytes the payloads may have together.
const KEPT_BYTES: u32 = 268_435_456;

/// Copies the payloads of all nodes.
pub fn copy_kept<D: Disk>(
    alloc: Global,
    nodes: &[List<SegmentJournal<D>>],
) -> Result<Vec<Kept>, OpenStop>
    requires few { length nodes.now ≤ 43 }
    requires small { AreSmall nodes.now }
    requires fresh { AreFresh nodes.now }
    ensures kept { IfOk result (λ kept. kept.items ≡ kept_in 0 nodes.now) }
    ensures few { IfOk result (λ kept. bytes_in kept.items ≤ kept_limit) }
    ensures fit { IfOk result (λ kept. AllByRecursion IsKept kept.items) }
    ensures refused { IfErr result (TakesNot (kept_in 0 nodes.now) 0) }
{
    let mut kept = Vec::new(alloc);
    let mut total: u32 = 0;
    for node in 0..nodes.len() {
        match copy_node(
            alloc,
            NodeId(node as u16),
            nodes[node].get(),
            total,
            &mut kept,
        ) {
            Ok(more) => total = more,
            Err(fault) => return Err(fault),
        }
    }
    Ok(kept)
}

/// Copies the payloads of a node behind others, which have so many bytes. Gives how many they have then.
fn copy_node<D: Disk>(
    alloc: Global,
    node: NodeId,
    journals: &[SegmentJournal<D>],
    bytes: u32,
    kept: &mut Vec<Kept>,
) -> Result<u32, OpenStop>
    requires node { node.0 < 43 }
    requires few { length journals.now ≤ 8 }
    requires first { All (λ j. j.journal.first ≡ 0) journals.now }
    requires bytes { bytes ≤ kept_limit }
    ensures taken { IfOk result (λ more. TakesIn (kept_from (disk_of node.0 0) journals.now) bytes more kept.old.items kept.new.items) }
    ensures refused { IfErr result (TakesNot (kept_from (disk_of node.0 0) journals.now) bytes) }
{
    let mut total = bytes;
    for segment in 0..journals.len() {
        match copy_journal(
            alloc,
            disk(node, segment as u8),
            &journals[segment],
            total,
            kept,
        ) {
            Ok(more) => total = more,
            Err(fault) => return Err(fault),
        }
    }
    Ok(total)
}

/// The same for one disk.
fn copy_journal<D: Disk>(
    alloc: Global,
    disk: u32,
    journal: &SegmentJournal<D>,
    bytes: u32,
    kept: &mut Vec<Kept>,
) -> Result<u32, OpenStop>
    requires first { journal.now.journal.first ≡ 0 }
    requires bytes { bytes ≤ kept_limit }
    ensures taken { IfOk result (λ more. TakesIn (kept_on disk journal.now.journal.payloads) bytes more kept.old.items kept.new.items) }
    ensures refused { IfErr result (TakesNot (kept_on disk journal.now.journal.payloads) bytes) }
{
    let mut total = bytes;
    for offset in 0..journal.len() {
        match copy_payload(alloc, disk, journal.get(offset), total, kept) {
            Ok(more) => total = more,
            Err(fault) => return Err(fault),
        }
    }
    Ok(total)
}

/// The same for one payload.
fn copy_payload(
    alloc: Global,
    disk: u32,
    payload: &[u8],
    bytes: u32,
    kept: &mut Vec<Kept>,
) -> Result<u32, OpenStop>
    requires bytes { bytes ≤ kept_limit }
    requires size { length payload.now ≤ 131072 }
    ensures taken { IfOk result (λ more. TakesIn (kept_on disk (payload.now ∷ [])) bytes more kept.old.items kept.new.items) }
    ensures refused { IfErr result (TakesNot (kept_on disk (payload.now ∷ [])) bytes) }
{
    let more = bytes + payload.len() as u32;
    if more > KEPT_BYTES {
        return Err(OpenStop::TooManyKept);
    }
    let payload = Bytes::of(Vec::from_slice(alloc, payload)?);
    kept.push(Kept { disk, payload })?;
    Ok(more)
}
