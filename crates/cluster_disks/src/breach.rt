//! The place of a payload that may not begin a run.

ghost use Rattle.std.specs.Prelude.{◌≡◌, ◌<◌, ◌≤◌, ◌==◌, count_by, length, take, Some, slice_get};
ghost use Rattle.history_frame.specs.declared.events.Kept.{Kept as KeptOne};
ghost use Rattle.segment_journal.specs.File.{place_of as place};
ghost use Rattle.cluster_disks.specs.Found.{gate_of, kept_in};
ghost use Rattle.cluster_disks.specs.Opened.{AreFresh, AreSmall};

use crate::stop::OpenStop;
use disk_base::Disk;
use history_frame::Kept;
use log_base::List;
use segment_journal::{Journal, SegmentJournal};

/// How many disk numbers a node has.
const DISKS_OF_A_NODE: u32 = 8;

/// The disk of the payload at an index of all that was copied from the disks of nodes, and the place of its gate.
pub fn breach_at<D: Disk>(
    nodes: &[List<SegmentJournal<D>>],
    kept: &[Kept],
    index: usize,
) -> OpenStop
    requires small { AreSmall nodes.now }
    requires fresh { AreFresh nodes.now }
    requires kept { kept.now ≡ kept_in 0 nodes.now }
    requires within { index < length kept.now }
    ensures { (one : KeptOne) → slice_get kept.now index ≡ Some one → result ≡ OpenStop.BadDisk one.disk (gate_of kept.now index one) }
{
    let disk = kept[index].disk;
    let node = (disk / DISKS_OF_A_NODE) as usize;
    let segment = (disk % DISKS_OF_A_NODE) as usize;
    let at = place_of(&nodes[node].get()[segment], offset_of(kept, index, disk));
    OpenStop::BadDisk { disk, at }
}

/// The place of the gate of the payload at an offset.
fn place_of<D: Disk>(journal: &SegmentJournal<D>, offset: usize) -> u64
    requires first { journal.now.journal.first ≡ 0 }
    requires within { offset < length journal.now.journal.payloads }
    ensures { result ≡ place journal.now.journal.payloads offset }
{
    let end = journal.len() as usize;
    prove!(offset < end);
    journal.gate(offset as u32)
}

/// How many of the payloads before an index are on a disk.
fn offset_of(kept: &[Kept], index: usize, disk: u32) -> usize
    requires { index ≤ length kept.now }
    ensures { result ≡ count_by (λ one. one.disk == disk) (take index kept.now) }
{
    kept[..index].iter().filter(|one| one.disk == disk).count()
}
