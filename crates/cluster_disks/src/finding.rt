//! The lists that a run finds on its disks, and whether it may begin with them.

ghost use Rattle.std.specs.Prelude.{◌≡◌, ◌≤◌, length, IfOk, IfErr};
ghost use Rattle.std.specs.List.{AllByRecursion};
ghost use Rattle.history_frame.specs.Spelling.{IsKept};
ghost use Rattle.log_base.specs.Shape.{shape};
ghost use Rattle.node_model.specs.Sound.{IsSound, payloads_on};
ghost use Rattle.cluster_disks.specs.Found.{Rejects, bytes_in, kept_in, kept_limit};
ghost use Rattle.cluster_disks.specs.Opened.{AreFresh, AreSmall};

use crate::breach::breach_at;
use crate::kept::copy_kept;
use crate::stop::OpenStop;
use disk_base::Disk;
use history_frame::Kept;
use kept_lists::{Sounding, sound};
use log_base::{Config, List};
use segment_journal::SegmentJournal;
use std::alloc::Global;

/// The payloads of all disks, in order of disk and offset, where a run may begin with them.
pub fn find_kept<D: Disk>(
    alloc: Global,
    config: &Config,
    run: u32,
    nodes: &[List<SegmentJournal<D>>],
) -> Result<Vec<Kept>, OpenStop>
    requires few { length nodes.now ≤ 43 }
    requires small { AreSmall nodes.now }
    requires fresh { AreFresh nodes.now }
    ensures kept { IfOk result (λ kept. kept.items ≡ kept_in 0 nodes.now) }
    ensures few { IfOk result (λ kept. bytes_in kept.items ≤ kept_limit) }
    ensures fit { IfOk result (λ kept. AllByRecursion IsKept kept.items) }
    ensures sound { IfOk result (λ kept. IsSound (shape config.now) run (payloads_on kept.items)) }
    ensures rejects { IfErr result (Rejects (shape config.now) run (kept_in 0 nodes.now)) }
{
    let kept = match copy_kept(alloc, nodes) {
        Ok(kept) => kept,
        Err(fault) => return Err(fault),
    };
    match sound(config, run, &kept) {
        Sounding::Sound => Ok(kept),
        Sounding::Breaks { index } => Err(breach_at(nodes, &kept, index)),
    }
}
