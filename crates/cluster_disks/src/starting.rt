//! A cluster is opened: its nodes over the disks that the rack lends, and what these kept.

ghost use Rattle.std.specs.Prelude.{ℕ, ◌⊎◌, ◌≤◌, None, IfOk, IfErr, OnOk, OnErr};
ghost use Rattle.log_base.specs.Shape.{shape};
ghost use Rattle.cluster_disks.specs.Failing.{IsRejected, OpensNot};
ghost use Rattle.cluster_disks.specs.Lent.{IsDisk, StaysBut, disks, lain};
ghost use Rattle.cluster_disks.specs.Nodes.{AreSeated, AreStanding, IsStart, nodes_in};
ghost use Rattle.cluster_disks.specs.Opened.{AreLater};

use crate::building::make_nodes;
use crate::cluster::{close_disks, open_disks};
use crate::finding::find_kept;
use crate::stop::OpenStop;
use core_step::Node;
use cut_chain::WalkPlaces;
use disk_base::{Disk, Rack};
use history_frame::Kept;
use log_base::Config;
use segment_journal::SegmentJournal;
use std::alloc::Global;

/// A cluster that is open: its nodes, in order of number, each of them down, and the payloads that their disks
/// kept, in order of disk and offset.
#[derive(Drop)]
pub struct Opened<D: Disk> {
    pub nodes: Vec<Node<SegmentJournal<D>, WalkPlaces>>,
    pub kept: Vec<Kept>,
}

/// Opens the disks of a cluster for a run, and makes its nodes over them. After an error the disks lie in the
/// rack again.
pub fn open_cluster<Q: Rack>(
    alloc: Global,
    config: Config,
    run: u32,
    rack: &mut Q,
) -> Result<Opened<Q::D>, OpenStop>
where
    Q::D: Drop,
    ensures start { IfOk result (λ opened. IsStart (disks Q.D.reads Q.D.may_leave Q.D.keeps_synced Q.D.faults) (shape config) run
        (lain Q.disk_at Q.disk_faults Q.faults rack.old) (nodes_in opened.nodes.items) opened.kept.items) }
    ensures seated { IfOk result (λ opened. AreSeated (shape config) opened.nodes.items) }
    ensures counts { IfOk result (λ opened. AreStanding (disks Q.D.reads Q.D.may_leave Q.D.keeps_synced Q.D.faults) (shape config)
        (lain Q.disk_at Q.disk_faults Q.faults rack.old) opened.nodes.items) }
    ensures lent { OnOk result ((number : ℕ) → IsDisk (shape config) number → Q.lent_under rack.new number None) }
    ensures fails { IfErr result (λ stop. OpensNot (disks Q.D.reads Q.D.may_leave Q.D.keeps_synced Q.D.faults) (shape config)
        (lain Q.disk_at Q.disk_faults Q.faults rack.old) (lain Q.disk_at Q.disk_faults Q.faults rack.new) stop
        ⊎ IsRejected (disks Q.D.reads Q.D.may_leave Q.D.keeps_synced Q.D.faults) (shape config) run stop
        (lain Q.disk_at Q.disk_faults Q.faults rack.old) (lain Q.disk_at Q.disk_faults Q.faults rack.new)) }
    ensures back { OnErr result (AreLater (disks Q.D.reads Q.D.may_leave Q.D.keeps_synced Q.D.faults) (shape config)
        (lain Q.disk_at Q.disk_faults Q.faults rack.old) (lain Q.disk_at Q.disk_faults Q.faults rack.new)) }
    ensures others { StaysBut Q.lent_under Q.disk_faults Q.disk_at (IsDisk (shape config)) rack.old rack.new }
    ensures later { Q.faults rack.old ≤ Q.faults rack.new }
{
    let journals = match open_disks(alloc, config, rack) {
        Ok(journals) => journals,
        Err(stop) => return Err(stop),
    };
    let kept = match find_kept(alloc, &config, run, &journals) {
        Ok(kept) => kept,
        Err(stop) => {
            close_disks(journals, rack);
            return Err(stop);
        }
    };
    match make_nodes(alloc, config, journals, rack) {
        Ok(nodes) => return Ok(Opened { nodes, kept }),
        Err(_) => return Err(OpenStop::Memory),
    }
}
