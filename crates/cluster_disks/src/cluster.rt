//! The disks of a cluster: opened, and given back.

ghost use Rattle.std.specs.Prelude.{◌≡◌, ℕ, ◌<◌, ◌≤◌, None, length, IfOk, IfErr, OnOk, OnErr};
ghost use Rattle.log_base.specs.Shape.{shape};
ghost use Rattle.node_table.specs.Numbering.{nodes_of};
ghost use Rattle.cluster_disks.specs.Lent.{IsDisk, StaysBut, disks, disks_at, lain};
ghost use Rattle.cluster_disks.specs.Opened.{AreAllGivenBack, AreAllOpened, AreReturned, AreSmall, FailsAmong, IsDiskIn};

use crate::node::{close_node, open_node};
use crate::stop::OpenStop;
use disk_base::Rack;
use log_base::{Config, List, NodeId};
use node_table::{Role, nodes, role_of};
use segment_journal::SegmentJournal;
use std::alloc::Global;

/// Opens the disks of all nodes, in order of number. After an error they lie in the rack again.
pub fn open_disks<Q: Rack>(
    alloc: Global,
    config: Config,
    rack: &mut Q,
) -> Result<Vec<List<SegmentJournal<Q::D>>>, OpenStop>
where
    Q::D: Drop,
    ensures opened { IfOk result (λ opened. AreAllOpened (disks Q.D.reads Q.D.may_leave Q.D.keeps_synced Q.D.faults) (shape config)
        (lain Q.disk_at Q.disk_faults Q.faults rack.old) opened.items) }
    ensures lent { OnOk result ((number : ℕ) → IsDisk (shape config) number → Q.lent_under rack.new number None) }
    ensures fails { IfErr result (FailsAmong (disks Q.D.reads Q.D.may_leave Q.D.keeps_synced Q.D.faults) (IsDisk (shape config))
        (lain Q.disk_at Q.disk_faults Q.faults rack.old) (lain Q.disk_at Q.disk_faults Q.faults rack.new)) }
    ensures back { OnErr result (AreReturned (disks Q.D.reads Q.D.may_leave Q.D.keeps_synced Q.D.faults) (IsDisk (shape config))
        (lain Q.disk_at Q.disk_faults Q.faults rack.old) (lain Q.disk_at Q.disk_faults Q.faults rack.new)) }
    ensures others { StaysBut Q.lent_under Q.disk_faults Q.disk_at (IsDisk (shape config)) rack.old rack.new }
    ensures later { Q.faults rack.old ≤ Q.faults rack.new }
{
    let count = nodes(&config);
    let mut opened = Vec::new(alloc);
    if opened.reserve(usize::from(count)).is_err() {
        return Err(OpenStop::Memory);
    }
    for number in 0..count {
        let node = NodeId(number);
        match open_node(alloc, node, disk_count(&config, node), rack) {
            Ok(journals) => {
                let _ = opened.push(List::of(journals));
            }
            Err(fault) => {
                close_disks(opened, rack);
                return Err(fault);
            }
        }
    }
    return Ok(opened);
}

/// How many disks a node has: a replica one for each segment of its shard, an orderer one, a gatherer none.
fn disk_count(config: &Config, node: NodeId) -> u8
    requires { node.0 < nodes_of (shape config.now) }
    ensures count { result ≡ disks_at (shape config.now) node.0 }
    ensures few { result ≤ 8 }
{
    match role_of(config, node) {
        Role::Storage { .. } => config.replicas(),
        Role::Gatherer { .. } => 0,
        Role::Orderer { .. } => 1,
    }
}

/// Gives the disks of the first nodes back, in order of number.
pub fn close_disks<Q: Rack>(nodes: Vec<List<SegmentJournal<Q::D>>>, rack: &mut Q)
where
    Q::D: Drop,
    requires few { length nodes.items ≤ 43 }
    requires small { AreSmall nodes.items }
    requires lent { (number : ℕ) → IsDiskIn nodes.items number → Q.lent_under rack.old number None }
    ensures back { AreAllGivenBack (disks Q.D.reads Q.D.may_leave Q.D.keeps_synced Q.D.faults) nodes.items (lain Q.disk_at Q.disk_faults Q.faults rack.new) }
    ensures others { StaysBut Q.lent_under Q.disk_faults Q.disk_at (IsDiskIn nodes.items) rack.old rack.new }
    ensures later { Q.faults rack.old ≤ Q.faults rack.new }
{
    let mut node: u16 = 0;
    'nodes: for journals in nodes {
        close_node(NodeId(node), journals.into_inner(), rack);
        node += 1;
    }
}
