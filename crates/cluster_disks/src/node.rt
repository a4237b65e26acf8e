//! The disks of one node: opened, and given back.

ghost use Rattle.std.specs.Prelude.{◌≡◌, ℕ, ◌<◌, ◌≤◌, None, length, IfOk, IfErr, OnOk, OnErr};
ghost use Rattle.node_table.specs.Numbering.{disk_of};
ghost use Rattle.cluster_disks.specs.Lent.{IsDiskOfNode, StaysBut, disks, lain};
ghost use Rattle.cluster_disks.specs.Opened.{AreGivenBack, AreOpened, AreReturned, FailsAmong};

use crate::disk::open_disk;
use crate::stop::OpenStop;
use disk_base::Rack;
use log_base::NodeId;
use node_table::disk;
use segment_journal::SegmentJournal;
use std::alloc::Global;

/// Opens the first disks of a node, in order of number. After an error they lie in the rack again.
pub fn open_node<Q: Rack>(
    alloc: Global,
    node: NodeId,
    count: u8,
    rack: &mut Q,
) -> Result<Vec<SegmentJournal<Q::D>>, OpenStop>
where
    Q::D: Drop,
    requires { count ≤ 8 }
    ensures count { IfOk result (λ js. length js.items ≡ count) }
    ensures opened { IfOk result (λ js. AreOpened (disks Q.D.reads Q.D.may_leave Q.D.keeps_synced Q.D.faults) node.0 (lain Q.disk_at Q.disk_faults Q.faults rack.old) js.items) }
    ensures lent { OnOk result ((j : ℕ) → j < count → Q.lent_under rack.new (disk_of node.0 j) None) }
    ensures fails { IfErr result (FailsAmong (disks Q.D.reads Q.D.may_leave Q.D.keeps_synced Q.D.faults) (IsDiskOfNode node.0 count)
        (lain Q.disk_at Q.disk_faults Q.faults rack.old) (lain Q.disk_at Q.disk_faults Q.faults rack.new)) }
    ensures back { OnErr result (AreReturned (disks Q.D.reads Q.D.may_leave Q.D.keeps_synced Q.D.faults) (IsDiskOfNode node.0 count)
        (lain Q.disk_at Q.disk_faults Q.faults rack.old) (lain Q.disk_at Q.disk_faults Q.faults rack.new)) }
    ensures others { StaysBut Q.lent_under Q.disk_faults Q.disk_at (IsDiskOfNode node.0 count) rack.old rack.new }
    ensures later { Q.faults rack.old ≤ Q.faults rack.new }
{
    let mut journals = Vec::new(alloc);
    if journals.reserve(usize::from(count)).is_err() {
        return Err(OpenStop::Memory);
    }
    for segment in 0..count {
        match open_disk(alloc, disk(node, segment), rack) {
            Ok(journal) => {
                let _ = journals.push(journal);
            }
            Err(fault) => {
                close_node(node, journals, rack);
                return Err(fault);
            }
        }
    }
    return Ok(journals);
}

/// Gives the first disks of a node back, in order of number.
pub fn close_node<Q: Rack>(node: NodeId, journals: Vec<SegmentJournal<Q::D>>, rack: &mut Q)
where
    Q::D: Drop,
    requires few { length journals.items ≤ 8 }
    requires lent { (j : ℕ) → j < length journals.items → Q.lent_under rack.old (disk_of node.0 j) None }
    ensures back { AreGivenBack (disks Q.D.reads Q.D.may_leave Q.D.keeps_synced Q.D.faults) node.0 journals.items (lain Q.disk_at Q.disk_faults Q.faults rack.new) }
    ensures others { StaysBut Q.lent_under Q.disk_faults Q.disk_at (IsDiskOfNode node.0 (length journals.items)) rack.old rack.new }
    ensures later { Q.faults rack.old ≤ Q.faults rack.new }
{
    let mut segment: u8 = 0;
    'journals: for journal in journals {
        rack.give_back(disk(node, segment), journal.into_disk());
        segment += 1;
    }
}
