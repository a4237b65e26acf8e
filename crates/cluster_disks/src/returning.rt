//! The disks of nodes are given back.

ghost use Rattle.std.specs.Prelude.{ℕ, ◌≤◌, None, length};
ghost use Rattle.log_base.specs.Shape.{shape};
ghost use Rattle.node_table.specs.Numbering.{nodes_of};
ghost use Rattle.cluster_disks.specs.Lent.{IsDiskBelow, StaysBut, disks, lain};
ghost use Rattle.cluster_disks.specs.Nodes.{AreAllOf, AreSeated};

use crate::node::close_node;
use core_step::Node;
use cut_chain::WalkPlaces;
use disk_base::Rack;
use log_base::{Config, NodeId};
use segment_journal::SegmentJournal;

/// Gives the disks of the first nodes back, in order of number.
pub fn close_nodes<Q: Rack>(
    config: Config,
    nodes: Vec<Node<SegmentJournal<Q::D>, WalkPlaces>>,
    rack: &mut Q,
)
where
    Q::D: Drop,
    requires few { length nodes.items ≤ nodes_of (shape config) }
    requires seated { AreSeated (shape config) nodes.items }
    requires lent { (number : ℕ) → IsDiskBelow (shape config) (length nodes.items) number → Q.lent_under rack.old number None }
    ensures back { AreAllOf (disks Q.D.reads Q.D.may_leave Q.D.keeps_synced Q.D.faults) (shape config) nodes.items (lain Q.disk_at Q.disk_faults Q.faults rack.new) }
    ensures others { StaysBut Q.lent_under Q.disk_faults Q.disk_at (IsDiskBelow (shape config) (length nodes.items)) rack.old rack.new }
    ensures later { Q.faults rack.old ≤ Q.faults rack.new }
{
    let mut number: u16 = 0;
    'nodes: for node in nodes {
        node.tell();
        close_node(NodeId(number), node.into_journals(), rack);
        number += 1;
    }
}
