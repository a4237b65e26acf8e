//! The nodes of a cluster over the journals of its disks.

ghost use Rattle.std.specs.Prelude.{◌≡◌, ◌≢◌, ℕ, ◌<◌, ◌≤◌, [], length, None, Some, IfOk, IfErr, OnOk, OnErr, slice_get};
ghost use Rattle.log_base.specs.Shape.{shape};
ghost use Rattle.node_model.specs.Sound.{IsSound, payloads_on};
ghost use Rattle.node_table.specs.Numbering.{nodes_of};
ghost use Rattle.cluster_disks.specs.Found.{kept_in};
ghost use Rattle.cluster_disks.specs.Lent.{IsDisk, StaysBut, disks, lain};
ghost use Rattle.cluster_disks.specs.Nodes.{AreAsRead, AreMade, AreTaken, HaveAll};
ghost use Rattle.cluster_disks.specs.Opened.{AreFresh, AreSmall};

use crate::cluster::close_disks;
use crate::making::make_node;
use crate::returning::close_nodes;
use core_step::Node;
use cut_chain::WalkPlaces;
use disk_base::{Disk, Rack};
use log_base::{Config, List, Memory, NodeId};
use segment_journal::SegmentJournal;
use std::alloc::Global;
use std::mem;

/// The first nodes of a cluster, and the journals of the others, each in its place.
#[derive(Drop)]
struct Unmade<D: Disk> {
    nodes: Vec<Node<SegmentJournal<D>, WalkPlaces>>,
    rest: Vec<List<SegmentJournal<D>>>,
}

/// Makes the nodes of a cluster, each over its journals. After an error the disks lie in the rack again.
pub fn make_nodes<Q: Rack>(
    alloc: Global,
    config: Config,
    journals: Vec<List<SegmentJournal<Q::D>>>,
    rack: &mut Q,
) -> Result<Vec<Node<SegmentJournal<Q::D>, WalkPlaces>>, Memory>
where
    Q::D: Drop,
    requires all { length journals.items ≡ nodes_of (shape config) }
    requires counts { HaveAll (shape config) journals.items }
    requires small { AreSmall journals.items }
    requires fresh { AreFresh journals.items }
    requires sound { (run : ℕ) × IsSound (shape config) run (payloads_on (kept_in 0 journals.items)) }
    requires lent { (number : ℕ) → IsDisk (shape config) number → Q.lent_under rack.old number None }
    ensures made { IfOk result (λ nodes. AreMade (disks Q.D.reads Q.D.may_leave Q.D.keeps_synced Q.D.faults) (shape config) journals.items nodes.items) }
    ensures all { IfOk result (λ nodes. length nodes.items ≡ nodes_of (shape config)) }
    ensures stays { OnOk result (rack.new ≡ rack.old) }
    ensures back { OnErr result (AreAsRead (disks Q.D.reads Q.D.may_leave Q.D.keeps_synced Q.D.faults) journals.items (lain Q.disk_at Q.disk_faults Q.faults rack.new)) }
    ensures others { StaysBut Q.lent_under Q.disk_faults Q.disk_at (IsDisk (shape config)) rack.old rack.new }
    ensures later { Q.faults rack.old ≤ Q.faults rack.new }
{
    match build_nodes(alloc, config, journals) {
        Ok(nodes) => return Ok(nodes),
        Err(unmade) => {
            close_nodes(config, unmade.nodes, rack);
            close_disks(unmade.rest, rack);
            return Err(Memory);
        }
    }
}

/// Makes the nodes of a cluster. An error gives those that were made, and the journals of the others.
fn build_nodes<D: Disk + Drop>(
    alloc: Global,
    config: Config,
    journals: Vec<List<SegmentJournal<D>>>,
) -> Result<Vec<Node<SegmentJournal<D>, WalkPlaces>>, Unmade<D>>
    requires all { length journals.items ≡ nodes_of (shape config) }
    requires counts { HaveAll (shape config) journals.items }
    requires small { AreSmall journals.items }
    requires fresh { AreFresh journals.items }
    requires sound { (run : ℕ) × IsSound (shape config) run (payloads_on (kept_in 0 journals.items)) }
    ensures made { IfOk result (λ nodes. AreMade (disks D.reads D.may_leave D.keeps_synced D.faults) (shape config) journals.items nodes.items) }
    ensures all { IfOk result (λ nodes. length nodes.items ≡ nodes_of (shape config)) }
    ensures first { IfErr result (λ unmade. AreMade (disks D.reads D.may_leave D.keeps_synced D.faults) (shape config) journals.items unmade.nodes.items) }
    ensures rest { IfErr result (λ unmade. AreTaken (length unmade.nodes.items) journals.items unmade.rest.items) }
{
    let mut rest = journals;
    let count = rest.len();
    let mut nodes = Vec::new(alloc);
    if nodes.reserve(count).is_err() {
        return Err(Unmade { nodes, rest });
    }
    for number in 0..count {
        let own = replace(&mut rest, number, List::of(Vec::new(alloc)));
        match make_node(alloc, config, NodeId(number as u16), own.into_inner()) {
            Ok(node) => {
                let _ = nodes.push(node);
            }
            Err(own) => {
                let _empty = replace(&mut rest, number, List::of(own));
                return Err(Unmade { nodes, rest });
            }
        }
    }
    return Ok(nodes);
}

/// Puts other journals in the place of a node's.
fn replace<D: Disk>(
    journals: &mut Vec<List<SegmentJournal<D>>>,
    node: usize,
    other: List<SegmentJournal<D>>,
) -> List<SegmentJournal<D>>
    requires { node < length journals.old.items }
    ensures taken { slice_get journals.old.items node ≡ Some result }
    ensures put { slice_get journals.new.items node ≡ Some other }
    ensures size { length journals.new.items ≡ length journals.old.items }
    ensures rest { (k : ℕ) → k ≢ node → slice_get journals.new.items k ≡ slice_get journals.old.items k }
{
    mem::replace(&mut journals[node], other)
}
