//! The nodes of a cluster as they begin, over what their disks kept.

ghost use Rattle.std.specs.Prelude.{◌≡◌, ℕ, ◌+◌, ◌*◌, ◌<◌, ◌≤◌, [], length, IfOk};
ghost use Rattle.log_base.specs.ClusterShape.{InRange};
ghost use Rattle.log_base.specs.Shape.{shape};
ghost use Rattle.core_step.specs.Starting.{IsOrderer, IsStorage};
ghost use Rattle.node_model.specs.Machine.{IsAny};
ghost use Rattle.node_model.specs.NodeState.{KeptLists, node_at_first};
ghost use Rattle.node_model.specs.Sound.{AreSound, payloads_on};
ghost use Rattle.node_table.specs.Numbering.{disk_of, nodes_of, role_at};
ghost use Rattle.segment_journal.specs.Journalled.{loaded};
ghost use Rattle.history_walk.specs.Beginning.{AreLists, AreLoaded, AreNodes, IsNode};

use crate::lists::{lists_of, take_list, take_lists};
use crate::memory_journal::MemoryJournal;
use core_step::Node;
use cut_chain::WalkPlaces;
use history_frame::Kept;
use log_base::{Config, Memory, NodeId};
use node_table::{Role, disk, nodes, role_of};
use paxos_acceptor::BadList;
use std::alloc::Global;

/// A node over journals in memory.
pub(crate) type MemoryNode = Node<MemoryJournal, WalkPlaces>;

/// How many disk numbers a node has.
const DISKS: u16 = 8;

/// The nodes of a cluster, each down, over what their disks kept.
pub(crate) fn begin(
    alloc: Global,
    config: &Config,
    kept: Vec<Kept>,
) -> Result<Vec<MemoryNode>, Memory>
    requires { AreSound (shape config.now) IsAny (payloads_on kept.items) }
    ensures { IfOk result (λ made. AreNodes (shape config.now) (payloads_on kept.items) [] made.items) }
{
    let mut journals = lists_of(alloc, nodes(config) * DISKS, kept)?;
    let mut made = Vec::new(alloc);
    for number in 0..nodes(config) {
        let node = begin_node(alloc, config, NodeId(number), &mut journals)?;
        made.push(node)?;
    }
    Ok(made)
}

// A node over the journals of its disks, which are taken out.
fn begin_node(
    alloc: Global,
    config: &Config,
    node: NodeId,
    journals: &mut Vec<MemoryJournal>,
) -> Result<MemoryNode, Memory>
    requires node { node.0 < nodes_of (shape config.now) }
    requires lists { (kept : KeptLists) × AreSound (shape config.now) IsAny kept × AreLists journals.old.items kept (node.0 * 8) (nodes_of (shape config.now) * 8) }
    ensures begun { IfOk result (λ made. (kept : KeptLists) → AreLists journals.old.items kept (node.0 * 8) (nodes_of (shape config.now) * 8)
        → IsNode (shape config.now) kept [] node.0 made) }
    ensures others { IfOk result (λ _. (kept : KeptLists) → AreLists journals.old.items kept (node.0 * 8) (nodes_of (shape config.now) * 8)
        → AreLists journals.new.items kept ((node.0 + 1) * 8) (nodes_of (shape config.now) * 8)) }
{
    match role_of(config, node) {
        Role::Storage { .. } => {
            let lists = take_lists(alloc, node, config.replicas(), journals)?;
            let made = begin_replica(alloc, config, node, lists)?;
            return Ok(made);
        }
        Role::Gatherer { .. } => return Ok(Node::gatherer(alloc, *config, node)),
        Role::Orderer { .. } => {
            let list = take_list(alloc, disk(node, 0), journals);
            let made = begin_orderer(alloc, config, node, list)?;
            return Ok(made);
        }
    }
}

// A replica over its journals.
fn begin_replica(
    alloc: Global,
    config: &Config,
    node: NodeId,
    journals: Vec<MemoryJournal>,
) -> Result<MemoryNode, Memory>
    requires node { node.0 < nodes_of (shape config.now) }
    requires role { IsStorage (role_at (shape config.now) node.0) }
    requires count { length journals.items ≡ (shape config.now).replicas }
    requires lists { (kept : KeptLists) × AreSound (shape config.now) IsAny kept × AreLoaded kept node.0 0 journals.items }
    ensures { IfOk result (λ made. (kept : KeptLists) → AreLoaded kept node.0 0 journals.items → IsNode (shape config.now) kept [] node.0 made) }
{
    match Node::storage(alloc, *config, node, journals, WalkPlaces::new(alloc)) {
        Ok(made) => return Ok(made),
        Err((memory, _)) => return Err(memory),
    }
}

// An orderer over its journal.
fn begin_orderer(
    alloc: Global,
    config: &Config,
    node: NodeId,
    journal: MemoryJournal,
) -> Result<MemoryNode, Memory>
    requires node { node.0 < nodes_of (shape config.now) }
    requires role { IsOrderer (role_at (shape config.now) node.0) }
    requires list { (kept : KeptLists) × AreSound (shape config.now) IsAny kept × (journal.journal ≡ loaded (kept (disk_of node.0 0))) }
    ensures { IfOk result (λ made. (kept : KeptLists) → journal.journal ≡ loaded (kept (disk_of node.0 0)) → IsNode (shape config.now) kept [] node.0 made) }
{
    match Node::orderer(alloc, *config, node, journal, WalkPlaces::new(alloc)) {
        Ok(made) => return Ok(made),
        Err((BadList::Memory, _)) => return Err(Memory),
        Err((BadList::Payload { .. }, _)) => unreachable!(),
    }
}
