//! A node over its journals.

ghost use Rattle.std.specs.Prelude.{◌≡◌, ◌<◌, IfOk, IfErr};
ghost use Rattle.core_step.specs.Disks.{media_in};
ghost use Rattle.core_step.specs.Standing.{state_of};
ghost use Rattle.core_step.specs.Starting.{IsOrderer};
ghost use Rattle.log_base.specs.Shape.{shape};
ghost use Rattle.node_model.specs.NodeState.{KeptLists, node_at_first};
ghost use Rattle.node_table.specs.Numbering.{nodes_of, role_at};
ghost use Rattle.shard_replica.specs.Lists.{media_of};
ghost use Rattle.cluster_disks.specs.Nodes.{IsBeginning};

use core_step::Node;
use cut_chain::WalkPlaces;
use log_base::{Config, NodeId};
use node_table::{Role, role_of};
use segment_journal::Journal;
use std::alloc::Global;

/// Makes a node over its journals. An error gives them back.
pub fn make_node<J: Journal + Drop>(
    alloc: Global,
    config: Config,
    node: NodeId,
    journals: Vec<J>,
) -> Result<Node<J, WalkPlaces>, Vec<J>>
    requires node { node.0 < nodes_of (shape config) }
    requires beginning { (kept : KeptLists) × IsBeginning J.state (shape config) kept node.0 journals.items }
    ensures config { IfOk result (λ n. n.config ≡ shape config) }
    ensures number { IfOk result (λ n. n.number ≡ node.0) }
    ensures state { IfOk result (λ n. (kept : KeptLists) → IsBeginning J.state (shape config) kept node.0 journals.items
        → state_of J.state n.part ≡ node_at_first (shape config) kept node.0) }
    ensures media { IfOk result (λ n. media_in J.state J.faults J.keeps_synced J.turns n.part ≡ media_of J.state J.faults J.keeps_synced J.turns journals.items) }
    ensures back { IfErr result (λ js. js.items ≡ journals.items) }
{
    match role_of(&config, node) {
        Role::Storage { .. } => {
            match Node::storage(alloc, config, node, journals, WalkPlaces::new(alloc)) {
                Ok(node) => return Ok(node),
                Err((_, journals)) => return Err(journals),
            }
        }
        Role::Gatherer { .. } => {
            let gatherer = Node::gatherer(alloc, config, node);
            gatherer.tell();
            return Ok(gatherer);
        }
        Role::Orderer { .. } => return make_orderer(alloc, config, node, journals),
    }
}

/// Makes an orderer over its one journal. An error gives it back.
fn make_orderer<J: Journal + Drop>(
    alloc: Global,
    config: Config,
    node: NodeId,
    journals: Vec<J>,
) -> Result<Node<J, WalkPlaces>, Vec<J>>
    requires node { node.0 < nodes_of (shape config) }
    requires role { IsOrderer (role_at (shape config) node.0) }
    requires beginning { (kept : KeptLists) × IsBeginning J.state (shape config) kept node.0 journals.items }
    ensures config { IfOk result (λ n. n.config ≡ shape config) }
    ensures number { IfOk result (λ n. n.number ≡ node.0) }
    ensures state { IfOk result (λ n. (kept : KeptLists) → IsBeginning J.state (shape config) kept node.0 journals.items
        → state_of J.state n.part ≡ node_at_first (shape config) kept node.0) }
    ensures media { IfOk result (λ n. media_in J.state J.faults J.keeps_synced J.turns n.part ≡ media_of J.state J.faults J.keeps_synced J.turns journals.items) }
    ensures back { IfErr result (λ js. js.items ≡ journals.items) }
{
    let mut journals = journals;
    let Some(journal) = journals.pop() else {
        unreachable!()
    };
    match Node::orderer(alloc, config, node, journal, WalkPlaces::new(alloc)) {
        Ok(node) => return Ok(node),
        Err((_, journal)) => {
            let _ = journals.push(journal);
            return Err(journals);
        }
    }
}
