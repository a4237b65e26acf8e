//! Nodes of the three roles as they begin.

ghost use Rattle.std.specs.Prelude.{◌≡◌, ◌<◌, ℕ, [], ◌∷◌, length, None, Some, IfOk, IfErr};
ghost use Rattle.std.specs.List.{All};
ghost use Rattle.log_base.specs.Shape.{shape};
ghost use Rattle.node_model.specs.NodeState.{KeptLists, node_at_first};
ghost use Rattle.node_table.specs.declared.role.Role.TheVariants.{Orderer as OrdererRole};
ghost use Rattle.node_table.specs.Numbering.{nodes_of, role_at};
ghost use Rattle.orderer_node.specs.Ordering.{IsFlight};
ghost use Rattle.paxos_acceptor.specs.Listed.{bad_offset};
ghost use Rattle.shard_replica.specs.Lists.{HoldsRecords, media_of, segments_of};
ghost use Rattle.storage_node.specs.StorageState.{HasOneFlight};
ghost use Rattle.core_step.specs.declared.part.Part.TheVariants.{Orderer as Orders};
ghost use Rattle.core_step.specs.Disks.{media_in};
ghost use Rattle.core_step.specs.Standing.{state_of};
ghost use Rattle.core_step.specs.Starting.{IsGatherer, IsOrderer, IsStorage, IsStoring, ordering};

use crate::node::Node;
use crate::part::Part;
use cut_chain::Places;
use gatherer_node::GathererNode;
use log_base::{Config, Memory, NodeId};
use node_table::{Role, role_of};
use orderer_node::OrdererNode;
use paxos_acceptor::BadList;
use segment_journal::Journal;
use std::alloc::Global;
use storage_node::StorageNode;

impl<J: Journal, P: Places> Node<J, P> {
    /// A storage node over the journals of its lists, of which one may have an entry in flight. It is down.
    pub fn storage(
        alloc: Global,
        config: Config,
        node: NodeId,
        journals: Vec<J>,
        places: P,
    ) -> Result<Node<J, P>, (Memory, Vec<J>)>
        requires node { node.0 < nodes_of (shape config) }
        requires role { IsStorage (role_at (shape config) node.0) }
        requires journals { length journals.items ≡ (shape config).replicas }
        requires records { All (λ j. HoldsRecords (J.state j)) journals.items }
        requires flights { HasOneFlight (segments_of J.state journals.items) }
        requires places { P.places places ≡ [] }
        ensures config { IfOk result (λ n. n.config ≡ shape config) }
        ensures number { IfOk result (λ n. n.number ≡ node.0) }
        ensures state { IfOk result (λ n. IsStoring (shape config) (role_at (shape config) node.0) (segments_of J.state journals.items) (state_of J.state n.part)) }
        ensures media { IfOk result (λ n. media_in J.state J.faults J.keeps_synced J.turns n.part ≡ media_of J.state J.faults J.keeps_synced J.turns journals.items) }
        ensures err { IfErr result (λ e. e.1 ≡ journals) }
    {
        match role_of(&config, node) {
            Role::Storage { shard, replica } => {
                match StorageNode::new(alloc, config, shard, replica, journals, places) {
                    Ok(storage) => Ok(Node {
                        config,
                        number: node,
                        part: Part::Storage(storage),
                        spare: Vec::new(alloc),
                    }),
                    Err(refused) => Err(refused),
                }
            }
            Role::Gatherer { .. } | Role::Orderer { .. } => unreachable!(),
        }
    }

    /// A gatherer, which is down.
    pub fn gatherer(alloc: Global, config: Config, node: NodeId) -> Node<J, P>
        requires node { node.0 < nodes_of (shape config) }
        requires role { IsGatherer (role_at (shape config) node.0) }
        ensures config { result.config ≡ shape config }
        ensures number { result.number ≡ node.0 }
        ensures state { (kept : KeptLists) → state_of J.state result.part ≡ node_at_first (shape config) kept node.0 }
    {
        match role_of(&config, node) {
            Role::Gatherer { index } => Node {
                config,
                number: node,
                part: Part::Gatherer(GathererNode::new(alloc, config, index)),
                spare: Vec::new(alloc),
            },
            Role::Storage { .. } | Role::Orderer { .. } => unreachable!(),
        }
    }

    /// An orderer over its journal, which is down and knows no value.
    pub fn orderer(
        alloc: Global,
        config: Config,
        node: NodeId,
        journal: J,
        places: P,
    ) -> Result<Node<J, P>, (BadList, J)>
        requires node { node.0 < nodes_of (shape config) }
        requires role { IsOrderer (role_at (shape config) node.0) }
        requires flight { IsFlight (J.state journal).flight }
        requires places { P.places places ≡ [] }
        ensures config { IfOk result (λ n. n.config ≡ shape config) }
        ensures number { IfOk result (λ n. n.number ≡ node.0) }
        ensures state { IfOk result (λ n. state_of J.state n.part ≡ ordering (J.state journal)) }
        ensures list { IfOk result (λ _. bad_offset (J.state journal) ≡ None) }
        ensures bad { IfErr result (λ e. (offset : ℕ) → e.0 ≡ BadList.Payload offset → bad_offset (J.state journal) ≡ Some offset) }
        ensures back { IfErr result (λ e. e.1 ≡ journal) }
        ensures media { IfOk result (λ n. media_in J.state J.faults J.keeps_synced J.turns n.part ≡ media_of J.state J.faults J.keeps_synced J.turns (journal ∷ [])) }
    {
        match role_of(&config, node) {
            Role::Orderer { index } => {
                match OrdererNode::new(alloc, config, index, journal, places) {
                    Ok(orderer) => Node::of_orderer(alloc, config, node, orderer),
                    Err(refused) => Err(refused),
                }
            }
            Role::Storage { .. } | Role::Gatherer { .. } => unreachable!(),
        }
    }

    // An orderer with its seat, and with room to give its journal back.
    fn of_orderer(
        alloc: Global,
        config: Config,
        node: NodeId,
        orderer: OrdererNode<J, P>,
    ) -> Result<Node<J, P>, (BadList, J)>
        requires cluster { orderer.memory.config ≡ shape config }
        requires role { role_at (shape config) node.0 ≡ OrdererRole orderer.index }
        ensures config { IfOk result (λ n. n.config ≡ shape config) }
        ensures number { IfOk result (λ n. n.number ≡ node.0) }
        ensures part { IfOk result (λ n. n.part ≡ Orders orderer) }
        ensures memory { IfErr result (λ e. e.0 ≡ BadList.Memory) }
        ensures back { IfErr result (λ e. e.1 ≡ orderer.journal) }
    {
        match Vec::with_capacity(alloc, 1) {
            Ok(spare) => Ok(Node {
                config,
                number: node,
                part: Part::Orderer(orderer),
                spare,
            }),
            Err(_) => Err((BadList::Memory, orderer.into_journal())),
        }
    }
}
