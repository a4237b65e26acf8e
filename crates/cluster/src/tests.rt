//! A cluster of one storage node, 0, the gatherer 1 and the orderer 2, over disks in memory, which are empty.

ghost use Rattle.std.specs.Prelude.{◌≡◌, ◌<◌, ◌≤◌, ℕ, [], length, map, slice_get, Some, IfOk};
ghost use Rattle.core_step.specs.Standing.{cluster_node};
ghost use Rattle.core_step.specs.Starting.{IsOrderer, IsStorage};
ghost use Rattle.counted_node.specs.Counted.{counted_node, node_in};
ghost use Rattle.log_base.specs.Shape.{shape};
ghost use Rattle.node_model.specs.Sound.{payloads_on};
ghost use Rattle.node_table.specs.Numbering.{nodes_of, role_at};
ghost use Rattle.segment_journal.specs.Journalled.{loaded};
ghost use Rattle.tied_cells.specs.Rule.{deal_of};
ghost use Rattle.cluster.specs.Clusters.{IsBegun, IsPassOf, first_node};
ghost use Rattle.cluster.specs.Tested.{AreEmpty, AreFirstOf, trio};

use crate::*;
use core_step::Node;
use cut_chain::WalkPlaces;
use disk_base::MemoryDisk;
use history_frame::{Call, Input};
use log_base::{Client, Config, NodeId, Position};
use node_table::{Role, nodes, role_of};
use reply_frame::Reply;
use segment_journal::{Journal, SegmentJournal};
use std::alloc::Global;
use std::test::Fail;

type OnDisk = SegmentJournal<MemoryDisk>;

type OnDisks = Node<OnDisk, WalkPlaces>;

type Trio = Cluster<OnDisk, WalkPlaces>;

fn empty(alloc: Global) -> Result<OnDisk, Fail>
    ensures { IfOk result (λ j. j.journal ≡ loaded []) }
{
    match SegmentJournal::load(alloc, MemoryDisk::of(alloc, Vec::new(alloc))) {
        Ok(journal) => {
            if journal.len() != 0 {
                return Err("a payload")?;
            }
            Ok(journal)
        }
        Err(_refused) => Err("load")?,
    }
}

fn journals(alloc: Global, count: u8) -> Result<Vec<OnDisk>, Fail>
    ensures empty { IfOk result (λ journals. AreEmpty (λ j. j.journal) journals.items) }
    ensures count { IfOk result (λ journals. length journals.items ≡ count) }
{
    let mut journals = Vec::new(alloc);
    for segment in 0..count {
        let _ = segment;
        let journal = empty(alloc)?;
        journals.push(journal)?;
    }
    Ok(journals)
}

fn storage(alloc: Global, config: Config, node: NodeId) -> Result<OnDisks, Fail>
    requires within { node.0 < nodes_of (shape config) }
    requires role { IsStorage (role_at (shape config) node.0) }
    ensures { IfOk result (λ n. cluster_node (λ j. j.journal) n ≡ first_node (shape config) (payloads_on []) node.0) }
{
    let journals = journals(alloc, config.replicas())?;
    match Node::storage(alloc, config, node, journals, WalkPlaces::new(alloc)) {
        Ok(node) => Ok(node),
        Err(_) => Err("memory")?,
    }
}

fn orderer(alloc: Global, config: Config, node: NodeId) -> Result<OnDisks, Fail>
    requires within { node.0 < nodes_of (shape config) }
    requires role { IsOrderer (role_at (shape config) node.0) }
    ensures { IfOk result (λ n. cluster_node (λ j. j.journal) n ≡ first_node (shape config) (payloads_on []) node.0) }
{
    let journal = empty(alloc)?;
    match Node::orderer(alloc, config, node, journal, WalkPlaces::new(alloc)) {
        Ok(node) => Ok(node),
        Err(_) => Err("memory")?,
    }
}

fn new_node(alloc: Global, config: Config, node: NodeId) -> Result<OnDisks, Fail>
    requires { node.0 < nodes_of (shape config) }
    ensures { IfOk result (λ n. cluster_node (λ j. j.journal) n ≡ first_node (shape config) (payloads_on []) node.0) }
{
    match role_of(&config, node) {
        Role::Storage { .. } => storage(alloc, config, node),
        Role::Gatherer { .. } => Ok(Node::gatherer(alloc, config, node)),
        Role::Orderer { .. } => orderer(alloc, config, node),
    }
}

fn all_nodes(alloc: Global, config: Config) -> Result<Vec<OnDisks>, Fail>
    ensures { IfOk result (λ nodes. AreFirstOf (shape config) (nodes_of (shape config)) (map (cluster_node (λ j. j.journal)) nodes.items)) }
{
    let mut all = Vec::new(alloc);
    for number in 0..nodes(&config) {
        let node = new_node(alloc, config, NodeId(number))?;
        all.push(node)?;
    }
    Ok(all)
}

fn small() -> Result<Config, Fail>
    ensures { IfOk result (λ config. shape config ≡ trio) }
{
    Ok(Config::new(1, 1, 1, 1)?)
}

// A cluster that has just begun, and its two passes.
fn start(alloc: Global) -> Result<(Trio, Vec<Pass<OnDisk, WalkPlaces>>), Fail>
    ensures config { IfOk result (λ made. shape made.0.config ≡ trio) }
    ensures begun { IfOk result (λ made. IsBegun (shape made.0.config) made.0.run (payloads_on made.0.kept) (map node_in (deal_of (counted_node (λ j. j.journal)) made.0.cells.table.shared.key).starts)) }
    ensures count { IfOk result (λ made. length made.1.items ≡ made.0.cells.table.shared.key.passes) }
    ensures passes { IfOk result (λ made. (k : ℕ) (pass : _) → slice_get made.1.items k ≡ Some pass
        → IsPassOf (shape made.0.config) made.0.run (payloads_on made.0.kept) made.0.cells.table.shared.table_id k pass.seat) }
{
    let config = small()?;
    let nodes = all_nodes(alloc, config)?;
    match Cluster::start(alloc, config, 1, Vec::new(alloc), nodes, 2) {
        Ok(made) => return Ok(made),
        Err(_) => return Err("memory")?,
    }
}

// The cluster with the first of them.
fn begin(alloc: Global) -> Result<(Trio, Pass<OnDisk, WalkPlaces>), Fail>
    ensures config { IfOk result (λ made. shape made.0.config ≡ trio) }
    ensures pass { IfOk result (λ made. IsPassOf (shape made.0.config) made.0.run (payloads_on made.0.kept) made.0.cells.table.shared.table_id made.1.account.number made.1.seat) }
{
    let (cluster, passes) = start(alloc)?;
    let pass = first_of(passes)?;
    Ok((cluster, pass))
}

fn first_of<T: Drop>(passes: Vec<T>) -> Result<T, Fail>
    ensures { IfOk result (λ pass. slice_get passes.items 0 ≡ Some pass) }
{
    let mut passes = passes;
    if passes.is_empty() {
        return Err("no pass")?;
    }
    Ok(passes.remove(0))
}

// The letter that goes out with the order to lead comes back to the orderer in its turn.
#[test]
fn calls_are_events_in_turn(rt: HostRuntime) -> Result<(), Fail> {
    let (cluster, mut pass) = begin(rt.alloc())?;
    let told = cluster.lead(&mut pass, 0)?;
    assert_eq!(rt; told, Turn::Handled { place: 4, lost: 0 });
    let told = cluster.turn(&mut pass, NodeId(2))?;
    assert_eq!(rt; told, Turn::Handled { place: 5, lost: 0 });
    let read = Call::Read {
        client: Client(0),
        position: Position(0),
    };
    match cluster.call(&mut pass, NodeId(0), read)? {
        Called::Answered {
            place,
            reply: Reply::PendingRead { end },
        } => {
            assert_eq!(rt; place, 6);
            assert_eq!(rt; end, Position(0));
        }
        _ => return Err("answer")?,
    }
    Ok(())
}

// The events of a cluster that is closed at once: each node starts, and the orderer is ordered to lead.
#[test]
fn a_cluster_is_closed(rt: HostRuntime) -> Result<(), Fail> {
    let (cluster, passes) = start(rt.alloc())?;
    let Ok((history, nodes)) = cluster.close(passes) else {
        return Err("memory")?;
    };
    assert_eq!(rt; nodes.len(), 3);
    let events = history.events.get();
    assert_eq!(rt; events.len(), 4);
    for event in events {
        let is_last = event.place == 3;
        let is_so = match event.happened.input {
            Input::Restart => !is_last && event.node.0 as u32 == event.place,
            Input::Lead => is_last && event.node == NodeId(2),
            _ => false,
        };
        assert!(rt; is_so);
    }
    Ok(())
}
