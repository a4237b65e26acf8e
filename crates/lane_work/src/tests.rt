//! A cluster of one storage node, 0, the gatherer 1 and the orderer 2, over disks in memory, which are empty.

ghost use Rattle.std.specs.Prelude.{◌≡◌, ◌<◌, ◌≤◌, ℕ, [], length, map, slice_get, Some, IfOk};
ghost use Rattle.core_step.specs.Standing.{cluster_node};
ghost use Rattle.core_step.specs.Starting.{IsOrderer, IsStorage};
ghost use Rattle.log_base.specs.Shape.{shape};
ghost use Rattle.node_model.specs.Sound.{payloads_on};
ghost use Rattle.node_table.specs.Numbering.{nodes_of, role_at};
ghost use Rattle.segment_journal.specs.Journalled.{loaded};
ghost use Rattle.cluster.specs.Clusters.{first_node};
ghost use Rattle.cluster.specs.Tested.{AreEmpty, AreFirstOf, trio};
ghost use Rattle.lane_work.specs.Lanes.{FitsLane};
ghost use Rattle.std.specs.List.{AllByRecursion};
ghost use Rattle.command_frame.specs.Items.{IsNoFault};
ghost use Rattle.lane_work.specs.OwnItems.{AreItems};

use crate::*;
use cluster::{Cluster, Pass, Turn};
use command_frame::Item;
use core_step::Node;
use cut_chain::WalkPlaces;
use disk_base::MemoryDisk;
use log_base::{Bytes, Config, NodeId, Position, Replica, Shard};
use node_table::{Role, nodes, role_of};
use node_threads::{OpenGate, Work};
use reply_frame::Reply;
use segment_journal::{Journal, SegmentJournal};
use std::alloc::Global;
use std::test::Fail;

type OnDisk = SegmentJournal<MemoryDisk>;

type OnDisks = Node<OnDisk, WalkPlaces>;

type Trio = Cluster<OnDisk, WalkPlaces>;

type TrioPass = Pass<OnDisk, WalkPlaces>;

fn empty(alloc: Global) -> Result<OnDisk, Fail>
    ensures { IfOk result (λ j. j.journal ≡ loaded []) }
{
    match SegmentJournal::load(alloc, MemoryDisk::of(alloc, Vec::new(alloc))) {
        Ok(journal) => {
            if journal.len() != 0 {
                return Err("a payload")?;
            }
            Ok(journal)
        }
        Err(_refused) => Err("load")?,
    }
}

fn journals(alloc: Global, count: u8) -> Result<Vec<OnDisk>, Fail>
    ensures empty { IfOk result (λ journals. AreEmpty (λ j. j.journal) journals.items) }
    ensures count { IfOk result (λ journals. length journals.items ≡ count) }
{
    let mut journals = Vec::new(alloc);
    for segment in 0..count {
        let _ = segment;
        let journal = empty(alloc)?;
        journals.push(journal)?;
    }
    Ok(journals)
}

fn storage(alloc: Global, config: Config, node: NodeId) -> Result<OnDisks, Fail>
    requires within { node.0 < nodes_of (shape config) }
    requires role { IsStorage (role_at (shape config) node.0) }
    ensures { IfOk result (λ n. cluster_node (λ j. j.journal) n ≡ first_node (shape config) (payloads_on []) node.0) }
{
    let journals = journals(alloc, config.replicas())?;
    match Node::storage(alloc, config, node, journals, WalkPlaces::new(alloc)) {
        Ok(node) => Ok(node),
        Err(_) => Err("memory")?,
    }
}

fn orderer(alloc: Global, config: Config, node: NodeId) -> Result<OnDisks, Fail>
    requires within { node.0 < nodes_of (shape config) }
    requires role { IsOrderer (role_at (shape config) node.0) }
    ensures { IfOk result (λ n. cluster_node (λ j. j.journal) n ≡ first_node (shape config) (payloads_on []) node.0) }
{
    let journal = empty(alloc)?;
    match Node::orderer(alloc, config, node, journal, WalkPlaces::new(alloc)) {
        Ok(node) => Ok(node),
        Err(_) => Err("memory")?,
    }
}

fn new_node(alloc: Global, config: Config, node: NodeId) -> Result<OnDisks, Fail>
    requires { node.0 < nodes_of (shape config) }
    ensures { IfOk result (λ n. cluster_node (λ j. j.journal) n ≡ first_node (shape config) (payloads_on []) node.0) }
{
    match role_of(&config, node) {
        Role::Storage { .. } => storage(alloc, config, node),
        Role::Gatherer { .. } => Ok(Node::gatherer(alloc, config, node)),
        Role::Orderer { .. } => orderer(alloc, config, node),
    }
}

fn all_nodes(alloc: Global, config: Config) -> Result<Vec<OnDisks>, Fail>
    ensures { IfOk result (λ nodes. AreFirstOf (shape config) (nodes_of (shape config)) (map (cluster_node (λ j. j.journal)) nodes.items)) }
{
    let mut all = Vec::new(alloc);
    for number in 0..nodes(&config) {
        let node = new_node(alloc, config, NodeId(number))?;
        all.push(node)?;
    }
    Ok(all)
}

fn small() -> Result<Config, Fail>
    ensures { IfOk result (λ config. shape config ≡ trio) }
{
    Ok(Config::new(1, 1, 1, 1)?)
}

// A cluster that has just begun, and the first of its two passes.
fn begin(alloc: Global) -> Result<(Trio, TrioPass), Fail>
    ensures config { IfOk result (λ made. shape made.0.config ≡ trio) }
    ensures fits { IfOk result (λ made. FitsLane (shape made.0.config) made.0.run (payloads_on made.0.kept) made.0.cells.table.shared.table_id 0 made.1.seat) }
{
    let config = small()?;
    let nodes = all_nodes(alloc, config)?;
    match Cluster::start(alloc, config, 1, Vec::new(alloc), nodes, 2) {
        Ok((cluster, passes)) => {
            let pass = first_of(passes)?;
            Ok((cluster, pass))
        }
        Err(_) => Err("memory")?,
    }
}

fn first_of<T: Drop>(passes: Vec<T>) -> Result<T, Fail>
    ensures { IfOk result (λ pass. slice_get passes.items 0 ≡ Some pass) }
{
    let mut passes = passes;
    if passes.is_empty() {
        return Err("no pass")?;
    }
    Ok(passes.remove(0))
}

// Its events have the places 4 to 195, behind the opening.
#[test]
fn a_worker_turns_all_nodes(rt: HostRuntime) -> Result<(), Fail> {
    let (cluster, mut pass) = begin(rt.alloc())?;
    let work = LaneWork::new(cluster, Vec::new(rt.alloc()));
    work.worker(&rt, &mut pass)?;
    assert_eq!(rt; pass.used(), 192);
    let cluster = work.into_cluster();
    let told = cluster.turn(&mut pass, NodeId(0))?;
    assert_eq!(rt;
        told,
        Turn::Handled {
            place: 196,
            lost: 0
        }
    );
    Ok(())
}

// An addition and an append, of lane 0.
fn some_items(alloc: Global) -> Result<Vec<Item>, Fail>
    ensures items { IfOk result (λ items. AreItems trio items.items × (length items.items ≤ 65536)) }
    ensures no_faults { IfOk result (λ items. AllByRecursion IsNoFault items.items) }
{
    let mut items = Vec::new(alloc);
    items.push(Item::Add {
        lane: 0,
        shard: Shard(0),
    })?;
    items.push(Item::Append {
        lane: 0,
        shard: Shard(0),
        replica: Replica(0),
        bytes: Bytes::of(Vec::new(alloc)),
    })?;
    Ok(items)
}

// The letters that would make the orderer lead are lost, and with no worker it hears of no time. So the addition is
// requested and asked for 257 times, with 256 rounds of three turns, and the append is refused.
#[test]
fn a_lane_serves_its_items(rt: HostRuntime) -> Result<(), Fail> {
    let (cluster, mut pass) = begin(rt.alloc())?;
    let items = some_items(rt.alloc())?;
    let work = LaneWork::new(cluster, items);
    let replies = work.lane(&rt, &mut pass, 0, &OpenGate)?;
    assert_eq!(rt; pass.used(), 1 + 257 + 256 * 3 + 1);
    match replies.get() {
        [Reply::PendingWish { known: 0 }, Reply::NotAdded] => Ok(()),
        _ => Err("replies")?,
    }
}
