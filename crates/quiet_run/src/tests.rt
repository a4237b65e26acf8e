//! Runs over disks in memory, which are empty at first. Of two shards of two replicas with one gatherer and three
//! orderers, nodes 0 to 3 store, 4 gathers, and 5 to 7 order.

ghost use Rattle.std.specs.Prelude.{◌≡◌, ◌<◌, ◌≤◌, ℕ, [], length, map, IfOk};
ghost use Rattle.std.specs.List.{AllByRecursion};
ghost use Rattle.command_frame.specs.Items.{IsItem};
ghost use Rattle.core_step.specs.Standing.{cluster_node};
ghost use Rattle.core_step.specs.Starting.{IsOrderer, IsStorage};
ghost use Rattle.log_base.specs.Shape.{shape};
ghost use Rattle.node_table.specs.Numbering.{nodes_of, role_at};
ghost use Rattle.segment_journal.specs.Journalled.{loaded};
ghost use Rattle.schedule_model.specs.Worked.{two_by_two};
ghost use Rattle.quiet_run.specs.Tested.{AreEmpty, AreFirst, first_node};

use crate::*;
use command_frame::{Item, Reply};
use core_step::Node;
use cut_chain::WalkPlaces;
use disk_base::MemoryDisk;
use log_base::{Bytes, Config, NodeId, Position, Replica, Shard};
use node_table::{Role, nodes, role_of};
use segment_journal::{Journal, SegmentJournal};
use std::alloc::Global;
use std::process::Abort;
use std::test::Fail;

type OnDisk = SegmentJournal<MemoryDisk>;

type OnDisks = Node<OnDisk, WalkPlaces>;

fn empty(alloc: Global) -> Result<OnDisk, Fail>
    ensures { IfOk result (λ j. j.journal ≡ loaded []) }
{
    match SegmentJournal::load(alloc, MemoryDisk::of(alloc, Vec::new(alloc))) {
        Ok(journal) => {
            if journal.len() != 0 {
                return Err("a payload")?;
            }
            Ok(journal)
        }
        Err(_refused) => Err("load")?,
    }
}

fn journals(alloc: Global, count: u8) -> Result<Vec<OnDisk>, Fail>
    ensures empty { IfOk result (λ journals. AreEmpty (λ j. j.journal) journals.items) }
    ensures count { IfOk result (λ journals. length journals.items ≡ count) }
{
    let mut journals = Vec::new(alloc);
    for segment in 0..count {
        let _ = segment;
        let journal = empty(alloc)?;
        journals.push(journal)?;
    }
    Ok(journals)
}

fn storage(alloc: Global, config: Config, node: NodeId) -> Result<OnDisks, Fail>
    requires within { node.0 < nodes_of (shape config) }
    requires role { IsStorage (role_at (shape config) node.0) }
    ensures { IfOk result (λ n. cluster_node (λ j. j.journal) n ≡ first_node (shape config) node.0) }
{
    let journals = journals(alloc, config.replicas())?;
    match Node::storage(alloc, config, node, journals, WalkPlaces::new(alloc)) {
        Ok(node) => Ok(node),
        Err(_) => Err("memory")?,
    }
}

fn orderer(alloc: Global, config: Config, node: NodeId) -> Result<OnDisks, Fail>
    requires within { node.0 < nodes_of (shape config) }
    requires role { IsOrderer (role_at (shape config) node.0) }
    ensures { IfOk result (λ n. cluster_node (λ j. j.journal) n ≡ first_node (shape config) node.0) }
{
    let journal = empty(alloc)?;
    match Node::orderer(alloc, config, node, journal, WalkPlaces::new(alloc)) {
        Ok(node) => Ok(node),
        Err(_) => Err("memory")?,
    }
}

fn new_node(alloc: Global, config: Config, node: NodeId) -> Result<OnDisks, Fail>
    requires { node.0 < nodes_of (shape config) }
    ensures { IfOk result (λ n. cluster_node (λ j. j.journal) n ≡ first_node (shape config) node.0) }
{
    match role_of(&config, node) {
        Role::Storage { .. } => storage(alloc, config, node),
        Role::Gatherer { .. } => Ok(Node::gatherer(alloc, config, node)),
        Role::Orderer { .. } => orderer(alloc, config, node),
    }
}

fn cluster(alloc: Global, config: Config) -> Result<Vec<OnDisks>, Fail>
    ensures { IfOk result (λ nodes. AreFirst (shape config) (nodes_of (shape config)) (map (cluster_node (λ j. j.journal)) nodes.items)) }
{
    let mut all = Vec::new(alloc);
    for number in 0..nodes(&config) {
        let node = new_node(alloc, config, NodeId(number))?;
        all.push(node)?;
    }
    Ok(all)
}

fn eight_nodes() -> Result<Config, Fail>
    ensures { IfOk result (λ config. shape config ≡ two_by_two) }
{
    Ok(Config::new(2, 2, 3, 1)?)
}

fn run(alloc: Global, items: &[Item]) -> Result<Driven, Fail>
    requires few { length items.now ≤ 65536 }
    requires items { AllByRecursion (IsItem two_by_two) items.now }
{
    let config = eight_nodes()?;
    let mut nodes = cluster(alloc, config)?;
    let kept = Vec::new(alloc);
    match drive(alloc, config, 1, items, kept, &mut nodes) {
        Ok(driven) => Ok(driven),
        Err(_) => Err("stopped")?,
    }
}

// An addition, an append of an empty record, and a read of it.
fn three_items(alloc: Global) -> Result<Vec<Item>, Fail>
    ensures few { IfOk result (λ items. length items.items ≤ 65536) }
    ensures items { IfOk result (λ items. AllByRecursion (IsItem two_by_two) items.items) }
{
    let items = vec![in alloc;
        Item::Add {
            lane: 0,
            shard: Shard(0)
        },
        Item::Append {
            lane: 0,
            shard: Shard(0),
            replica: Replica(0),
            bytes: Bytes::of(Vec::new(alloc))
        },
        Item::Read {
            lane: 0,
            shard: Shard(0),
            replica: Replica(0),
            position: Position(0)
        },
    ]?;
    Ok(items)
}

// How many events there were, and what is known.
fn is_told(rt: &impl Abort, driven: &Driven, events: usize, known: u32, end: u64) {
    assert_eq!(rt; driven.history.events.get().len(), events);
    assert_eq!(rt; driven.known, known);
    assert_eq!(rt; driven.end, Position(end));
    assert_eq!(rt; driven.trim, Position(0));
}

// The kind and the number of a reply.
fn said(reply: &Reply) -> (&'static str, u64) {
    match reply {
        Reply::Settled { slot } => ("settled", u64::from(slot.0)),
        Reply::At { position } => ("at", position.0),
        Reply::Found { position, .. } => ("found", position.0),
        _ => ("another", 0),
    }
}

#[test]
fn no_items_open_the_nodes(rt: HostRuntime) -> Result<(), Fail> {
    let driven = run(rt.alloc(), &[])?;
    assert_eq!(rt; driven.replies.get().len(), 0);
    is_told(&rt, &driven, 15, 0, 0);
    Ok(())
}

#[test]
fn an_append_is_found(rt: HostRuntime) -> Result<(), Fail> {
    let alloc = rt.alloc();
    let items = three_items(alloc)?;
    let driven = run(alloc, &items)?;
    is_told(&rt, &driven, 118, 2, 1);
    let expected = [("settled", 0), ("at", 0), ("found", 0)];
    for (reply, row) in driven.replies.get().iter().zip(expected) {
        assert_eq!(rt; said(reply), row);
    }
    Ok(())
}
