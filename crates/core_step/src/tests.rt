//! Each call of a node once, over journals on disks in memory. The cluster has one storage node, 0, the
//! gatherer 1 and the orderer 2.

ghost use Rattle.std.specs.Prelude.{◌≡◌, [], ◌∷◌, IfOk};
ghost use Rattle.log_base.specs.Shape.{shape};
ghost use Rattle.segment_journal.specs.Journalled.{loaded};
ghost use Rattle.core_step.specs.Tested.{IsOneEmpty, trio};

use crate::Node;
use cut_chain::{Places, WalkPlaces};
use disk_base::{MemoryDisk, Plan};
use history_frame::{Effect, Happened, Input, Mark};
use log_base::{Config, Machine, NodeId, Outbox, Position};
use segment_journal::{Journal, SegmentJournal};
use std::alloc::Global;
use std::test::Fail;

type OnDisks = Node<SegmentJournal<MemoryDisk>, WalkPlaces>;

fn small() -> Result<Config, Fail>
    ensures { IfOk result (λ config. shape config ≡ trio) }
{
    Ok(Config::new(1, 1, 1, 1)?)
}

fn empty(alloc: Global) -> Result<SegmentJournal<MemoryDisk>, Fail>
    ensures { IfOk result (λ j. j.journal ≡ loaded []) }
{
    match SegmentJournal::load(alloc, MemoryDisk::of(alloc, Vec::new(alloc))) {
        Ok(journal) => {
            if journal.len() != 0 {
                return Err("a payload")?;
            }
            Ok(journal)
        }
        Err(_refused) => Err("load")?,
    }
}

fn one_journal(alloc: Global) -> Result<Vec<SegmentJournal<MemoryDisk>>, Fail>
    ensures { IfOk result (λ journals. IsOneEmpty (λ j. j.journal) journals.items) }
{
    let mut journals = Vec::new(alloc);
    journals.push(empty(alloc)?)?;
    Ok(journals)
}

fn storage(alloc: Global) -> Result<OnDisks, Fail> {
    let config = small()?;
    let journals = one_journal(alloc)?;
    match Node::storage(alloc, config, NodeId(0), journals, WalkPlaces::new(alloc)) {
        Ok(node) => Ok(node),
        Err(_) => Err("memory")?,
    }
}

fn gatherer(alloc: Global) -> Result<OnDisks, Fail> {
    let config = small()?;
    Ok(Node::gatherer(alloc, config, NodeId(1)))
}

fn orderer(alloc: Global) -> Result<OnDisks, Fail> {
    let config = small()?;
    let journal = empty(alloc)?;
    match Node::orderer(alloc, config, NodeId(2), journal, WalkPlaces::new(alloc)) {
        Ok(node) => Ok(node),
        Err(_) => Err("memory")?,
    }
}

// One event of an input that fits every node.
fn restart<J: Journal + Drop, P: Places>(
    alloc: Global,
    node: &mut Node<J, P>,
) -> Result<Happened, Fail> {
    let mut out = Outbox::new(alloc);
    let input = Input::Restart;
    match node.ready(&input, &mut out) {
        Ok(()) => Ok(node.step(input, &mut out)),
        Err(_) => Err("memory")?,
    }
}

// What it does with that input, which the caller keeps.
fn restart_again<J: Journal + Drop, P: Places>(
    alloc: Global,
    node: &mut Node<J, P>,
) -> Result<Effect, Fail> {
    let mut out = Outbox::new(alloc);
    let input = Input::Restart;
    match node.ready(&input, &mut out) {
        Ok(()) => Ok(node.act(&input, &mut out)),
        Err(_) => Err("memory")?,
    }
}

// Down at first, it starts, and gives so many journals back.
fn starts(alloc: Global, mut node: OnDisks, disks: usize) -> Result<(), Fail> {
    if !node.is_down() {
        return Err("up at first")?;
    }
    node.plan(Plan {
        after: 1,
        keep: 0,
        lose: false,
    });
    let happened = restart(alloc, &mut node)?;
    if happened.mark != Mark::OpenedWithout || node.is_down() {
        return Err("down after a start")?;
    }
    if restart_again(alloc, &mut node)?.mark != Mark::OpenedWithout {
        return Err("down after another start")?;
    }
    if (node.known(), node.end(), node.trim()) != (0, Position(0), Position(0)) {
        return Err("something is known")?;
    }
    if node.into_journals().len() != disks {
        return Err("other journals")?;
    }
    Ok(())
}

#[test]
fn nodes_of_each_role_start(rt: HostRuntime) -> Result<(), Fail> {
    let alloc = rt.alloc();
    starts(alloc, storage(alloc)?, 1)?;
    starts(alloc, gatherer(alloc)?, 0)?;
    starts(alloc, orderer(alloc)?, 1)
}
