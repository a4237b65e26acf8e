//! A node that counts, over a journal on a disk in memory. The cluster has one storage node, 0, the gatherer 1
//! and the orderer 2.

ghost use Rattle.std.specs.Prelude.{◌≡◌, [], IfOk};
ghost use Rattle.log_base.specs.Shape.{shape};
ghost use Rattle.segment_journal.specs.Journalled.{loaded};
ghost use Rattle.core_step.specs.Tested.{trio};

use crate::CountedNode;
use core_step::Node;
use cut_chain::{Places, WalkPlaces};
use disk_base::MemoryDisk;
use history_frame::{Happened, Input, Mark};
use log_base::{Config, Machine, NodeId, Outbox};
use segment_journal::{Journal, SegmentJournal};
use std::alloc::Global;
use std::test::Fail;

type OnDisk = CountedNode<SegmentJournal<MemoryDisk>, WalkPlaces>;

fn small() -> Result<Config, Fail>
    ensures { IfOk result (λ config. shape config ≡ trio) }
{
    Ok(Config::new(1, 1, 1, 1)?)
}

fn empty(alloc: Global) -> Result<SegmentJournal<MemoryDisk>, Fail>
    ensures { IfOk result (λ j. j.journal ≡ loaded []) }
{
    match SegmentJournal::load(alloc, MemoryDisk::of(alloc, Vec::new(alloc))) {
        Ok(journal) => {
            if journal.len() != 0 {
                return Err("a payload")?;
            }
            Ok(journal)
        }
        Err(_refused) => Err("load")?,
    }
}

fn orderer(alloc: Global) -> Result<OnDisk, Fail> {
    let config = small()?;
    let journal = empty(alloc)?;
    match Node::orderer(alloc, config, NodeId(2), journal, WalkPlaces::new(alloc)) {
        Ok(node) => Ok(CountedNode::new(node)),
        Err(_) => Err("memory")?,
    }
}

// One event of an input that fits every node.
fn restart<J: Journal + Drop, P: Places>(
    alloc: Global,
    node: &mut CountedNode<J, P>,
) -> Result<Happened, Fail> {
    let mut out = Outbox::new(alloc);
    let input = Input::Restart;
    match node.ready(&input, &mut out) {
        Ok(()) => Ok(node.step(input, &mut out)),
        Err(_) => Err("memory")?,
    }
}

// A start that does not fail counts as none.
fn starts<J: Journal + Drop, P: Places>(
    alloc: Global,
    mut node: CountedNode<J, P>,
) -> Result<(), Fail> {
    if !node.is_down() {
        return Err("up at first")?;
    }
    let happened = restart(alloc, &mut node)?;
    if happened.mark != Mark::OpenedWithout {
        return Err("another mark")?;
    }
    if node.halted() != 0 || node.stayed() != 0 {
        return Err("counted")?;
    }
    if node.is_down() || node.into_node().is_down() {
        return Err("down after a start")?;
    }
    Ok(())
}

#[test]
fn a_start_goes_uncounted(rt: HostRuntime) -> Result<(), Fail> {
    let alloc = rt.alloc();
    starts(alloc, orderer(alloc)?)
}
