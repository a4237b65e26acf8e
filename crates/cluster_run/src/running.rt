//! The lanes and the workers of a cluster run, each in a thread.

ghost use Rattle.std.specs.Prelude.{◌≡◌, ◌+◌, ◌≤◌, [], ℕ, length, map, slice_get, IfOk, Some, vec_capacity};
ghost use Rattle.std.specs.List.{AllByRecursion};
ghost use Rattle.cluster.specs.Clusters.{IsPassOf};
ghost use Rattle.command_frame.specs.Items.{IsNoFault};
ghost use Rattle.log_base.specs.Shape.{shape};
ghost use Rattle.node_model.specs.Sound.{payloads_on};
ghost use Rattle.cluster_run.specs.Passes.{AreNew, HaveRun};
ghost use Rattle.lane_work.specs.OwnItems.{AreItems};

use crate::passes::{join, join_last, join_numbered, split};
use cluster::{Cluster, Pass};
use command_frame::Item;
use cut_chain::Places;
use lane_work::LaneWork;
use log_base::{List, Memory};
use node_threads::{Gate, fan_out};
use reply_frame::Reply;
use segment_journal::Journal;
use std::alloc::Global;
use std::marker::Send;
use std::sync::Wait;
use std::thread::Threads;

/// Room for the passes of lanes, for the others, and for all of them.
#[derive(Drop)]
pub(crate) struct Room<T> {
    pub(crate) lanes: Vec<(u8, T)>,
    pub(crate) others: Vec<T>,
    pub(crate) all: Vec<T>,
}

/// Room for the passes of so many lanes and workers.
pub(crate) fn room_for<T: Drop>(alloc: Global, lanes: u8, workers: u8) -> Result<Room<T>, Memory>
    ensures empty { IfOk result (λ room. (room.lanes.items ≡ []) × (room.others.items ≡ []) × (room.all.items ≡ [])) }
    ensures room { IfOk result (λ room. (lanes ≤ vec_capacity room.lanes) × (workers + 1 ≤ vec_capacity room.others) × (lanes + workers + 1 ≤ vec_capacity room.all)) }
{
    let lanes = lanes as usize;
    let workers = workers as usize;
    Ok(Room {
        lanes: Vec::with_capacity(alloc, lanes)?,
        others: Vec::with_capacity(alloc, workers + 1)?,
        all: Vec::with_capacity(alloc, lanes + workers + 1)?,
    })
}

/// What the lanes and what the workers answered.
#[derive(Drop)]
pub(crate) struct LaneAnswers {
    pub(crate) lanes: Vec<Result<List<Reply>, Memory>>,
    pub(crate) workers: Vec<Result<(), Memory>>,
}

/// Runs each lane, from 0 on, and each worker, with the passes in this order; the last pass stays as it is. The
/// cluster and its passes come back, with what the lanes and the workers answered. Where memory runs out before they
/// begin, none does anything.
pub(crate) fn run_all<
    R: Threads + Wait + Sync,
    J: Journal + Drop + Send,
    P: Places + Send,
    G: Gate,
>(
    rt: &R,
    alloc: Global,
    cluster: Cluster<J, P>,
    items: Vec<Item>,
    passes: Vec<Pass<J, P>>,
    room: Room<Pass<J, P>>,
    lanes: u8,
    workers: u8,
    gate: &G,
) -> (Cluster<J, P>, Vec<Pass<J, P>>, Result<LaneAnswers, Memory>)
    requires few { length items.items ≤ 65536 }
    requires items { AreItems (shape cluster.config) items.items }
    requires no_faults { AllByRecursion IsNoFault items.items }
    requires new { AreNew (shape cluster.config) cluster.run (payloads_on cluster.kept) cluster.cells.table.shared.table_id (lanes + workers) (map (λ p. (p.seat, p.account)) passes.items) }
    requires empty { (room.lanes.items ≡ []) × (room.others.items ≡ []) × (room.all.items ≡ []) }
    requires room { (lanes ≤ vec_capacity room.lanes) × (workers + 1 ≤ vec_capacity room.others) × (lanes + workers + 1 ≤ vec_capacity room.all) }
    ensures cluster { result.0 ≡ cluster }
    ensures ran { IfOk result.2 (λ answers. HaveRun (shape cluster.config) cluster.run (payloads_on cluster.kept) cluster.cells.table.shared.table_id items.items lanes workers
        (map (λ p. (p.seat, p.account)) passes.items) (map (λ p. (p.seat, p.account)) result.1.items) answers.lanes.items answers.workers.items) }
    ensures passes { (k : ℕ) (pass : _) → slice_get result.1.items k ≡ Some pass → IsPassOf (shape cluster.config) cluster.run (payloads_on cluster.kept) cluster.cells.table.shared.table_id k pass.seat }
    ensures count { length result.1.items ≡ lanes + workers + 1 }
{
    let (numbered, mut others) = split(passes, lanes, room.lanes, room.others);
    let Some(last) = others.pop() else {
        unreachable!()
    };
    let work = LaneWork::new(cluster, items);
    match fan_out(rt, alloc, &work, numbered, others, gate) {
        Ok(gathered) => {
            let passes = join(join(room.all, gathered.lanes), gathered.workers);
            let answers = LaneAnswers {
                lanes: gathered.answers,
                workers: gathered.turned,
            };
            return (work.into_cluster(), join_last(passes, last), Ok(answers));
        }
        Err((memory, numbered, others)) => {
            let passes = join(join_numbered(room.all, numbered), others);
            return (work.into_cluster(), join_last(passes, last), Err(memory));
        }
    }
}
