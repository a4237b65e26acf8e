//! Lanes and workers, each in a thread.

ghost use Rattle.std.specs.Prelude.{◌≡◌, All, IfOk, IfErr};
ghost use Rattle.node_threads.specs.Runs.{AllRan};

use crate::gates::Gate;
use crate::runs::run_all;
use crate::slots::{gather, lane_slots, room_for, worker_slots};
use crate::working::Work;
use log_base::Memory;
use std::alloc::Global;
use std::sync::Wait;
use std::thread::Threads;

/// What all lanes and workers left, in the orders in which they were given.
#[derive(Drop)]
pub struct Gathered<W: Work> {
    pub answers: Vec<W::Answers>,
    pub lanes: Vec<W::Token>,
    pub turned: Vec<Result<(), Memory>>,
    pub workers: Vec<W::Token>,
}

/// Runs each lane, of its number, and each worker in a thread of its own, and joins them all. Where a thread
/// cannot be made, the caller runs that part itself once it has done its own. Its `Memory` comes before any of
/// them runs. It may wait.
pub fn fan_out<R: Threads + Wait + Sync, W: Work, G: Gate>(
    rt: &R,
    alloc: Global,
    work: &W,
    lanes: Vec<(u8, W::Token)>,
    workers: Vec<W::Token>,
    gate: &G,
) -> Result<Gathered<W>, (Memory, Vec<(u8, W::Token)>, Vec<W::Token>)>
    requires lanes { All (λ lane. W.fits_lane work.now lane.0 lane.1) lanes.items }
    requires workers { All (W.fits_worker work.now) workers.items }
    ensures lanes { IfOk result (λ g. AllRan (λ lane. W.lane_gives work.now lane.0 lane.1) lanes.items g.lanes.items g.answers.items) }
    ensures workers { IfOk result (λ g. AllRan (W.worker_gives work.now) workers.items g.workers.items g.turned.items) }
    ensures back { IfErr result (λ e. (e.1 ≡ lanes) × (e.2 ≡ workers)) }
{
    let Ok(for_lanes) = room_for(alloc, lanes.len()) else {
        return Err((Memory, lanes, workers));
    };
    let Ok(for_workers) = room_for(alloc, workers.len()) else {
        return Err((Memory, lanes, workers));
    };
    let lanes = lane_slots(lanes, for_lanes.slots);
    let workers = worker_slots(workers, for_workers.slots);
    let (lanes, workers) = run_all(rt, work, gate, lanes, workers);
    let (lanes, answers) = gather(lanes, for_lanes.tokens, for_lanes.answers);
    let (workers, turned) = gather(workers, for_workers.tokens, for_workers.answers);
    Ok(Gathered {
        answers,
        lanes,
        turned,
        workers,
    })
}
