//! The threads in which lanes and workers run.

ghost use denote.Param.Send.{IsSync};
ghost use Rattle.node_threads.specs.Runs.{HasRun, LanesRun, WorkersRun, LanesFit, WorkersFit};

use crate::gates::Gate;
use crate::slots::Slot;
use crate::working::Work;
use log_base::Memory;
use std::sync::Wait;
use std::thread::{Threads, for_each_mut, join};

/// Runs one lane.
fn run_lane<R: Wait, W: Work, G: Gate>(
    rt: &R,
    work: &W,
    gate: &G,
    slot: &mut Slot<u8, W::Token, W::Answers>,
)
    requires { W.fits_lane work.now slot.old.key slot.old.token }
    ensures { HasRun (W.lane_gives work.now slot.old.key) slot.old slot.new }
{
    slot.answer = Some(work.lane(rt, &mut slot.token, slot.key, gate));
}

/// Runs one worker.
fn run_worker<R: Wait, W: Work>(rt: &R, work: &W, slot: &mut Slot<(), W::Token, Result<(), Memory>>)
    requires { W.fits_worker work.now slot.old.token }
    ensures { HasRun (W.worker_gives work.now) slot.old slot.new }
{
    slot.answer = Some(work.worker(rt, &mut slot.token));
}

/// Runs each lane in a thread of its own, where one can be made.
fn run_lanes<R: Threads + Wait + Sync, W: Work, G: Gate>(
    rt: &R,
    work: &W,
    gate: &G,
    slots: &mut [Slot<u8, W::Token, W::Answers>],
)
    requires { LanesFit (W.fits_lane work.now) slots.old }
    ensures { LanesRun (W.lane_gives work.now) slots.old slots.new }
{
    let threads = slots.len().max(1);
    for_each_mut(
        rt,
        slots,
        threads,
        &|_: usize, slot: &mut Slot<u8, W::Token, W::Answers>|
            requires { W.fits_lane work.now slot.now.key slot.now.token }
            ensures { HasRun (W.lane_gives work.entry.now slot.entry.now.key) slot.entry.now slot.exit.now }
        { run_lane(rt, work, gate, slot) },
    );
}

/// Runs each worker in a thread of its own, where one can be made.
fn run_workers<R: Threads + Wait + Sync, W: Work>(
    rt: &R,
    work: &W,
    slots: &mut [Slot<(), W::Token, Result<(), Memory>>],
)
    requires { WorkersFit (W.fits_worker work.now) slots.old }
    ensures { WorkersRun (W.worker_gives work.now) slots.old slots.new }
{
    let threads = slots.len().max(1);
    for_each_mut(
        rt,
        slots,
        threads,
        &|_: usize, slot: &mut Slot<(), W::Token, Result<(), Memory>>|
            requires { W.fits_worker work.now slot.now.token }
            ensures { HasRun (W.worker_gives work.entry.now) slot.entry.now slot.exit.now }
        { run_worker(rt, work, slot) },
    );
}

/// As `run_lanes`, over a list.
fn all_lanes<R: Threads + Wait + Sync, W: Work, G: Gate>(
    rt: &R,
    work: &W,
    gate: &G,
    mut slots: Vec<Slot<u8, W::Token, W::Answers>>,
) -> Vec<Slot<u8, W::Token, W::Answers>>
    requires { LanesFit (W.fits_lane work.now) slots.items }
    ensures { LanesRun (W.lane_gives work.now) slots.items result.items }
{
    run_lanes(rt, work, gate, slots.as_mut_slice());
    slots
}

/// As `run_workers`, over a list.
fn all_workers<R: Threads + Wait + Sync, W: Work>(
    rt: &R,
    work: &W,
    mut slots: Vec<Slot<(), W::Token, Result<(), Memory>>>,
) -> Vec<Slot<(), W::Token, Result<(), Memory>>>
    requires { WorkersFit (W.fits_worker work.now) slots.items }
    ensures { WorkersRun (W.worker_gives work.now) slots.items result.items }
{
    run_workers(rt, work, slots.as_mut_slice());
    slots
}

/// Runs the lanes and the workers beside each other, and returns once all have ended. Where a thread cannot be
/// made, the caller runs that part itself.
pub(crate) fn run_all<R: Threads + Wait + Sync, W: Work, G: Gate>(
    rt: &R,
    work: &W,
    gate: &G,
    lanes: Vec<Slot<u8, W::Token, W::Answers>>,
    workers: Vec<Slot<(), W::Token, Result<(), Memory>>>,
) -> (
    Vec<Slot<u8, W::Token, W::Answers>>,
    Vec<Slot<(), W::Token, Result<(), Memory>>>,
)
    requires lanes { LanesFit (W.fits_lane work.now) lanes.items }
    requires workers { WorkersFit (W.fits_worker work.now) workers.items }
    ensures lanes { LanesRun (W.lane_gives work.now) lanes.items result.0.items }
    ensures workers { WorkersRun (W.worker_gives work.now) workers.items result.1.items }
{
    join(
        rt,
        move || -> Vec<Slot<u8, W::Token, W::Answers>>
            requires { IsSync R.row × IsSync W.row × IsSync G.row × LanesFit (W.fits_lane work.now) lanes.items }
            ensures { LanesRun (W.lane_gives work.entry.now) lanes.items result.items }
        { all_lanes(rt, work, gate, lanes) },
        move || -> Vec<Slot<(), W::Token, Result<(), Memory>>>
            requires { IsSync R.row × IsSync W.row × WorkersFit (W.fits_worker work.now) workers.items }
            ensures { WorkersRun (W.worker_gives work.entry.now) workers.items result.items }
        { all_workers(rt, work, workers) },
    )
}
