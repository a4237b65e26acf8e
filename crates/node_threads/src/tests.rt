//! Lanes and workers that count, each in its token.

ghost use Rattle.std.specs.Prelude.{◌≡◌, ◌≢◌, ◌+◌, ◌*◌, ◌<◌, IfOk, IfErr};

use crate::*;
use log_base::Memory;
use std::alloc::Global;
use std::sync::Wait;
use std::sync::atomic::{AtomicU64, Ordering};
use std::test::Fail;
use std::thread;
use std::thread::Threads;

/// A lane has two items. Each adds the lane's number to its token, and the answer is what stood between them. A
/// worker adds 1, and memory runs out at the token 9. Tokens are below 1,000.
#[derive(Clone, Copy)]
struct Counting;

impl Work for Counting {
    type Token = u32;

    type Answers = u32;

    ghost fits_lane = { λ work lane token. token < 1000 };

    ghost lane_gives = { λ work lane before after answer. (answer ≡ before + lane) × (after ≡ before + 2 * lane) };

    ghost fits_worker = { λ work token. token < 1000 };

    ghost worker_gives = { λ work before after answer. (after ≡ before + 1) × IfOk answer (λ _. before ≢ 9) × IfErr answer (λ _. before ≡ 9) };

    fn lane<R: Wait, G: Gate>(&self, _rt: &R, token: &mut u32, lane: u8, gate: &G) -> u32 {
        gate.before(lane, 0);
        let between = *token + u32::from(lane);
        gate.after(lane, 0);
        gate.before(lane, 1);
        *token = between + u32::from(lane);
        gate.after(lane, 1);
        between
    }

    fn worker<R: Wait>(&self, _rt: &R, token: &mut u32) -> Result<(), Memory> {
        let was = *token;
        *token = was + 1;
        if was == 9 { Err(Memory) } else { Ok(()) }
    }
}

/// How often a lane looks for the other before the gate opens all the same.
const TRIES: u32 = 10_000_000;

/// Holds item 1 of lanes 0 and 1 back until item 0 of the other has its reply.
#[derive(Drop)]
struct Meeting {
    first: AtomicU64,
    second: AtomicU64,
    given_up: AtomicU64,
}

impl Gate for Meeting {
    fn before(&self, lane: u8, item: u32) {
        let other = if lane == 0 { &self.second } else { &self.first };
        if item == 1 && !is_set(other) {
            self.given_up.store(1, Ordering::SeqCst);
        }
    }

    fn after(&self, lane: u8, item: u32) {
        let own = if lane == 0 { &self.first } else { &self.second };
        if item == 0 {
            own.store(1, Ordering::SeqCst);
        }
    }
}

/// Waits for the word for so many tries.
fn is_set(word: &AtomicU64) -> bool {
    for _ in 0..TRIES {
        if word.load(Ordering::SeqCst) == 1 {
            return true;
        }
        thread::yield_now();
    }
    false
}

fn count<R: Threads + Wait + Sync, G: Gate>(
    rt: &R,
    alloc: Global,
    lanes: &[(u8, u32)],
    workers: &[u32],
    gate: &G,
) -> Result<Gathered<Counting>, Fail> {
    let fit = lanes.iter().all(|lane| lane.1 < 1000) && workers.iter().all(|token| *token < 1000);
    if !fit {
        return Err("a token that does not fit")?;
    }
    let lanes = Vec::from_slice(alloc, lanes)?;
    let workers = Vec::from_slice(alloc, workers)?;
    match fan_out(rt, alloc, &Counting, lanes, workers, gate) {
        Ok(gathered) => Ok(gathered),
        Err(_) => Err("memory")?,
    }
}

/// Lanes and workers, and what they leave.
#[derive(Clone, Copy)]
struct Row<'a> {
    lanes: &'a [(u8, u32)],
    workers: &'a [u32],
    answers: &'a [u32],
    lanes_after: &'a [u32],
    turned: &'a [Result<(), Memory>],
    workers_after: &'a [u32],
}

#[test]
fn each_lane_and_worker_runs_once(rt: HostRuntime) -> Result<(), Fail> {
    let rows = [
        Row {
            lanes: &[(3, 10), (4, 20)],
            workers: &[8, 9],
            answers: &[13, 24],
            lanes_after: &[16, 28],
            turned: &[Ok(()), Err(Memory)],
            workers_after: &[9, 10],
        },
        Row {
            lanes: &[],
            workers: &[1, 2, 3],
            answers: &[],
            lanes_after: &[],
            turned: &[Ok(()), Ok(()), Ok(())],
            workers_after: &[2, 3, 4],
        },
        Row {
            lanes: &[(7, 0)],
            workers: &[],
            answers: &[7],
            lanes_after: &[14],
            turned: &[],
            workers_after: &[],
        },
        Row {
            lanes: &[],
            workers: &[],
            answers: &[],
            lanes_after: &[],
            turned: &[],
            workers_after: &[],
        },
    ];
    for row in &rows {
        let gathered = count(&rt, rt.alloc(), row.lanes, row.workers, &OpenGate)?;
        assert_eq!(rt; gathered.answers.as_slice(), row.answers);
        assert_eq!(rt; gathered.lanes.as_slice(), row.lanes_after);
        assert!(rt; gathered.turned.as_slice() == row.turned);
        assert_eq!(rt; gathered.workers.as_slice(), row.workers_after);
    }
    Ok(())
}

#[test]
fn two_lanes_run_beside_each_other(rt: HostRuntime) -> Result<(), Fail> {
    let gate = Meeting {
        first: AtomicU64::new(0),
        second: AtomicU64::new(0),
        given_up: AtomicU64::new(0),
    };
    let gathered = count(&rt, rt.alloc(), &[(0, 1), (1, 2)], &[5], &gate)?;
    assert_eq!(rt; gathered.answers.as_slice(), [1, 3].as_slice());
    assert_eq!(rt; gate.given_up.load(Ordering::SeqCst), 0);
    Ok(())
}
