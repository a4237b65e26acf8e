//! Clusters of threads over sources, sinks and racks in memory.

ghost use Rattle.std.specs.Prelude.{◌≤◌};

use crate::checking_tests::check_on;
use crate::tests::{NEVER, Outcome, run_anew};
use crate::{Options, run_cluster, status};
use disk_base::MemoryRack;
use log_base::{Config, MemorySink, MemorySource};
use node_threads::{Gate, OpenGate};
use std::alloc::Global;
use std::sync::Wait;
use std::sync::atomic::{AtomicU64, Ordering};
use std::test::Fail;
use std::thread;
use std::thread::Threads;

const CLUSTER: [&str; 1] = ["cluster"];

// Add 0.
const ADD: &[u8] = b"\0\0\0\x04\x05\0\0\0";

// Add 0 and Append "a" to 0.0 on lane 0, and the same on lane 1.
const TWO_LANES: &[u8] =
    b"\0\0\0\x04\x05\0\0\0\0\0\0\x06\x01\0\0\0\0a\0\0\0\x04\x05\x01\0\0\0\0\0\x06\x01\x01\0\0\0a";

// A hold, and Add 0.
const HOLD: &[u8] = b"\0\0\0\x06\x08\0hold\0\0\0\x04\x05\0\0\0";

// Add 0, and a hold.
const HOLD_BEHIND: &[u8] = b"\0\0\0\x04\x05\0\0\0\0\0\0\x06\x08\0hold";

// The frame of status 3 with place 0, and with place 8.
const BAD_AT_FIRST: &[u8] = b"\0\0\0\x0f\x7f\x03\0\0\0\0\0\0\0\0\0\0\0\0\0";

const BAD_BEHIND: &[u8] = b"\0\0\0\x0f\x7f\x03\0\0\0\0\0\0\0\0\0\0\0\0\x08";

// The head of a history of one replica of one shard, one orderer and one gatherer.
const HEAD: &[u8] = b"\x60\x01\x01\x01\x01\0\0\0\x01";

// The heads of the first events: nodes 0, 1 and 2 restart, and node 2, the orderer, is ordered to lead.
const OPENING: [&[u8]; 4] = [
    b"\x62\0\0\x06",
    b"\x62\0\x01\x06",
    b"\x62\0\x02\x06",
    b"\x62\0\x02\x04",
];

/// How often a lane looks for the other before the gate opens all the same.
const TRIES: u32 = 10_000_000;

/// Holds item 1 of lanes 0 and 1 back until item 0 of the other has its reply.
#[derive(Drop)]
struct Meeting {
    first: AtomicU64,
    second: AtomicU64,
    given_up: AtomicU64,
}

impl Gate for Meeting {
    fn before(&self, lane: u8, item: u32) {
        let other = if lane == 0 { &self.second } else { &self.first };
        if item == 1 && !is_set(other) {
            self.given_up.store(1, Ordering::SeqCst);
        }
    }

    fn after(&self, lane: u8, item: u32) {
        let own = if lane == 0 { &self.first } else { &self.second };
        if item == 0 {
            own.store(1, Ordering::SeqCst);
        }
    }
}

/// Waits for the word for so many tries.
fn is_set(word: &AtomicU64) -> bool {
    for _ in 0..TRIES {
        if word.load(Ordering::SeqCst) == 1 {
            return true;
        }
        thread::yield_now();
    }
    false
}

/// What a cluster with so many workers comes to over empty disks.
fn serve_anew<R: Threads + Wait + Sync, G: Gate>(
    rt: &R,
    alloc: Global,
    config: Config,
    workers: u8,
    input: &[u8],
    gate: &G,
) -> Result<Outcome, Fail>
    requires { (1 ≤ workers) × (workers ≤ 8) }
{
    let options = Options {
        config,
        run: 1,
        folder: None,
        brief: false,
        workers,
    };
    let bytes = Vec::from_slice(alloc, input)?;
    let mut source = MemorySource::new(bytes, 4_096, Vec::new(alloc));
    let mut sink = MemorySink::new(alloc, 16_777_216, 4_096, Vec::new(alloc))
        .ok()
        .ok_or("memory")?;
    let mut rack = MemoryRack::new(alloc);
    let status = run_cluster(rt, alloc, &options, &mut source, &mut sink, &mut rack, gate);
    let sent = Vec::from_slice(alloc, sink.bytes())?;
    Ok(Outcome { status, sent })
}

/// The frame that begins the bytes, and the bytes behind it.
fn first_frame(bytes: &[u8]) -> Option<(&[u8], &[u8])> {
    let (length, rest) = bytes.split_at_checked(4)?;
    let length = u32::from_be_bytes([length[0], length[1], length[2], length[3]]);
    rest.split_at_checked(length as usize)
}

#[test]
fn two_lanes_meet(rt: HostRuntime) -> Result<(), Fail> {
    let meeting = Meeting {
        first: AtomicU64::new(0),
        second: AtomicU64::new(0),
        given_up: AtomicU64::new(0),
    };
    let config = Config::new(1, 1, 1, 1).ok().ok_or("config")?;
    let outcome = serve_anew(&rt, rt.alloc(), config, 1, TWO_LANES, &meeting)?;
    assert_eq!(rt; outcome.status, status::DONE);
    assert_eq!(rt; meeting.given_up.load(Ordering::SeqCst), 0);
    let checked = check_on(rt.alloc(), &outcome.sent, NEVER, NEVER)?;
    assert_eq!(rt; checked.status, status::DONE);
    Ok(())
}

#[test]
fn one_worker_opens(rt: HostRuntime) -> Result<(), Fail> {
    let config = Config::new(1, 1, 1, 1).ok().ok_or("config")?;
    let outcome = serve_anew(&rt, rt.alloc(), config, 1, ADD, &OpenGate)?;
    assert_eq!(rt; outcome.status, status::DONE);
    let checked = check_on(rt.alloc(), &outcome.sent, NEVER, NEVER)?;
    assert_eq!(rt; checked.status, status::DONE);
    let (reply, rest) = first_frame(&outcome.sent).ok_or("a reply")?;
    assert!(rt; reply.starts_with(b"\x40\0"));
    let (head, mut rest) = first_frame(rest).ok_or("a head")?;
    assert_eq!(rt; head, HEAD);
    for wanted in &OPENING {
        let (event, behind) = first_frame(rest).ok_or("an event")?;
        assert!(rt; event.starts_with(wanted));
        rest = behind;
    }
    Ok(())
}

#[test]
fn lines_are_no_items(rt: HostRuntime) -> Result<(), Fail> {
    for (input, wanted) in [(HOLD, BAD_AT_FIRST), (HOLD_BEHIND, BAD_BEHIND)] {
        let outcome = run_anew(&rt, rt.alloc(), &CLUSTER, input)?;
        assert_eq!(rt; outcome.status, status::BAD_INPUT);
        assert_eq!(rt; outcome.sent.as_slice(), wanted);
    }
    Ok(())
}
