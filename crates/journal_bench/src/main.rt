//! The bench of the journal: puts payloads of 24 bytes into a journal over a disk in memory, as many as the first
//! word says, as often as the second word says. It prints nothing.
#![tactic(auto)]

ghost use Rattle.std.specs.Prelude.{◌≡◌, ◌≤◌, IfOk, false};

use disk_base::MemoryDisk;
use segment_journal::{Journal, SegmentJournal};
use std::alloc::Global;
use std::env;
use std::process::ExitCode;

/// What is put each time.
const PAYLOAD: [u8; 24] = [7; 24];

fn main(rt: HostRuntime) -> ExitCode {
    match bench(&rt) {
        Some(()) => ExitCode::SUCCESS,
        None => ExitCode::FAILURE,
    }
}

fn bench(rt: &HostRuntime) -> Option<()> {
    let mut words = env::args(rt).ok()?.skip(1);
    let count: u32 = words.next()?.parse().ok()?;
    let rounds: u32 = words.next()?.parse().ok()?;
    for _ in 0..rounds {
        put_all(rt.alloc(), count)?;
    }
    Some(())
}

/// One round. None where memory runs out, or a put fails.
fn put_all(alloc: Global, count: u32) -> Option<()> {
    let disk = MemoryDisk::of(alloc, Vec::new(alloc));
    let mut journal = match SegmentJournal::load(alloc, disk) {
        Ok(journal) => journal,
        Err(_) => return None,
    };
    for _ in 0..count {
        match put_one(&mut journal) {
            Some(()) => {}
            None => return None,
        }
    }
    Some(())
}

fn put_one(journal: &mut SegmentJournal<MemoryDisk>) -> Option<()> {
    if journal.is_halted() {
        return None;
    }
    match journal.ready(24) {
        Ok(()) => {}
        Err(_) => return None,
    }
    match journal.put(&PAYLOAD) {
        Ok(()) => return Some(()),
        Err(_) => return None,
    }
}
