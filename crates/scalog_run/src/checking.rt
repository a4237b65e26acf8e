//! Checking a history, and telling what was found.

ghost use Rattle.std.specs.Prelude.{◌≡◌, ℕ};
ghost use Rattle.log_base.specs.ClusterShape.{Shape};
ghost use Rattle.cluster_disks.specs.Lent.{disks};
ghost use Rattle.scalog_run.specs.Checking.{Checked, SendsLawful, Tells, sourcing, verdict_spelling};
ghost use Rattle.scalog_run.specs.Output.{Sinking, fault_frame, sinking};
ghost use Rattle.scalog_run.specs.Run.{Ran, World};
ghost use Rattle.scalog_run.specs.declared.report.Report.TheVariants.{Full};

use crate::fault::FaultFrame;
use crate::sending::{send_bytes, send_frame};
use crate::status;
use byteorder::{BigEndian, ByteOrder};
use disk_base::Disk;
use history_check::{CheckFault, Verdict, check};
use log_base::{Sink, Source};
use std::alloc::Global;

/// The kind of the frame of a verdict.
const VERDICT: u8 = 0x63;

/// Judges the history of a source, and sends how many events it has where it is legal, or the frame of a
/// fault. Replies before it are read and not judged. The source is read to its end before anything is sent.
pub fn check_history<S: Source, K: Sink>(alloc: Global, source: &mut S, sink: &mut K) -> u8
    ensures { Checked (sourcing (S.left source.old) (S.faults source.old)) (sourcing (S.left source.new) (S.faults source.new))
        (sinking (K.taken sink.old) (K.faults sink.old)) (sinking (K.taken sink.new) (K.faults sink.new)) result }
{
    let outcome = check(alloc, source);
    tell(sink, outcome)
}

/// What a run that is told in full sends at status 0 is a lawful history, and a check of it says so.
pub fn runs_are_lawful<D: Disk>()
    ensures { (config : Shape) (run : ℕ) (old new : World D) (sink_old sink_new : Sinking)
        → Ran (disks D.reads D.may_leave D.keeps_synced D.faults) config run Full old new sink_old sink_new 0 → SendsLawful sink_old sink_new }
{}

/// Sends what tells an outcome, and answers its status. Of want of memory nothing is sent.
fn tell<K: Sink>(sink: &mut K, outcome: Result<Verdict, CheckFault>) -> u8
    ensures { Tells outcome (sinking (K.taken sink.old) (K.faults sink.old)) (sinking (K.taken sink.new) (K.faults sink.new)) result }
{
    match outcome {
        Ok(Verdict::Lawful { events }) => send_bytes(sink, &verdict_frame(events), status::DONE),
        Ok(Verdict::Unlawful { place }) => send_frame(
            sink,
            fault(status::UNLAWFUL, 0, place.into()),
        ),
        Err(CheckFault::Bad { at }) => send_frame(sink, fault(status::BAD_INPUT, 0, at)),
        Err(CheckFault::Read { at }) => send_frame(sink, fault(status::READ_FAULT, 0, at)),
        Err(CheckFault::Many { cause }) => send_frame(sink, fault(status::TOO_MANY, cause, 0)),
        Err(CheckFault::Memory) => status::OUT_OF_MEMORY,
    }
}

/// What the frame of a fault tells, which is none of a disk.
fn fault(status: u8, cause: u8, at: u64) -> FaultFrame
    ensures { result ≡ fault_frame status cause 0 at }
{
    FaultFrame {
        status,
        cause,
        which: 0,
        at,
    }
}

/// The frame of a legal history with so many events.
#[tactic(auto, unfolding(log_base::specs::Wide::be4))]
fn verdict_frame(events: u32) -> [u8; 9]
    ensures { result ≡ verdict_spelling events }
{
    let mut count = [0; 4];
    BigEndian::write_u32(&mut count, events);
    [0, 0, 0, 5, VERDICT, count[0], count[1], count[2], count[3]]
}
