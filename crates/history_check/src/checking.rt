//! Reading and judging.

ghost use Rattle.std.specs.Prelude.{◌≡◌, ◌⊎◌, ℕ, ◌≤◌, List, [], Option, Some, IfErr, IfOk};
ghost use Rattle.history_frame.specs.declared.events.History.{History};
ghost use Rattle.history_frame.specs.declared.pieces.Piece.{Piece};
ghost use Rattle.log_base.specs.Outside.{Rose, TakesOn, unread};
ghost use Rattle.history_check.specs.Verdicts.{AreHistory, IsFault, IsTrueOf, IsVerdict, ReadsHistory, fault_of};
ghost use Rattle.history_check.specs.Judging.{GoesOn, Judges, JudgesAll};
ghost use Rattle.history_check.specs.declared.verdicts.Verdict.{Verdict};

use crate::judge::Judge;
use crate::verdicts::{CheckFault, Verdict};
use history_frame::{HistoryReader, Piece};
use log_base::Source;
use reply_frame::ItemFault;
use std::alloc::Global;

/// How many frames an input may have. As many have more than 2^62 bytes.
const FRAMES: u64 = 1 << 60;

/// The limit of frames, as it is told.
const TOO_MANY_FRAMES: u8 = 1;

/// How far an input was judged: there may be more of it, or there is none.
pub(crate) enum Course {
    Goes,
    Ends,
}

/// Whether the history that a source holds is legal. Replies before its head are read and not judged. The
/// source is read to its end, and a fault of reading goes before a verdict.
pub fn check<S: Source>(alloc: Global, source: &mut S) -> Result<Verdict, CheckFault>
    ensures verdict { IfOk result (λ verdict. ReadsHistory (S.left source.old) (S.left source.new) (λ history. IsVerdict history verdict)) }
    ensures fault { IfErr result (IsFault (λ at. Rose (S.faults source.old) (S.faults source.new) × TakesOn 0 at (S.left source.old) (S.left source.new)) (S.left source.old)) }
    ensures later { S.faults source.old ≤ S.faults source.new }

    // A history that is told and read without a fault has a verdict that is true of it, and no other one, unless memory ran out.
    ensures judged { (bytes : List ℕ) (history : History) → S.left source.old ≡ Some bytes → AreHistory bytes history
        → (Rose (S.faults source.old) (S.faults source.new) → ⊥) → IsTrueOf history result }
    ensures exact { (bytes : List ℕ) (history : History) (verdict : Verdict) → S.left source.old ≡ Some bytes → AreHistory bytes history → IsVerdict history verdict
        → (Rose (S.faults source.old) (S.faults source.new) → ⊥) → (result ≡ Ok verdict) ⊎ (result ≡ Err CheckFault.Memory) }
{
    judge_history(alloc, source)
}

// The verdict on the history of a source.
fn judge_history<S: Source>(alloc: Global, source: &mut S) -> Result<Verdict, CheckFault>
    ensures verdict { IfOk result (λ verdict. ReadsHistory (S.left source.old) (S.left source.new) (λ history. IsVerdict history verdict)) }
    ensures fault { IfErr result (IsFault (λ at. Rose (S.faults source.old) (S.faults source.new) × TakesOn 0 at (S.left source.old) (S.left source.new)) (S.left source.old)) }
    ensures later { S.faults source.old ≤ S.faults source.new }
{
    let mut reader = HistoryReader::new(alloc);
    let mut judge = judge_all(alloc, &mut reader, source)?;
    let verdict = judge.verdict(alloc)?;
    Ok(verdict)
}

// The judge of all frames of a source, from a reader that has read nothing.
fn judge_all<S: Source>(
    alloc: Global,
    reader: &mut HistoryReader,
    source: &mut S,
) -> Result<Judge, CheckFault>
    requires new { Judges (S.left source.old) (unread reader.old.pending (S.left source.old)) reader.old Judge.Waiting [] }
    requires untaken { reader.old.taken ≡ 0 }
    ensures judge { IfOk result (λ judge. (pieces : List Piece) × JudgesAll (S.left source.old) (unread reader.new.pending (S.left source.new)) reader.new judge pieces) }
    ensures fault { IfErr result (IsFault (λ at. Rose (S.faults source.old) (S.faults source.new) × TakesOn 0 at (S.left source.old) (S.left source.new)) (S.left source.old)) }
    ensures later { S.faults source.old ≤ S.faults source.new }
{
    let mut judge = Judge::Waiting;
    let mut piece = Piece::End;
    'frames: for _count in 0..FRAMES + 1 {
        match judge_next(alloc, reader, source, &mut piece, &mut judge) {
            Ok(Course::Goes) => {}
            Ok(Course::Ends) => return Ok(judge),
            Err(fault) => return Err(fault),
        }
    }
    Err(CheckFault::Many {
        cause: TOO_MANY_FRAMES,
    })
}

// Judges the next frame, whose piece is read into a place. After a fault nothing is said of the judge.
fn judge_next<S: Source>(
    alloc: Global,
    reader: &mut HistoryReader,
    source: &mut S,
    piece: &mut Piece,
    judge: &mut Judge,
) -> Result<Course, CheckFault>
    requires { (before : Option (List ℕ)) × (pieces : List Piece) × Judges before (unread reader.old.pending (S.left source.old)) reader.old judge.old pieces }
    ensures course { IfOk result (λ course. (before : Option (List ℕ)) (pieces : List Piece) → Judges before (unread reader.old.pending (S.left source.old)) reader.old judge.old pieces
        → GoesOn before (unread reader.new.pending (S.left source.new)) reader.new judge.new pieces course) }
    ensures fault { IfErr result (λ fault. (before : Option (List ℕ)) (pieces : List Piece) → Judges before (unread reader.old.pending (S.left source.old)) reader.old judge.old pieces
        → IsFault (λ at. Rose (S.faults source.old) (S.faults source.new) × (at ≡ reader.new.taken)) before fault) }
    ensures taken { TakesOn reader.old.taken reader.new.taken (S.left source.old) (S.left source.new) }
    ensures later { S.faults source.old ≤ S.faults source.new }
{
    match reader.next_into(source, piece) {
        Ok(()) => {}
        Err(fault) => return Err(told(fault)),
    }
    match piece {
        Piece::End => return Ok(Course::Ends),
        _ => {
            judge.take(alloc, piece)?;
            return Ok(Course::Goes);
        }
    }
}

// A fault of the reader, as the checker tells it.
fn told(fault: ItemFault) -> CheckFault
    ensures { result ≡ fault_of fault }
{
    match fault {
        ItemFault::Bad { at } => CheckFault::Bad { at },
        ItemFault::Read { at } => CheckFault::Read { at },
        ItemFault::Many { cause } => CheckFault::Many { cause },
        ItemFault::Memory => CheckFault::Memory,
    }
}
