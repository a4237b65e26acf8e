//! Reading the piece that a frame stands for.

ghost use Rattle.std.specs.Prelude.{◌≡◌, ℕ, ◌≤◌, length, IfOk, MatchOption};
ghost use Rattle.history_frame.specs.declared.pieces.Piece.{Piece};
ghost use Rattle.history_frame.specs.declared.stages.Stage.TheVariants.{Before};
ghost use Rattle.history_frame.specs.Frames.{Finds, IsInside, IsNone, Means, placed};

use crate::bodies::{read_event, read_head, read_kept, read_lane_reply};
use crate::pieces::Piece;
use crate::stages::Stage;
use log_base::Memory;
use record_frame::Refusal;
use std::alloc::Global;

/// The kinds of the frames.
const REPLY: u8 = 0x40;

const HEAD: u8 = 0x60;

const KEPT: u8 = 0x61;

const EVENT: u8 = 0x62;

fn reply_piece(alloc: Global, events: u32, body: &[u8], piece: &mut Piece) -> Result<(), Refusal>
    ensures { Finds (Means Before events 64 body.now) (placed result piece.new) }
{
    let (_, _reply) = read_lane_reply(alloc, body)?;
    *piece = Piece::Reply;
    Ok(())
}

fn head_piece(events: u32, body: &[u8], piece: &mut Piece) -> Result<(), Refusal>
    ensures { Finds (Means Before events 96 body.now) (placed result piece.new) }
{
    let (config, run) = read_head(body)?;
    *piece = Piece::Head { config, run };
    Ok(())
}

fn kept_piece(
    alloc: Global,
    events: u32,
    least: u32,
    body: &[u8],
    piece: &mut Piece,
) -> Result<(), Refusal>
    ensures { Finds (Means (Stage.Keeping least) events 97 body.now) (placed result piece.new) }
{
    let kept = read_kept(alloc, body)?;
    if kept.disk < least {
        return Err(Refusal::BadNumber { at: 0 });
    }
    *piece = Piece::Kept(kept);
    Ok(())
}

fn event_piece(
    alloc: Global,
    stage: Stage,
    events: u32,
    body: &[u8],
    piece: &mut Piece,
) -> Result<(), Refusal>
    requires inside { IsInside stage }
    requires size { length body.now ≤ 2097151 }
    ensures { Finds (Means stage events 98 body.now) (placed result piece.new) }
{
    read_event(alloc, events, body, piece)
}

/// Reads a frame that stands before a history, or its head.
fn read_before(
    alloc: Global,
    events: u32,
    kind: u8,
    body: &[u8],
    piece: &mut Piece,
) -> Result<(), Refusal>
    ensures { Finds (Means Before events kind body.now) (placed result piece.new) }
{
    match kind {
        REPLY => reply_piece(alloc, events, body, piece),
        HEAD => head_piece(events, body, piece),
        _ => Err(Refusal::BadKind { byte: kind }),
    }
}

/// Reads a payload or an event.
fn read_keeping(
    alloc: Global,
    events: u32,
    least: u32,
    kind: u8,
    body: &[u8],
    piece: &mut Piece,
) -> Result<(), Refusal>
    requires { length body.now ≤ 2097151 }
    ensures { Finds (Means (Stage.Keeping least) events kind body.now) (placed result piece.new) }
{
    match kind {
        KEPT => kept_piece(alloc, events, least, body, piece),
        EVENT => event_piece(alloc, Stage::Keeping { least }, events, body, piece),
        _ => Err(Refusal::BadKind { byte: kind }),
    }
}

/// Reads an event.
fn read_running(
    alloc: Global,
    events: u32,
    kind: u8,
    body: &[u8],
    piece: &mut Piece,
) -> Result<(), Refusal>
    requires { length body.now ≤ 2097151 }
    ensures { Finds (Means Stage.Running events kind body.now) (placed result piece.new) }
{
    match kind {
        EVENT => event_piece(alloc, Stage::Running, events, body, piece),
        _ => Err(Refusal::BadKind { byte: kind }),
    }
}

/// Reads the piece that a frame of a kind with a body stands for, after so many events, if it stands for one.
pub fn find_piece(
    alloc: Global,
    stage: Stage,
    events: u32,
    kind: u8,
    body: &[u8],
    piece: &mut Piece,
) -> Result<Option<()>, Memory>
    requires { length body.now ≤ 2097151 }
    ensures { IfOk result (λ found. MatchOption found (IsNone (Means stage events kind body.now)) (λ _. Means stage events kind body.now piece.new)) }
{
    match read_piece(alloc, stage, events, kind, body, piece) {
        Ok(()) => Ok(Some(())),
        Err(refusal) => match refusal {
            Refusal::Memory => Err(Memory),
            Refusal::Short { .. } => Ok(None),
            Refusal::TooLong { .. } => Ok(None),
            Refusal::BadKind { .. } => Ok(None),
            Refusal::BadNumber { .. } => Ok(None),
            Refusal::Long { .. } => Ok(None),
        },
    }
}

/// Reads the piece of a frame.
fn read_piece(
    alloc: Global,
    stage: Stage,
    events: u32,
    kind: u8,
    body: &[u8],
    piece: &mut Piece,
) -> Result<(), Refusal>
    requires { length body.now ≤ 2097151 }
    ensures { Finds (Means stage events kind body.now) (placed result piece.new) }
{
    match stage {
        Stage::Before => read_before(alloc, events, kind, body, piece),
        Stage::Keeping { least } => read_keeping(alloc, events, least, kind, body, piece),
        Stage::Running => read_running(alloc, events, kind, body, piece),
    }
}
