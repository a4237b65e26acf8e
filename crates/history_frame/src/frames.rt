//! Reading a frame from a source.

ghost use Rattle.std.specs.Prelude.{◌≡◌, ℕ, ◌<◌, ◌≤◌, length, slice_index, OnOk, OnErr};
ghost use Rattle.std.specs.Io.KnownBytes.{Consumes, IsAtEnd};
ghost use Rattle.log_base.specs.Outside.{Rose, unread, ReadsOn, TakesOn};
ghost use Rattle.history_frame.specs.Reader.{FindsFrame};

use crate::frame_reading::find_piece;
use crate::pieces::Piece;
use crate::stages::Stage;
use log_base::{Memory, PieceReader, Source, Stop, number_u32};
use reply_frame::ItemFault;
use std::alloc::Global;

/// How long a frame may be behind its length.
const LONGEST: u32 = 2_097_152;

/// Reads the piece of the next frame, which begins at a place, and answers how many bytes its frame has, or none where the
/// source is at its end. The parts of the frame are read into a buffer.
pub fn read_framed<S: Source>(
    alloc: Global,
    stage: Stage,
    events: u32,
    place: u64,
    pieces: &mut PieceReader,
    source: &mut S,
    frame: &mut Vec<u8>,
    piece: &mut Piece,
) -> Result<Option<u32>, ItemFault>
    ensures finds { FindsFrame stage events (unread pieces.old.pending (S.left source.old)) (unread pieces.new.pending (S.left source.new)) piece.new result }
    ensures passes { ReadsOn (unread pieces.old.pending (S.left source.old)) (unread pieces.new.pending (S.left source.new)) }
    ensures taken { TakesOn pieces.old.taken pieces.new.taken (S.left source.old) (S.left source.new) }
    ensures bad { (at : ℕ) → result ≡ Err (ItemFault.Bad at) → at ≡ place }
    ensures read { (at : ℕ) → result ≡ Err (ItemFault.Read at) → Rose (S.faults source.old) (S.faults source.new) × (at ≡ pieces.new.taken) }
    ensures later { S.faults source.old ≤ S.faults source.new }
{
    take(pieces, source, 4, frame)?;
    if frame.is_empty() {
        return Ok(None);
    }
    if frame.len() < 4 {
        return Err(ItemFault::Bad { at: place });
    }
    let length = number_u32(frame, 0);
    if length == 0 || length > LONGEST {
        return Err(ItemFault::Bad { at: place });
    }
    take(pieces, source, length as usize, frame)?;
    if frame.len() < length as usize {
        return Err(ItemFault::Bad { at: place });
    }
    let (kind, body) = frame.split_at(1);
    match find_piece(alloc, stage, events, kind[0], body, piece) {
        Ok(Some(())) => Ok(Some(length + 4)),
        Ok(None) => Err(ItemFault::Bad { at: place }),
        Err(Memory) => Err(ItemFault::Memory),
    }
}

/// The next bytes, as many as are wanted, or all that are left where those are fewer, in place of those of a buffer.
fn take<S: Source>(
    pieces: &mut PieceReader,
    source: &mut S,
    wanted: usize,
    bytes: &mut Vec<u8>,
) -> Result<(), ItemFault>
    ensures bytes { OnOk result (Consumes (unread pieces.old.pending (S.left source.old)) (unread pieces.new.pending (S.left source.new)) bytes.new.items) }
    ensures count { OnOk result (length bytes.new.items ≤ wanted) }
    ensures short { OnOk result (length bytes.new.items < wanted → IsAtEnd (unread pieces.new.pending (S.left source.new))) }
    ensures fits { OnOk result ((k : ℕ) → slice_index bytes.new.items k < 256) }
    ensures err { OnErr result (ReadsOn (unread pieces.old.pending (S.left source.old)) (unread pieces.new.pending (S.left source.new))) }
    ensures taken { TakesOn pieces.old.taken pieces.new.taken (S.left source.old) (S.left source.new) }
    ensures read { (at : ℕ) → result ≡ Err (ItemFault.Read at) → Rose (S.faults source.old) (S.faults source.new) × (at ≡ pieces.new.taken) }
    ensures bad { (at : ℕ) → result ≡ Err (ItemFault.Bad at) → ⊥ }
    ensures many { (cause : ℕ) → result ≡ Err (ItemFault.Many cause) → ⊥ }
    ensures later { S.faults source.old ≤ S.faults source.new }
{
    match pieces.take_into(source, wanted, bytes) {
        Ok(()) => Ok(()),
        Err(Stop::Read) => Err(ItemFault::Read { at: pieces.taken() }),
        Err(Stop::Memory) => Err(ItemFault::Memory),
    }
}
