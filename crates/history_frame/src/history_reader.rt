//! The reader of a history.

ghost use Rattle.std.specs.Prelude.{◌≡◌, ℕ, ◌+◌, ◌≤◌, ◌^◌, ◌-◌, min, [], length, Some, None, Ok, IfSome};
ghost use Rattle.log_base.specs.Outside.{Rose, unread, ReadsOn, TakesOn};
ghost use Rattle.history_frame.specs.declared.stages.Stage.TheVariants.{Before};
ghost use Rattle.history_frame.specs.Frames.{IsInside, placed};
ghost use Rattle.history_frame.specs.Reader.{Answers, FitsFrame, counted, events_in, event_bytes_in, kept_bytes_in, nothing_yet, passed_limit, stage_after};

use crate::frames::read_framed;
use crate::pieces::Piece;
use crate::stages::Stage;
use log_base::{PieceReader, Source};
use reply_frame::ItemFault;
use std::alloc::Global;
use std::marker::Model;

/// How many events a history may have, and how many bytes their frames and its payloads may have together.
const EVENTS: u32 = 131_072;

const EVENT_BYTES: u32 = 536_870_912;

const KEPT_BYTES: u32 = 268_435_456;

/// A reader of the frames of a history, with the replies before it. It asks its source for a piece
/// whenever it has used up what it took. After a fault it answers the same for ever.
#[derive(Debug, Drop)]
pub struct HistoryReader {
    alloc: Global,
    pieces: PieceReader,
    stage: Stage,
    events: u32,
    event_bytes: u32,
    kept_bytes: u32,
    offset: u64,
    fault: Option<ItemFault>,
    /// Where the parts of a frame are read.
    frame: Vec<u8>,
}

impl Model for HistoryReader {
    ghost use Rattle.std.specs.Prelude.{◌≤◌};
    ghost use Rattle.history_frame.specs.Reader.{HistoryReading};

    ghost Value = { HistoryReading };

    ghost view = { λ r. record {
      pending = r.pieces.pending;
      taken = r.pieces.taken;
      stage = r.stage;
      counts = record { events = r.events; event_bytes = r.event_bytes; kept_bytes = r.kept_bytes };
      offset = r.offset;
      fault = r.fault;
    } };

    ghost invariant = { λ r. (r.events ≤ 131072) × (r.event_bytes ≤ 536870912) × (r.kept_bytes ≤ 268435456) };
}

impl HistoryReader {
    /// A reader that has taken nothing yet. It keeps the allocator.
    pub fn new(alloc: Global) -> HistoryReader
        ensures { result ≡ record { pending = []; taken = 0; stage = Before; counts = nothing_yet; offset = 0; fault = None } }
    {
        HistoryReader {
            alloc,
            pieces: PieceReader::new(),
            stage: Stage::Before,
            events: 0,
            event_bytes: 0,
            kept_bytes: 0,
            offset: 0,
            fault: None,
            frame: Vec::new(alloc),
        }
    }

    /// The next frame of the source, or the end after the head.
    pub fn next<S: Source>(&mut self, source: &mut S) -> Result<Piece, ItemFault>
        ensures answers { self.old.fault ≡ None → Answers self.old self.new (unread self.old.pending (S.left source.old)) (unread self.new.pending (S.left source.new)) result }
        ensures passes { self.old.fault ≡ None → ReadsOn (unread self.old.pending (S.left source.old)) (unread self.new.pending (S.left source.new)) }
        ensures taken { self.old.fault ≡ None → TakesOn self.old.taken self.new.taken (S.left source.old) (S.left source.new) }
        ensures read { self.old.fault ≡ None → (at : ℕ) → result ≡ Err (ItemFault.Read at) → Rose (S.faults source.old) (S.faults source.new) × (at ≡ self.new.taken) }
        ensures again { IfSome self.old.fault (λ fault. (result ≡ Err fault) × (self.new ≡ self.old) × (source.new ≡ source.old)) }
        ensures later { S.faults source.old ≤ S.faults source.new }
    {
        let mut piece = Piece::End;
        self.next_into(source, &mut piece)?;
        Ok(piece)
    }

    /// The same, with the piece in place of the one that a place had. After a fault the place has some piece.
    pub fn next_into<S: Source>(
        &mut self,
        source: &mut S,
        piece: &mut Piece,
    ) -> Result<(), ItemFault>
        ensures answers { self.old.fault ≡ None → Answers self.old self.new (unread self.old.pending (S.left source.old)) (unread self.new.pending (S.left source.new)) (placed result piece.new) }
        ensures passes { self.old.fault ≡ None → ReadsOn (unread self.old.pending (S.left source.old)) (unread self.new.pending (S.left source.new)) }
        ensures taken { self.old.fault ≡ None → TakesOn self.old.taken self.new.taken (S.left source.old) (S.left source.new) }
        ensures read { self.old.fault ≡ None → (at : ℕ) → result ≡ Err (ItemFault.Read at) → Rose (S.faults source.old) (S.faults source.new) × (at ≡ self.new.taken) }
        ensures again { IfSome self.old.fault (λ fault. (result ≡ Err fault) × (self.new ≡ self.old) × (source.new ≡ source.old)) }
        ensures later { S.faults source.old ≤ S.faults source.new }
    {
        if let Some(fault) = self.fault {
            return Err(fault);
        }
        match read_framed(
            self.alloc,
            self.stage,
            self.events,
            self.offset,
            &mut self.pieces,
            source,
            &mut self.frame,
            piece,
        ) {
            Ok(Some(size)) => self.give(piece, size),
            Ok(None) => self.end(piece),
            Err(fault) => self.fail(fault),
        }
    }

    /// Gives a piece, whose frame has this size, where it passes no limit.
    fn give(&mut self, piece: &Piece, size: u32) -> Result<(), ItemFault>
        requires { FitsFrame size piece.now }
        ensures given { passed_limit (counted self.old.counts piece.now) ≡ None → (result ≡ Ok tt) × (self.new ≡ record self.old {
          stage = stage_after self.old.stage piece.now;
          counts = counted self.old.counts piece.now;
          offset = min (self.old.offset + size) (2 ^ 64 - 1);
        }) }
        ensures refused { (cause : ℕ) → passed_limit (counted self.old.counts piece.now) ≡ Some cause → (result ≡ Err (ItemFault.Many cause)) × (self.new ≡ record self.old { fault = Some (ItemFault.Many cause) }) }
    {
        match self.limit_passed(piece, size) {
            Some(cause) => self.fail(ItemFault::Many { cause }),
            None => {
                self.count(piece, size);
                Ok(())
            }
        }
    }

    /// The limit that would be passed with one more piece, whose frame has this size.
    fn limit_passed(&self, piece: &Piece, size: u32) -> Option<u8>
        requires { FitsFrame size piece.now }
        ensures { result ≡ passed_limit (counted self.now.counts piece.now) }
    {
        if self.events + events_of(piece) > EVENTS {
            return Some(3);
        }
        if self.event_bytes + event_bytes_of(piece, size) > EVENT_BYTES {
            return Some(5);
        }
        if self.kept_bytes + kept_bytes_of(piece) > KEPT_BYTES {
            return Some(6);
        }
        None
    }

    /// Counts a piece, and moves past its frame of this size.
    fn count(&mut self, piece: &Piece, size: u32)
        requires fits { FitsFrame size piece.now }
        requires limits { passed_limit (counted self.old.counts piece.now) ≡ None }
        ensures { self.new ≡ record self.old {
          stage = stage_after self.old.stage piece.now;
          counts = counted self.old.counts piece.now;
          offset = min (self.old.offset + size) (2 ^ 64 - 1);
        } }
    {
        self.events += events_of(piece);
        self.event_bytes += event_bytes_of(piece, size);
        self.kept_bytes += kept_bytes_of(piece);
        self.offset = self.offset.saturating_add(u64::from(size));
        self.stage = after(self.stage, piece);
    }

    /// Gives the end at the end of the source, which is no place of a frame before the head.
    fn end(&mut self, piece: &mut Piece) -> Result<(), ItemFault>
        ensures before { self.old.stage ≡ Before → (placed result piece.new ≡ Err (ItemFault.Bad self.old.offset)) × (self.new ≡ record self.old { fault = Some (ItemFault.Bad self.old.offset) }) }
        ensures inside { IsInside self.old.stage → (placed result piece.new ≡ Ok Piece.End) × (self.new ≡ self.old) }
    {
        match self.stage {
            Stage::Before => self.fail(ItemFault::Bad { at: self.offset }),
            Stage::Keeping { .. } | Stage::Running => {
                *piece = Piece::End;
                Ok(())
            }
        }
    }

    /// Keeps a fault and answers it.
    fn fail(&mut self, fault: ItemFault) -> Result<(), ItemFault>
        ensures answer { result ≡ Err fault }
        ensures kept { self.new ≡ record self.old { fault = Some fault } }
    {
        self.fault = Some(fault);
        Err(fault)
    }
}

/// How many events a piece is.
fn events_of(piece: &Piece) -> u32
    ensures { result ≡ events_in piece.now }
{
    match piece {
        Piece::Event(_) => 1,
        Piece::Reply | Piece::Head { .. } | Piece::Kept(_) | Piece::End => 0,
    }
}

/// How many bytes the frame of a piece has, if it is an event. The frame has this size.
fn event_bytes_of(piece: &Piece, size: u32) -> u32
    requires { FitsFrame size piece.now }
    ensures value { result ≡ event_bytes_in piece.now }
    ensures small { result ≤ 2097156 }
{
    match piece {
        Piece::Event(_) => size,
        Piece::Reply | Piece::Head { .. } | Piece::Kept(_) | Piece::End => 0,
    }
}

/// How many bytes the payload of a piece has, if it is one.
fn kept_bytes_of(piece: &Piece) -> u32
    requires { (size : ℕ) × FitsFrame size piece.now }
    ensures value { result ≡ kept_bytes_in piece.now }
    ensures small { result ≤ 2097152 }
{
    match piece {
        Piece::Kept(kept) => kept.payload.get().len() as u32,
        Piece::Reply | Piece::Head { .. } | Piece::Event(_) | Piece::End => 0,
    }
}

/// Which frames may come after a piece.
fn after(stage: Stage, piece: &Piece) -> Stage
    ensures { result ≡ stage_after stage piece.now }
{
    match piece {
        Piece::Head { .. } => Stage::Keeping { least: 0 },
        Piece::Kept(kept) => Stage::Keeping { least: kept.disk },
        Piece::Event(_) => Stage::Running,
        Piece::Reply | Piece::End => stage,
    }
}
