//! Reading a frame from a source.

ghost use Rattle.std.specs.Prelude.{◌≡◌, ℕ, ◌<◌, ◌≤◌, length, slice_index, IfOk, OnErr};
ghost use Rattle.std.specs.Io.KnownBytes.{Consumes, IsAtEnd};
ghost use Rattle.log_base.specs.Outside.{Rose, unread, ReadsOn, TakesOn};
ghost use Rattle.log_base.specs.Shape.{shape};
ghost use Rattle.command_frame.specs.declared.items.Item.{Item};
ghost use Rattle.command_frame.specs.Reader.{Finds};

use crate::items::Item;
use crate::reading::read_item;
use log_base::{Config, PieceReader, Source, Stop, number_u32};
use reply_frame::ItemFault;
use std::alloc::Global;

/// How long a frame of an item may be behind its length.
const LONGEST: u32 = 65_541;

/// What stands next: an item with the size of its frame, or the end of the source.
#[derive(Debug, Drop)]
pub enum Framed {
    Item { item: Item, size: u32 },
    End,
}

/// The item of the next frame, which begins at a place.
pub fn read_framed<S: Source>(
    alloc: Global,
    config: &Config,
    place: u64,
    pieces: &mut PieceReader,
    source: &mut S,
) -> Result<Framed, ItemFault>
    ensures finds { Finds (shape config.now) (unread pieces.old.pending (S.left source.old)) (unread pieces.new.pending (S.left source.new)) result }
    ensures short { (item : Item) (size : ℕ) → result ≡ Ok (Framed.Item item size) → size ≤ 65545 }
    ensures passes { ReadsOn (unread pieces.old.pending (S.left source.old)) (unread pieces.new.pending (S.left source.new)) }
    ensures taken { TakesOn pieces.old.taken pieces.new.taken (S.left source.old) (S.left source.new) }
    ensures bad { (at : ℕ) → result ≡ Err (ItemFault.Bad at) → at ≡ place }
    ensures read { (at : ℕ) → result ≡ Err (ItemFault.Read at) → Rose (S.faults source.old) (S.faults source.new) × (at ≡ pieces.new.taken) }
    ensures later { S.faults source.old ≤ S.faults source.new }
{
    let head = take(alloc, pieces, source, 4)?;
    if head.is_empty() {
        return Ok(Framed::End);
    }
    if head.len() < 4 {
        return Err(ItemFault::Bad { at: place });
    }
    let length = number_u32(&head, 0);
    if length == 0 || length > LONGEST {
        return Err(ItemFault::Bad { at: place });
    }
    let frame = take(alloc, pieces, source, length as usize)?;
    if frame.len() < length as usize {
        return Err(ItemFault::Bad { at: place });
    }
    match read_item(alloc, config, &frame)? {
        Some(item) => Ok(Framed::Item {
            item,
            size: length + 4,
        }),
        None => Err(ItemFault::Bad { at: place }),
    }
}

/// The next bytes, as many as are wanted, or all that are left where those are fewer.
fn take<S: Source>(
    alloc: Global,
    pieces: &mut PieceReader,
    source: &mut S,
    wanted: usize,
) -> Result<Vec<u8>, ItemFault>
    ensures bytes { IfOk result (λ bytes. Consumes (unread pieces.old.pending (S.left source.old)) (unread pieces.new.pending (S.left source.new)) bytes.items) }
    ensures count { IfOk result (λ bytes. length bytes.items ≤ wanted) }
    ensures short { IfOk result (λ bytes. length bytes.items < wanted → IsAtEnd (unread pieces.new.pending (S.left source.new))) }
    ensures fits { IfOk result (λ bytes. (k : ℕ) → slice_index bytes.items k < 256) }
    ensures err { OnErr result (ReadsOn (unread pieces.old.pending (S.left source.old)) (unread pieces.new.pending (S.left source.new))) }
    ensures taken { TakesOn pieces.old.taken pieces.new.taken (S.left source.old) (S.left source.new) }
    ensures read { (at : ℕ) → result ≡ Err (ItemFault.Read at) → Rose (S.faults source.old) (S.faults source.new) × (at ≡ pieces.new.taken) }
    ensures bad { (at : ℕ) → result ≡ Err (ItemFault.Bad at) → ⊥ }
    ensures many { (cause : ℕ) → result ≡ Err (ItemFault.Many cause) → ⊥ }
    ensures later { S.faults source.old ≤ S.faults source.new }
{
    match pieces.take(alloc, source, wanted) {
        Ok(bytes) => Ok(bytes),
        Err(Stop::Read) => Err(ItemFault::Read { at: pieces.taken() }),
        Err(Stop::Memory) => Err(ItemFault::Memory),
    }
}
