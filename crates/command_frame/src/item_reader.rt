//! The reader of items.

ghost use Rattle.std.specs.Prelude.{◌≡◌, ℕ, ◌+◌, ◌≤◌, [], length, Some, None, IfSome};
ghost use Rattle.log_base.specs.Outside.{Rose, unread, ReadsOn, TakesOn};
ghost use Rattle.log_base.specs.Shape.{shape};
ghost use Rattle.command_frame.specs.Items.{IsItem, item_spelling, counted, none_yet, passed_limit};
ghost use Rattle.command_frame.specs.Reader.{Answers, Moves};

use crate::answers::Next;
use crate::frames::{Framed, read_framed};
use crate::items::{Item, record_length};
use log_base::{Config, PieceReader, Source};
use reply_frame::ItemFault;
use std::alloc::Global;
use std::marker::Model;

/// How many items may be read, and how many bytes their records may have together.
const ITEMS: u32 = 65_536;

const RECORD_BYTES: u32 = 16_777_216;

/// A reader of the items of a config. It asks its source for a piece whenever it has used up what it
/// took. After a fault it answers the same for ever.
#[derive(Debug, Drop)]
pub struct ItemReader {
    alloc: Global,
    config: Config,
    pieces: PieceReader,
    items: u32,
    record_bytes: u32,
    offset: u64,
    fault: Option<ItemFault>,
}

impl Model for ItemReader {
    ghost use Rattle.std.specs.Prelude.{◌≤◌, ◌*◌};
    ghost use Rattle.log_base.specs.Shape.{shape};
    ghost use Rattle.command_frame.specs.Reader.{ItemReading};

    ghost Value = { ItemReading };

    ghost view = { λ r. record {
      config = shape r.config;
      pending = r.pieces.pending;
      taken = r.pieces.taken;
      counts = record { items = r.items; record_bytes = r.record_bytes };
      offset = r.offset;
      fault = r.fault;
    } };

    ghost invariant = { λ r. (r.items ≤ 65536) × (r.record_bytes ≤ 16777216) × (r.offset ≤ 65545 * r.items) };
}

impl ItemReader {
    /// A reader that has taken nothing yet. It keeps the allocator.
    pub fn new(alloc: Global, config: Config) -> ItemReader
        ensures { result ≡ record { config = shape config; pending = []; taken = 0; counts = none_yet; offset = 0; fault = None } }
    {
        ItemReader {
            alloc,
            config,
            pieces: PieceReader::new(),
            items: 0,
            record_bytes: 0,
            offset: 0,
            fault: None,
        }
    }

    /// The first place of the next frame.
    pub fn offset(&self) -> u64
        ensures { result ≡ self.now.offset }
    {
        self.offset
    }

    /// The next item of the source.
    pub fn next<S: Source>(&mut self, source: &mut S) -> Result<Next, ItemFault>
        ensures answers { self.old.fault ≡ None → Answers self.old (unread self.old.pending (S.left source.old)) (unread self.new.pending (S.left source.new)) result }
        ensures passes { self.old.fault ≡ None → ReadsOn (unread self.old.pending (S.left source.old)) (unread self.new.pending (S.left source.new)) }
        ensures taken { self.old.fault ≡ None → TakesOn self.old.taken self.new.taken (S.left source.old) (S.left source.new) }
        ensures moves { self.old.fault ≡ None → Moves self.old self.new result }
        ensures read { self.old.fault ≡ None → (at : ℕ) → result ≡ Err (ItemFault.Read at) → Rose (S.faults source.old) (S.faults source.new) × (at ≡ self.new.taken) }
        ensures again { IfSome self.old.fault (λ fault. (result ≡ Err fault) × (self.new ≡ self.old) × (source.new ≡ source.old)) }
        ensures later { S.faults source.old ≤ S.faults source.new }
    {
        if let Some(fault) = self.fault {
            return Err(fault);
        }
        match read_framed(
            self.alloc,
            &self.config,
            self.offset,
            &mut self.pieces,
            source,
        ) {
            Ok(Framed::Item { item, size }) => match self.limit_passed(&item) {
                Some(cause) => self.fail(ItemFault::Many { cause }),
                None => {
                    self.count(&item, size);
                    Ok(Next::Item(item))
                }
            },
            Ok(Framed::End) => Ok(Next::End),
            Err(fault) => self.fail(fault),
        }
    }

    /// The limit that would be passed with one more item.
    fn limit_passed(&self, item: &Item) -> Option<u8>
        requires { IsItem self.now.config item.now }
        ensures { result ≡ passed_limit (counted self.now.counts item.now) }
    {
        if self.items + 1 > ITEMS {
            return Some(1);
        }
        if self.record_bytes + record_length(item) > RECORD_BYTES {
            return Some(2);
        }
        None
    }

    /// Counts an item, and moves past its frame.
    fn count(&mut self, item: &Item, size: u32)
        requires is_item { IsItem self.old.config item.now }
        requires size { size ≡ length (item_spelling item.now) }
        requires short { size ≤ 65545 }
        requires limits { passed_limit (counted self.old.counts item.now) ≡ None }
        ensures { self.new ≡ record self.old {
          counts = counted self.old.counts item.now;
          offset = self.old.offset + length (item_spelling item.now);
        } }
    {
        self.items += 1;
        self.record_bytes += record_length(item);
        self.offset += u64::from(size);
    }

    /// Keeps a fault and answers it.
    fn fail(&mut self, fault: ItemFault) -> Result<Next, ItemFault>
        ensures answer { result ≡ Err fault }
        ensures kept { self.new ≡ record self.old { fault = Some fault } }
    {
        self.fault = Some(fault);
        Err(fault)
    }
}
