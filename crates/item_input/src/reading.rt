//! Reading the items of a source, one after another, with lines of the fault script among them.

ghost use Rattle.std.specs.Prelude.{◌≡◌, ◌≤◌, length, None, IfErr, IfOk, OnOk};
ghost use Rattle.log_base.specs.Outside.{Rose, TakesOn, unread};
ghost use Rattle.log_base.specs.Shape.{shape};
ghost use Rattle.command_frame.specs.Items.{passed_limit};
ghost use Rattle.item_input.specs.Steps.{IsRead, Refuses, Steps};

use crate::steps::Step;
use command_frame::{Item, ItemFault, ItemReader, Next};
use log_base::{Config, Source};
use std::alloc::Global;

/// All items of a source.
pub fn read_items<S: Source>(
    alloc: Global,
    config: Config,
    source: &mut S,
) -> Result<Vec<Item>, ItemFault>
    ensures read { IfOk result (λ items. IsRead (shape config) (S.left source.old) (S.left source.new) items.items) }
    ensures few { IfOk result (λ items. length items.items ≤ 65536) }
    ensures refused { IfErr result
        (Refuses (shape config) (S.left source.old) (S.left source.new) (Rose (S.faults source.old) (S.faults source.new))) }
    ensures later { S.faults source.old ≤ S.faults source.new }
{
    let mut reader = ItemReader::new(alloc, config);
    let mut items = Vec::new(alloc);
    'items: loop {
        match read_one(&mut reader, source, &mut items) {
            Ok(Step::Taken) => {}
            Ok(Step::Ended) => return Ok(items),
            Err(fault) => return Err(fault),
        }
    }
}

/// Reads one item.
fn read_one<S: Source>(
    reader: &mut ItemReader,
    source: &mut S,
    items: &mut Vec<Item>,
) -> Result<Step, ItemFault>
    requires fresh { reader.old.fault ≡ None }
    requires limits { passed_limit reader.old.counts ≡ None }
    ensures steps { Steps reader.old.config
        (record { unread = unread reader.old.pending (S.left source.old); counts = reader.old.counts; items = items.old.items; place = reader.old.offset; taken = reader.old.taken })
        (record { unread = unread reader.new.pending (S.left source.new); counts = reader.new.counts; items = items.new.items; place = reader.new.offset; taken = reader.new.taken })
        (Rose (S.faults source.old) (S.faults source.new)) result }
    ensures fresh { OnOk result (reader.new.fault ≡ None) }
    ensures config { reader.new.config ≡ reader.old.config }
    ensures taken { TakesOn reader.old.taken reader.new.taken (S.left source.old) (S.left source.new) }
    ensures later { S.faults source.old ≤ S.faults source.new }
{
    let item = match reader.next(source)? {
        Next::Item(item) => item,
        Next::End => return Ok(Step::Ended),
    };
    match items.push(item) {
        Ok(()) => Ok(Step::Taken),
        Err(_) => Err(ItemFault::Memory),
    }
}
