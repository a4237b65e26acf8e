//! Reading the items of a source where none may be a line of the fault script.

ghost use Rattle.std.specs.Prelude.{◌≡◌, ◌≤◌, length, false, true, None, IfErr, IfOk, OnOk};
ghost use Rattle.log_base.specs.Outside.{Rose, TakesOn, unread};
ghost use Rattle.log_base.specs.Shape.{shape};
ghost use Rattle.command_frame.specs.Items.{IsNoFault, passed_limit};
ghost use Rattle.item_input.specs.Plain.{IsReadPlain, RefusesPlain};
ghost use Rattle.item_input.specs.PlainSteps.{StepsPlain};

use crate::steps::Step;
use command_frame::{Item, ItemFault, ItemReader, Next};
use log_base::{Config, Source};
use std::alloc::Global;

/// All items of a source. A line of the fault script is as a place where no item stands.
pub fn read_plain_items<S: Source>(
    alloc: Global,
    config: Config,
    source: &mut S,
) -> Result<Vec<Item>, ItemFault>
    ensures read { IfOk result (λ items. IsReadPlain (shape config) (S.left source.old) (S.left source.new) items.items) }
    ensures few { IfOk result (λ items. length items.items ≤ 65536) }
    ensures refused { IfErr result
        (RefusesPlain (shape config) (S.left source.old) (S.left source.new) (Rose (S.faults source.old) (S.faults source.new))) }
    ensures later { S.faults source.old ≤ S.faults source.new }
{
    let mut reader = ItemReader::new(alloc, config);
    let mut items = Vec::new(alloc);
    'items: loop {
        match read_plain_one(&mut reader, source, &mut items) {
            Ok(Step::Taken) => {}
            Ok(Step::Ended) => return Ok(items),
            Err(fault) => return Err(fault),
        }
    }
}

/// Reads one item.
fn read_plain_one<S: Source>(
    reader: &mut ItemReader,
    source: &mut S,
    items: &mut Vec<Item>,
) -> Result<Step, ItemFault>
    requires fresh { reader.old.fault ≡ None }
    requires limits { passed_limit reader.old.counts ≡ None }
    ensures steps { StepsPlain reader.old.config
        (record { unread = unread reader.old.pending (S.left source.old); counts = reader.old.counts; items = items.old.items; place = reader.old.offset; taken = reader.old.taken })
        (record { unread = unread reader.new.pending (S.left source.new); counts = reader.new.counts; items = items.new.items; place = reader.new.offset; taken = reader.new.taken })
        (Rose (S.faults source.old) (S.faults source.new)) result }
    ensures fresh { OnOk result (reader.new.fault ≡ None) }
    ensures config { reader.new.config ≡ reader.old.config }
    ensures taken { TakesOn reader.old.taken reader.new.taken (S.left source.old) (S.left source.new) }
    ensures later { S.faults source.old ≤ S.faults source.new }
{
    let at = reader.offset();
    let item = match reader.next(source)? {
        Next::Item(item) => item,
        Next::End => return Ok(Step::Ended),
    };
    if is_fault(&item) {
        return Err(ItemFault::Bad { at });
    }
    match items.push(item) {
        Ok(()) => return Ok(Step::Taken),
        Err(_) => return Err(ItemFault::Memory),
    }
}

/// Whether an item is a line of the fault script.
fn is_fault(item: &Item) -> bool
    ensures fault { result ≡ true → ¬ IsNoFault item.now }
    ensures none { result ≡ false → IsNoFault item.now }
{
    matches!(item, Item::Fault { .. })
}
