//! Beginning items.

ghost use Rattle.std.specs.Prelude.{◌≡◌, ◌∷◌, List as Items, IfOk, OnErr, OnOk};
ghost use Rattle.command_frame.specs.declared.items.Item.{Item as Begun};
ghost use Rattle.command_frame.specs.Items.{IsNoFault};
ghost use Rattle.schedule_model.specs.Scheduling.{begins, begun, begun_next};

use crate::beginnings::{begin_item, follow_from};
use crate::effects::take_effect;
use crate::lanes::{keep_record, last_pair};
use crate::noting::go_on;
use crate::schedule::Schedule;
use command_frame::Item;
use fault_script::Fault;
use item_course::line_course;
use log_base::Memory;
use schedule_model::Course;

impl<'a> Schedule<'a> {
    /// Begins the next item.
    pub(crate) fn begin(&mut self) -> Result<(), Memory>
        ensures ok { OnOk result (self.new ≡ begun_next self.old self.old.items) }
        ensures err { OnErr result (self.new ≡ self.old) }
    {
        if let Some((item, items)) = self.items.split_first() {
            match item {
                Item::Fault { lane, fault } => self.begin_line(*lane, fault, items)?,
                _ => self.begin_command(item, items)?,
            }
        }
        Ok(())
    }

    /// Begins an item that is no fault.
    fn begin_command(&mut self, item: &'a Item, items: &'a [Item]) -> Result<(), Memory>
        requires no_fault { IsNoFault item.now }
        requires items { self.old.items ≡ item.now ∷ items.now }
        ensures ok { OnOk result (self.new ≡ begun self.old item.now items.now) }
        ensures err { OnErr result (self.new ≡ self.old) }
    {
        begin_item(
            self.alloc,
            &self.config,
            item,
            &mut self.lanes,
            &mut self.duties,
            &mut self.replies,
        )?;
        follow_from(self.alloc, &mut self.subscriber, item);
        keep_record(&mut self.records, item);
        self.items = items;
        Ok(())
    }

    /// Begins a line of the fault script.
    fn begin_line(&mut self, lane: u8, fault: &Fault, items: &'a [Item]) -> Result<(), Memory>
        requires { self.old.items ≡ Item.Fault lane fault.now ∷ items.now }
        ensures ok { OnOk result (self.new ≡ begun self.old (Item.Fault lane fault.now) items.now) }
        ensures err { OnErr result (self.new ≡ self.old) }
    {
        let course = self.line(lane, fault)?;
        self.plans.reserve(1)?;
        go_on(
            self.alloc,
            course,
            &mut self.subscriber,
            &mut self.duties,
            &mut self.hold,
            &mut self.replies,
        )?;
        take_effect(fault, &mut self.hold, &mut self.queue, &mut self.plans);
        self.items = items;
        Ok(())
    }

    /// What a line does.
    fn line(&self, lane: u8, fault: &Fault) -> Result<Course, Memory>
        requires { (items : Items Begun) × (self.now.items ≡ Item.Fault lane fault.now ∷ items) }
        ensures { IfOk result (λ course. course ≡ begins self.now (Item.Fault lane fault.now)) }
    {
        line_course(
            self.alloc,
            &self.config,
            self.hold.questions(),
            self.queue.len(),
            &last_pair(&self.lanes, lane),
            self.records[usize::from(lane)],
            fault,
        )
    }
}
