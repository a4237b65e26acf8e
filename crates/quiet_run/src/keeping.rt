//! Keeping what happened.

ghost use Rattle.std.specs.Prelude.{◌≡◌, ◌<◌, ◌≤◌, length, map, OnOk};
ghost use Rattle.event_letters.specs.Letters.{parcel};
ghost use Rattle.quiet_run.specs.Running.{CanKeep, Keeps};

use crate::running::Running;
use history_frame::{Event, Happened, event_length};
use log_base::{Memory, NodeId, Outbox};

impl<'a> Running<'a> {
    /// What happened at a node is the next event, and the schedule notes it.
    pub fn keep(&mut self, node: NodeId, happened: Happened, out: &mut Outbox) -> Result<(), Memory>
        requires can { CanKeep self.old happened }
        requires letters { out.old.letters ≡ map parcel happened.outputs }
        ensures { OnOk result (Keeps node happened self.old self.new) }
    {
        self.bytes += event_length(&happened);
        self.schedule.note(&happened, out)?;
        let place = self.events.len() as u32;
        self.events.push(Event {
            place,
            node,
            happened,
        })?;
        Ok(())
    }
}
