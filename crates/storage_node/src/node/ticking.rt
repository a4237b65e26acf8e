//! Time passes.

ghost use Rattle.std.specs.Prelude.{◌≡◌, ◌+◌, ◌^◌, ◌<◌, [], ◌∷◌, ◌++◌, map};
ghost use Rattle.std.specs.List.{AllByRecursion};
ghost use Rattle.event_letters.specs.Letters.{HasSpace};
ghost use Rattle.history_frame.specs.declared.inputs.Input.TheVariants.{Tick};
ghost use Rattle.node_model.specs.Machine.{posted};
ghost use Rattle.storage_node.specs.Preparing.{IsLetter, copies_for, report_size, sizes_of, want_size};
ghost use Rattle.storage_node.specs.Turning.{TurnsOut};

use super::{Mode, StorageNode};
use crate::sending::{send_all, send_report, send_want};
use crate::turn::told;
use cut_chain::Places;
use history_frame::Effect;
use log_base::Outbox;
use segment_journal::Journal;
use std::mem;

impl<J: Journal, P: Places> StorageNode<J, P> {
    /// What is on its way to the peers is sent again, then the report, then the want to the orderer whose
    /// turn it is.
    pub(super) fn tick(&mut self, out: &mut Outbox) -> Effect
        requires running { self.old.mode ≡ Mode.Running }
        requires few { self.old.ticks + 1 < 2 ^ 64 }
        requires copies { self.old.copies ≡ copies_for self.old Tick }
        requires each { AllByRecursion IsLetter self.old.copies }
        requires space { HasSpace self.old.letters out.old.rooms (sizes_of self.old.copies ++ report_size ∷ want_size ∷ []) }
        ensures turn { TurnsOut self.old Tick result self.new }
        ensures letters { out.new.letters ≡ out.old.letters ++ map posted result.outputs }
    {
        let alloc = self.made.alloc;
        let copies = mem::replace(&mut self.made.copies, Vec::new(alloc));
        let lengths = self.replica.lengths();
        let known = self.replica.known();
        let letters = &mut self.made.letters;
        send_all(copies, letters, out);
        send_report(&self.seat, lengths, letters, out);
        send_want(&self.seat, known, self.ticks, letters, out);
        self.ticks += 1;
        told(self.made.letters.take())
    }
}
