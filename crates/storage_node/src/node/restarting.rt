//! Stopping and starting.

ghost use Rattle.std.specs.Prelude.{◌≡◌, [], OnOk};
ghost use Rattle.history_frame.specs.declared.inputs.Input.TheVariants.{Restart, Stop};
ghost use Rattle.storage_node.specs.Counting.{CountsOn};
ghost use Rattle.storage_node.specs.Opening.{IsOpening};
ghost use Rattle.storage_node.specs.Preparing.{IsReloaded};
ghost use Rattle.storage_node.specs.Turning.{TurnsOut};

use super::{Mode, StorageNode};
use crate::turn::silent;
use cut_chain::Places;
use history_frame::{Effect, Mark};
use log_base::Memory;
use reply_frame::Reply;
use segment_journal::{Installed, Journal, OpenFault};

impl<J: Journal, P: Places> StorageNode<J, P> {
    /// The node goes down, or stays so.
    pub(super) fn stop(&mut self) -> Effect
        ensures turn { TurnsOut self.old Stop result self.new }
        ensures silent { result.outputs ≡ [] }
    {
        self.mode = Mode::Down;
        silent(self.made.alloc, Mark::Done, Reply::Nothing)
    }

    /// Reads the lists anew.
    pub(super) fn ready_to_start(&mut self) -> Result<(), Memory>
        ensures same { self.new.replica.state ≡ self.old.replica.state }
        ensures mode { (self.new.mode ≡ self.old.mode) × (self.new.ticks ≡ self.old.ticks) }
        ensures ready { OnOk result (IsReloaded self.new.replica.last_reload self.new.replica) }
        ensures counts { CountsOn self.old.replica.media self.new.replica.media }
        ensures opening { OnOk result (IsOpening self.new.replica.last_reload self.old.replica.media self.new.replica.media) }
    {
        match self.replica.reload() {
            Ok(()) => return Ok(()),
            Err(OpenFault::Failed) => return Ok(()),
            Err(OpenFault::Damaged { at: _ }) => return Ok(()),
            Err(OpenFault::Memory) => return Err(Memory),
        }
    }

    /// The node starts with the lists that were read, and all else as at first. Where a list could not be
    /// read it stays down.
    pub(super) fn restart(&mut self) -> Effect
        requires { IsReloaded self.old.replica.last_reload self.old.replica }
        ensures turn { TurnsOut self.old Restart result self.new }
        ensures silent { result.outputs ≡ [] }
    {
        match self.replica.install() {
            Installed::Failed => {
                self.mode = Mode::Down;
                return silent(self.made.alloc, Mark::StayedDown, Reply::Nothing);
            }
            Installed::OneMore => {
                self.mode = Mode::Running;
                self.ticks = 0;
                return silent(self.made.alloc, Mark::OpenedWith, Reply::Nothing);
            }
            Installed::Same => {
                self.mode = Mode::Running;
                self.ticks = 0;
                return silent(self.made.alloc, Mark::OpenedWithout, Reply::Nothing);
            }
        }
    }
}
