//! What an orderer does as time passes.

ghost use Rattle.std.specs.Prelude.{◌≡◌, ◌<◌, ◌%◌, Option, Some, None, IsSome};
ghost use Rattle.node_model.specs.OrdererRow.{one_tick, tick_leader, told};
ghost use Rattle.orderer_node.specs.Announcing.{IsSaid, announced};
ghost use Rattle.orderer_node.specs.Remembering.{HasRoom};

use crate::announcing::Announcement;
use crate::memory::OrdererMemory;
use cut_chain::Places;
use paxos_leader::Again;

impl<P: Places> OrdererMemory<P> {
    /// Counts a tick. It gives the orderer whose turn it is to be asked for decided values.
    pub fn count_tick(&mut self) -> u8
        requires { HasRoom self.old }
        ensures config { self.new.config ≡ self.old.config }
        ensures orderer { self.new.orderer ≡ one_tick self.old.orderer }
        ensures asked { result ≡ self.old.orderer.ticks % self.old.config.orderers }
        ensures within { result < self.old.config.orderers }
    {
        let asked = self.ticks % u64::from(self.config.orderers());
        self.ticks += 1;
        asked as u8
    }

    /// As a leader it says again what was not answered, or goes on.
    pub fn say_again(&mut self, asked: u8) -> Option<Announcement>
        requires { IsSome self.old.orderer.leader }
        ensures config { self.new.config ≡ self.old.config }
        ensures row { tick_leader self.old.config 0 self.old.orderer self.old.orderer.leader asked
            ≡ told self.new.orderer (announced self.old.config result) }
        ensures said { IsSaid result }
    {
        match self.leader.again() {
            Again::Prepare { ballot, from } => return Some(Announcement::Prepare { ballot, from }),
            Again::Accept {
                ballot,
                slot,
                value,
            } => {
                return Some(Announcement::Accept {
                    ballot,
                    slot,
                    value,
                });
            }
            Again::Nothing => return self.go_on(),
        }
    }
}
