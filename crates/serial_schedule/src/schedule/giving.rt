//! Giving turns.

ghost use Rattle.std.specs.Prelude.{◌≡◌, ◌∷◌, List as Items, OnErr, OnOk, false, IfOk};
ghost use Rattle.serial_schedule.specs.Keeping.{IsGiven};
ghost use Rattle.schedule_model.specs.Scheduling.{after_delivery, delivery, first_step, is_first_done, rest_in, turn_in};

use crate::effects::drop_letter;
use crate::schedule::Schedule;
use history_frame::Input;
use item_course::signal_input;
use log_base::{Memory, NodeId};
use schedule_model::{Afterwards, Duty, Turn};

impl<'a> Schedule<'a> {
    /// Takes out the turn that the first duty calls for.
    pub(crate) fn take_turn(&mut self) -> Result<Option<Turn>, Memory>
        requires { is_first_done self.old.queue self.old.duties ≡ false }
        ensures turn { IfOk result (λ turn. turn ≡ turn_in (first_step self.old self.old.duties)) }
        ensures after { OnOk result (self.new ≡ rest_in self.old (first_step self.old self.old.duties)) }
        ensures err { OnErr result (self.new ≡ self.old) }
    {
        match self.duties.front() {
            None => Ok(None),
            Some(Duty::DeliverAll) => self.deliver(),
            Some(Duty::DeliverOne { letter, afterwards }) => {
                let (letter, afterwards) = (*letter, *afterwards);
                self.deliver_one(letter, afterwards)
            }
            Some(_) => Ok(self.give()),
        }
    }

    /// Gives a signal, or makes a call.
    fn give(&mut self) -> Option<Turn>
        requires undone { is_first_done self.old.queue self.old.duties ≡ false }
        requires given { IsGiven self.old.duties }
        ensures turn { result ≡ turn_in (first_step self.old self.old.duties) }
        ensures after { self.new ≡ rest_in self.old (first_step self.old self.old.duties) }
    {
        match self.duties.pop_front() {
            Some(
                Duty::Give {
                    signal,
                    first,
                    count,
                },
            ) => {
                self.duties.push_front_reserved(Duty::Give {
                    signal,
                    first: NodeId(first.0 + 1),
                    count: count - 1,
                });
                Some(Turn {
                    node: first,
                    input: signal_input(signal),
                })
            }
            Some(
                Duty::MakeCall {
                    node,
                    call,
                    awaited,
                },
            ) => {
                self.awaited = Some(awaited);
                Some(Turn {
                    node,
                    input: Input::Call(call),
                })
            }
            Some(Duty::DeliverAll | Duty::DeliverOne { .. }) | None => unreachable!(),
        }
    }

    /// Delivers the first letter.
    fn deliver(&mut self) -> Result<Option<Turn>, Memory>
        ensures turn { IfOk result (λ turn. turn ≡ turn_in (delivery self.old self.old.queue)) }
        ensures after { OnOk result (self.new ≡ rest_in self.old (delivery self.old self.old.queue)) }
        ensures err { OnErr result (self.new ≡ self.old) }
    {
        let Some(letter) = self.queue.front() else {
            return Ok(None);
        };
        let turn = letter.turn(self.alloc)?;
        let _ = self.queue.pop_front();
        Ok(Some(turn))
    }

    /// Delivers the letter that the first duty names.
    fn deliver_one(&mut self, number: u32, afterwards: Afterwards) -> Result<Option<Turn>, Memory>
        requires { (duties : Items Duty) × (self.old.duties ≡ Duty.DeliverOne number afterwards ∷ duties) }
        ensures turn { IfOk result (λ turn. turn ≡ turn_in (first_step self.old self.old.duties)) }
        ensures after { OnOk result (self.new ≡ rest_in self.old (first_step self.old self.old.duties)) }
        ensures err { OnErr result (self.new ≡ self.old) }
    {
        let Some(letter) = self.queue.get(number as usize) else {
            return Ok(None);
        };
        let turn = letter.turn(self.alloc)?;
        let _ = self.duties.pop_front();
        self.after_delivery(number, afterwards);
        Ok(Some(turn))
    }

    /// A letter that was delivered is taken out, or left.
    fn after_delivery(&mut self, number: u32, afterwards: Afterwards)
        ensures { self.new ≡ record self.old { queue = after_delivery afterwards self.old.queue number } }
    {
        match afterwards {
            Afterwards::TakenOut => drop_letter(&mut self.queue, number),
            Afterwards::LeftIn => {}
        }
    }
}
