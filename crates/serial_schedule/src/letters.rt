//! Letters in the queue.

ghost use Rattle.std.specs.Prelude.{◌≡◌, IfOk, Ok};
ghost use Rattle.message_frame.specs.Spelling.{IsMessage, message_spelling};
ghost use Rattle.schedule_model.specs.Scheduling.{Waiting, delivered};

use history_frame::{Input, Sent};
use log_base::{Memory, NodeId};
use message_frame::{Message, decode};
use record_frame::Refusal;
use schedule_model::Turn;
use std::alloc::Global;
use std::marker::Model;

/// A letter that waits: the place of the event that put it out, its index there, its addressee and its bytes.
#[derive(Debug, Drop)]
pub struct Letter {
    place: u32,
    index: u8,
    to: NodeId,
    bytes: Vec<u8>,
}

impl Model for Letter {
    ghost use Rattle.message_frame.specs.Reading.{message_of};
    ghost use Rattle.serial_schedule.specs.Letters.{AreRead, message_in};
    ghost use Rattle.schedule_model.specs.Scheduling.{Waiting as Waits};

    ghost Value = { Waits };

    ghost view = { λ l. record { place = l.place; index = l.index; sent = record { to = l.to; message = message_in l.bytes.items } } };

    ghost invariant = { λ l. AreRead (message_of l.bytes.items) };
}

impl Letter {
    /// The letter with these bytes, which spell its message.
    pub fn of(place: u32, index: u8, sent: &Sent, bytes: Vec<u8>) -> Letter
        requires message { IsMessage sent.now.message }
        requires bytes { bytes.items ≡ message_spelling sent.now.message }
        ensures { result ≡ record { place = place; index = index; sent = sent.now } }
    {
        Letter {
            place,
            index,
            to: sent.to,
            bytes,
        }
    }

    /// The turn of its addressee.
    pub fn turn(&self, alloc: Global) -> Result<Turn, Memory>
        ensures { IfOk result (λ turn. turn ≡ delivered self.now) }
    {
        Ok(Turn {
            node: self.to,
            input: Input::Deliver {
                place: self.place,
                index: self.index,
                message: Some(self.message(alloc)?),
            },
        })
    }

    /// The message, read from the bytes.
    fn message(&self, alloc: Global) -> Result<Message, Memory>
        ensures { IfOk result (λ message. message ≡ self.now.sent.message) }
    {
        match decode(alloc, &self.bytes) {
            Ok(message) => Ok(message),
            Err(refusal) => {
                // The bytes spell a message.
                prove!(matches!(refusal, Refusal::Memory));
                Err(Memory)
            }
        }
    }
}
