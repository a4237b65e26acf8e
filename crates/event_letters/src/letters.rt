//! The letters that a node sends in one event.

ghost use Rattle.std.specs.Prelude.{◌≡◌, ℕ, ◌+◌, ◌≤◌, List as Items, [], ◌∷◌, ◌++◌, length, replicate, OnOk};
ghost use Rattle.message_frame.specs.Spelling.{IsMessage};
ghost use Rattle.event_letters.specs.Letters.{HasSpace, letter, message_length, parcel};

use history_frame::Sent;
use log_base::{List, Memory, NodeId, Outbox};
use message_frame::{Message, encode};
use std::alloc::Global;
use std::marker::Model;
use std::mem;

/// The letters that a node sends in one event, in order.
#[derive(Debug, Drop)]
pub struct EventLetters {
    alloc: Global,
    sent: Vec<Sent>,
    /// For how many letters more there is room. The vector may have more of it, left by an event that sent none.
    room: usize,
    spelling: Vec<u8>,
}

impl Model for EventLetters {
    ghost use Rattle.std.specs.Prelude.{◌+◌, ◌≤◌, vec_len, vec_capacity};
    ghost use Rattle.event_letters.specs.Letters.{EventLetters as Letters};

    ghost Value = { Letters };

    ghost view = { λ l. record { sent = l.sent.items; room = l.room; longest = vec_capacity l.spelling } };

    ghost invariant = { λ l. vec_len l.sent + l.room ≤ vec_capacity l.sent };
}

impl EventLetters {
    /// No letters, and no room for any.
    pub fn new(alloc: Global) -> EventLetters
        ensures { result.sent ≡ [] }
    {
        EventLetters {
            alloc,
            sent: Vec::new(alloc),
            room: 0,
            spelling: Vec::new(alloc),
        }
    }

    /// Makes room for so many letters more, each of at most so many bytes: they come after those that there
    /// was room for.
    pub fn ready(&mut self, count: u32, bytes: u32, out: &mut Outbox) -> Result<(), Memory>
        ensures sent { self.new.sent ≡ self.old.sent }
        ensures letters { out.new.letters ≡ out.old.letters }
        ensures space { OnOk result ((sizes : Items ℕ) → HasSpace self.old out.old.rooms sizes
            → HasSpace self.new out.new.rooms (sizes ++ replicate count bytes)) }
    {
        let room = self.room + count as usize;
        self.sent.reserve(room)?;
        self.room = room;
        self.spelling.clear();
        self.spelling.reserve(bytes as usize)?;
        for _ in 0..count {
            out.ready(bytes)?;
        }
        Ok(())
    }

    /// Sends a letter: its bytes go to the end of the outbox.
    pub fn send(&mut self, to: NodeId, message: Message, out: &mut Outbox)
        requires message { IsMessage message }
        requires space { HasSpace self.old out.old.rooms (message_length message ∷ []) }
        ensures sent { self.new.sent ≡ self.old.sent ++ letter to.0 message ∷ [] }
        ensures letters { out.new.letters ≡ out.old.letters ++ parcel (letter to.0 message) ∷ [] }
        ensures space { (size : ℕ) (sizes : Items ℕ) → message_length message ≤ size → HasSpace self.old out.old.rooms (size ∷ sizes)
            → HasSpace self.new out.new.rooms sizes }
    {
        self.spelling.clear();
        let _ = encode(&message, &mut self.spelling);
        out.push(to, &self.spelling);
        let _ = self.sent.push(Sent { to, message });
        self.room -= 1;
    }

    /// Takes the letters out. There is no room for more then. Where none was sent, the memory stays for the next event.
    pub fn take(&mut self) -> List<Sent>
        ensures letters { result ≡ self.old.sent }
        ensures empty { self.new.sent ≡ [] }
    {
        self.room = 0;
        let none = Vec::new(self.alloc);
        if self.sent.is_empty() {
            return List::of(none);
        }
        List::of(mem::replace(&mut self.sent, none))
    }
}
