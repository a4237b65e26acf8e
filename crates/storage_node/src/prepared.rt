//! What is made ready for an event.

ghost use Rattle.std.specs.Prelude.{◌≡◌, ◌≤◌, ◌<◌, [], ◌∷◌, ◌++◌, length, IfOk, OnOk, vec_capacity};
ghost use Rattle.event_letters.specs.Letters.{letter};
ghost use Rattle.log_model.specs.Storage.{IsSpelled, entry_in};
ghost use Rattle.node_model.specs.Messages.{copy_message};
ghost use Rattle.record_frame.specs.Entries.{entry_spelling};
ghost use Rattle.storage_node.specs.Preparing.{Makes, stock};

use event_letters::EventLetters;
use history_frame::Sent;
use log_base::{Memory, NodeId, Outbox, Replica};
use message_frame::Message;
use record_frame::{Entry, read_entry, write_entry};
use std::alloc::Global;

/// How many bytes a copy has beside its payload.
const COPY_BYTES: u32 = 6;

/// What is made ready for an event: room for its letters, the copies that are sent, the payload of a copy
/// that is taken, and room for a record that is answered with.
#[derive(Drop)]
pub(crate) struct Prepared {
    pub(crate) alloc: Global,
    pub(crate) letters: EventLetters,
    pub(crate) copies: Vec<Sent>,
    pub(crate) payload: Vec<u8>,
    pub(crate) found: Vec<u8>,
}

impl Prepared {
    /// Nothing is ready.
    pub(crate) fn new(alloc: Global) -> Prepared
        ensures sent { result.letters.sent ≡ [] }
    {
        Prepared {
            alloc,
            letters: EventLetters::new(alloc),
            copies: Vec::new(alloc),
            payload: Vec::new(alloc),
            found: Vec::new(alloc),
        }
    }

    /// Makes the copy of an entry, which is given by its spelling.
    pub(crate) fn make_copy(
        &mut self,
        to: NodeId,
        segment: Replica,
        offset: u32,
        payload: &[u8],
        out: &mut Outbox,
    ) -> Result<(), Memory>
        requires segment { segment.0 ≤ 4 }
        requires offset { offset < 16384 }
        requires spelled { IsSpelled payload.now }
        ensures made { OnOk result (Makes (letter to.0 (copy_message segment.0 offset (entry_in payload.now)) ∷ [])
            (stock self.old.letters self.old.copies.items out.old.rooms) (stock self.new.letters self.new.copies.items out.new.rooms)) }
        ensures sent { self.new.letters.sent ≡ self.old.letters.sent }
        ensures out { out.new.letters ≡ out.old.letters }
    {
        let entry = entry_of_payload(self.alloc, payload)?;
        self.letters
            .ready(1, COPY_BYTES + payload.len() as u32, out)?;
        self.copies.push(Sent {
            to,
            message: Message::Copy {
                segment,
                offset,
                entry,
            },
        })?;
        Ok(())
    }

    /// Makes the payload of an entry.
    pub(crate) fn make_payload(&mut self, entry: &Entry) -> Result<(), Memory>
        requires { length entry.now.bytes ≤ 65535 }
        ensures payload { OnOk result (self.new.payload.items ≡ entry_spelling entry.now) }
        ensures letters { self.new.letters ≡ self.old.letters }
        ensures copies { self.new.copies ≡ self.old.copies }
    {
        self.payload.clear();
        write_entry(
            entry.client,
            entry.number,
            entry.bytes.get(),
            &mut self.payload,
        )
    }

    /// Makes room for a record.
    pub(crate) fn make_record(&mut self, bytes: usize) -> Result<(), Memory>
        ensures room { OnOk result (bytes ≤ vec_capacity self.new.found) }
        ensures letters { self.new.letters ≡ self.old.letters }
        ensures copies { self.new.copies ≡ self.old.copies }
        ensures payload { self.new.payload ≡ self.old.payload }
    {
        self.found.clear();
        self.found.reserve(bytes)?;
        Ok(())
    }
}

// The entry that a payload spells. Reading it fails only where memory runs out.
fn entry_of_payload(alloc: Global, payload: &[u8]) -> Result<Entry, Memory>
    requires { IsSpelled payload.now }
    ensures { IfOk result (λ entry. entry ≡ entry_in payload.now) }
{
    match read_entry(alloc, payload) {
        Ok((entry, _size)) => Ok(entry),
        Err(_refusal) => Err(Memory),
    }
}
