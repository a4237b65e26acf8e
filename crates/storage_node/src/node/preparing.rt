//! Making the memory of an event at a running node.

ghost use Rattle.std.specs.Prelude.{◌≡◌, ◌≢◌, ℕ, ◌*◌, ◌<◌, ◌≤◌, [], length, true, OnOk, Some};
ghost use Rattle.history_frame.specs.declared.inputs.Input.TheVariants.{Call as ACall, Deliver, Restart, Stop, Tick};
ghost use Rattle.log_base.specs.Outgoing.{Outgoing};
ghost use Rattle.log_model.specs.Reading.{read};
ghost use Rattle.log_model.specs.Storage.{list_in};
ghost use Rattle.message_frame.specs.declared.messages.Message.TheVariants.{Copy, CopyAck};
ghost use Rattle.message_frame.specs.Spelling.{IsMessage};
ghost use Rattle.node_model.specs.Fits.{Fits, FitsLists, IsCallOf, IsMessageOf};
ghost use Rattle.node_model.specs.NodeState.{Storing};
ghost use Rattle.node_model.specs.StorageRow.{is_message};
ghost use Rattle.node_table.specs.declared.role.Role.TheVariants.{Storage};
ghost use Rattle.record_frame.specs.Entries.{IsEntry};
ghost use Rattle.storage_node.specs.Preparing.{FitsRecord, HasPayloadRoom, IsPrepared, IsSame};
ghost use Rattle.storage_node.specs.StorageState.{config_of, lists_in, member_in, node_of};

use super::StorageNode;
use crate::copies::{make_copies, make_windows, span_after};
use crate::sending::{ACK_BYTES, REPORT_BYTES, WANT_BYTES};
use cut_chain::Places;
use history_frame::{Call, Input};
use log_base::{Memory, Outbox, Position, Replica};
use message_frame::Message;
use record_frame::Entry;
use segment_journal::Journal;
use shard_replica::ReadAnswer;

impl<J: Journal, P: Places> StorageNode<J, P> {
    /// Makes the memory of an input.
    pub(super) fn prepare(&mut self, input: &Input, out: &mut Outbox) -> Result<(), Memory>
        requires fits { Fits (config_of self.old) (Storage (record { 0 = self.old.replica.state.shard }) (record { 0 = self.old.replica.state.own })) (Storing (node_of self.old)) input.now }
        requires other { (input.now ≢ Restart) × (input.now ≢ Stop) }
        ensures same { IsSame self.old self.new }
        ensures out { out.new.letters ≡ out.old.letters }
        ensures ready { OnOk result (IsPrepared self.new input.now out.new) }
    {
        match input {
            Input::Deliver {
                place: _,
                index: _,
                message,
            } => match message {
                Some(message) => return self.prepare_message(message, out),
                None => return Ok(()),
            },
            Input::Call(call) => return self.prepare_call(call),
            Input::Tick => return self.prepare_tick(out),
            Input::Lead | Input::Stop | Input::Restart => return Ok(()),
        }
    }

    fn prepare_message(&mut self, message: &Message, out: &mut Outbox) -> Result<(), Memory>
        requires named { is_message message.now ≡ true }
        requires message { IsMessage message.now }
        requires range { IsMessageOf (config_of self.old) message.now }
        requires fits { FitsLists (member_in self.old) (lists_in self.old) message.now }
        ensures same { IsSame self.old self.new }
        ensures out { out.new.letters ≡ out.old.letters }
        ensures ready { OnOk result ((place index : ℕ) → IsPrepared self.new (Deliver place index (Some message.now)) out.new) }
    {
        match message {
            Message::Copy {
                segment,
                offset: _,
                entry,
            } => return self.prepare_copy(*segment, entry, out),
            Message::CopyAck { peer, length } => return self.prepare_copied(*peer, *length, out),
            Message::Decide { slot: _, value: _ } => return self.prepare_decide(),
            _ => return Ok(()),
        }
    }

    fn prepare_call(&mut self, call: &Call) -> Result<(), Memory>
        requires { IsCallOf (config_of self.old) call.now }
        ensures same { IsSame self.old self.new }
        ensures ready { OnOk result ((out : Outgoing) → IsPrepared self.new (ACall call.now) out) }
    {
        match call {
            Call::Submit {
                client: _,
                number: _,
                bytes,
            } => return self.prepare_submit(bytes.get()),
            Call::Read {
                client: _,
                position,
            } => return self.prepare_read(*position),
            _ => return self.prepare_nothing(),
        }
    }

    // Room for the payload, the acknowledgement and the report.
    fn prepare_copy(
        &mut self,
        segment: Replica,
        entry: &Entry,
        out: &mut Outbox,
    ) -> Result<(), Memory>
        requires segment { segment.0 < (config_of self.old).replicas }
        requires entry { IsEntry entry.now }
        ensures same { IsSame self.old self.new }
        ensures out { out.new.letters ≡ out.old.letters }
        ensures ready { OnOk result ((place index offset : ℕ) → IsPrepared self.new (Deliver place index (Some (Copy segment offset entry.now))) out.new) }
    {
        self.made.copies.clear();
        self.made.make_payload(entry)?;
        self.replica.ready(entry.bytes.get().len() as u32)?;
        self.made.letters.ready(1, ACK_BYTES, out)?;
        self.made.letters.ready(1, REPORT_BYTES, out)?;
        Ok(())
    }

    // The copies that come into a peer's window.
    fn prepare_copied(&mut self, peer: Replica, held: u32, out: &mut Outbox) -> Result<(), Memory>
        requires peer { peer.0 < (config_of self.old).replicas }
        requires other { peer.0 ≢ self.old.replica.state.own }
        requires held { held ≤ length (list_in (lists_in self.old) self.old.replica.state.own) }
        ensures same { IsSame self.old self.new }
        ensures out { out.new.letters ≡ out.old.letters }
        ensures ready { OnOk result ((place index : ℕ) → IsPrepared self.new (Deliver place index (Some (CopyAck peer held))) out.new) }
    {
        self.made.copies.clear();
        let len = self.replica.len(self.seat.own);
        let acked = self.replica.windows(peer).from;
        let span = span_after(acked, held, len);
        make_copies(&self.seat, &self.replica, peer, span, &mut self.made, out)?;
        Ok(())
    }

    fn prepare_decide(&mut self) -> Result<(), Memory>
        ensures same { IsSame self.old self.new }
        ensures copies { self.new.copies ≡ [] }
        ensures room { OnOk result ((config_of self.new).replicas * (config_of self.new).shards ≤ self.new.replica.runs) }
    {
        self.made.copies.clear();
        self.replica.ready(0)
    }

    fn prepare_submit(&mut self, bytes: &[u8]) -> Result<(), Memory>
        requires { length bytes.now ≤ 65535 }
        ensures same { IsSame self.old self.new }
        ensures copies { self.new.copies ≡ [] }
        ensures room { OnOk result (HasPayloadRoom self.new.replica (length bytes.now)) }
    {
        self.made.copies.clear();
        self.replica.ready(bytes.len() as u32)
    }

    // Room for the record that is found.
    fn prepare_read(&mut self, position: Position) -> Result<(), Memory>
        ensures same { IsSame self.old self.new }
        ensures copies { self.new.copies ≡ [] }
        ensures room { OnOk result (FitsRecord self.new.record_room (read (member_in self.new) (lists_in self.new) self.new.replica.state.known position.0)) }
    {
        self.made.copies.clear();
        match self.replica.read(position) {
            ReadAnswer::Found { head: _, bytes } => return self.made.make_record(bytes.len()),
            _ => return Ok(()),
        }
    }

    fn prepare_nothing(&mut self) -> Result<(), Memory>
        ensures same { IsSame self.old self.new }
        ensures copies { self.new.copies ≡ [] }
    {
        self.made.copies.clear();
        Ok(())
    }

    // The copies of what is on its way to the peers, and room for the report and the want.
    fn prepare_tick(&mut self, out: &mut Outbox) -> Result<(), Memory>
        ensures same { IsSame self.old self.new }
        ensures out { out.new.letters ≡ out.old.letters }
        ensures ready { OnOk result (IsPrepared self.new Tick out.new) }
    {
        if self.ticks == u64::MAX {
            return Err(Memory);
        }
        self.made.copies.clear();
        make_windows(&self.seat, &self.replica, &mut self.made, out)?;
        self.made.letters.ready(1, REPORT_BYTES, out)?;
        self.made.letters.ready(1, WANT_BYTES, out)?;
        Ok(())
    }
}
