//! The messages of the peers and the orderers.

ghost use Rattle.std.specs.Prelude.{◌≡◌, ◌≢◌, ℕ, ◌*◌, ◌<◌, ◌≤◌, [], ◌∷◌, ◌++◌, length, map, Some};
ghost use Rattle.std.specs.List.{AllByRecursion};
ghost use Rattle.event_letters.specs.Letters.{HasSpace};
ghost use Rattle.history_frame.specs.declared.inputs.Input.TheVariants.{Deliver};
ghost use Rattle.log_model.specs.Storage.{list_in};
ghost use Rattle.message_frame.specs.declared.messages.Message.TheVariants.{Copy, CopyAck, Decide};
ghost use Rattle.node_model.specs.Fits.{IsHeldIn};
ghost use Rattle.node_model.specs.Machine.{posted};
ghost use Rattle.node_model.specs.StorageRow.{ack, report};
ghost use Rattle.record_frame.specs.Entries.{IsEntry, entry_spelling};
ghost use Rattle.cut_chain.specs.Known.{IsFor};
ghost use Rattle.storage_node.specs.Preparing.{IsLetter, IsPayloadOf, ack_size, copies_for_message, report_size, sizes_of};
ghost use Rattle.storage_node.specs.StorageState.{config_of, lists_in, member_in};
ghost use Rattle.storage_node.specs.Turning.{IsSilent, TurnsOut};

use super::{Mode, StorageNode};
use crate::sending::{send_ack, send_all, send_report};
use crate::turn::{silent, told};
use cut_chain::Places;
use history_frame::{Effect, Mark};
use log_base::{Outbox, Replica, Slot};
use record_frame::{Entry, Value};
use reply_frame::Reply;
use segment_journal::Journal;
use shard_replica::Copied;
use std::mem;

impl<J: Journal, P: Places> StorageNode<J, P> {
    /// The entry of an offset comes from the primary of its segment. Where it is the next one it is put,
    /// acknowledged and reported. Any other is acknowledged alone.
    pub(super) fn copy(
        &mut self,
        segment: Replica,
        offset: u32,
        entry: &Entry,
        out: &mut Outbox,
    ) -> Effect
        requires running { self.old.mode ≡ Mode.Running }
        requires segment { segment.0 < (config_of self.old).replicas }
        requires offset { offset < 16384 }
        requires entry { IsEntry entry.now }
        requires payload { IsPayloadOf self.old segment.0 (entry_spelling entry.now) }
        requires space { HasSpace self.old.letters out.old.rooms (ack_size ∷ report_size ∷ []) }
        ensures turn { (place index : ℕ) → TurnsOut self.old (Deliver place index (Some (Copy segment offset entry.now))) result self.new }
        ensures letters { out.new.letters ≡ out.old.letters ++ map posted result.outputs }
    {
        match self.replica.copy(segment, offset, &self.made.payload) {
            Copied::Halted => {
                self.mode = Mode::Down;
                return silent(self.made.alloc, Mark::Halted, Reply::Nothing);
            }
            Copied::Put { len } => return self.tell_copy(segment, len, out),
            Copied::Have { len } => return self.tell_length(segment, len, out),
            Copied::Gap { len } => return self.tell_length(segment, len, out),
        }
    }

    // What was copied is acknowledged and reported.
    fn tell_copy(&mut self, segment: Replica, len: u32, out: &mut Outbox) -> Effect
        requires segment { segment.0 < (config_of self.old).replicas }
        requires length { len ≡ length (list_in (lists_in self.old) segment.0) }
        requires space { HasSpace self.old.letters out.old.rooms (ack_size ∷ report_size ∷ []) }
        ensures silent { IsSilent self.old result self.new }
        ensures outputs { result.outputs ≡ ack (config_of self.old) (member_in self.old) segment.0 (lists_in self.old)
            ∷ report (config_of self.old) (member_in self.old) (lists_in self.old) ∷ [] }
        ensures each { AllByRecursion IsLetter result.outputs }
        ensures letters { out.new.letters ≡ out.old.letters ++ map posted result.outputs }
    {
        send_ack(&self.seat, segment, len, &mut self.made.letters, out);
        let lengths = self.replica.lengths();
        send_report(&self.seat, lengths, &mut self.made.letters, out);
        told(self.made.letters.take())
    }

    // The length of a list is acknowledged.
    fn tell_length(&mut self, segment: Replica, len: u32, out: &mut Outbox) -> Effect
        requires segment { segment.0 < (config_of self.old).replicas }
        requires length { len ≡ length (list_in (lists_in self.old) segment.0) }
        requires space { HasSpace self.old.letters out.old.rooms (ack_size ∷ report_size ∷ []) }
        ensures silent { IsSilent self.old result self.new }
        ensures outputs { result.outputs ≡ ack (config_of self.old) (member_in self.old) segment.0 (lists_in self.old) ∷ [] }
        ensures each { AllByRecursion IsLetter result.outputs }
        ensures letters { out.new.letters ≡ out.old.letters ++ map posted result.outputs }
    {
        send_ack(&self.seat, segment, len, &mut self.made.letters, out);
        told(self.made.letters.take())
    }

    /// A peer says how much of the own list it holds. What comes into its window is sent.
    pub(super) fn copied(&mut self, peer: Replica, held: u32, out: &mut Outbox) -> Effect
        requires running { self.old.mode ≡ Mode.Running }
        requires peer { peer.0 < (config_of self.old).replicas }
        requires other { peer.0 ≢ self.old.replica.state.own }
        requires held { held ≤ length (list_in (lists_in self.old) self.old.replica.state.own) }
        requires copies { self.old.copies ≡ copies_for_message self.old (CopyAck peer held) }
        requires each { AllByRecursion IsLetter self.old.copies }
        requires space { HasSpace self.old.letters out.old.rooms (sizes_of self.old.copies) }
        ensures turn { (place index : ℕ) → TurnsOut self.old (Deliver place index (Some (CopyAck peer held))) result self.new }
        ensures letters { out.new.letters ≡ out.old.letters ++ map posted result.outputs }
    {
        let alloc = self.made.alloc;
        self.replica.copy_ack(peer, held);
        let copies = mem::replace(&mut self.made.copies, Vec::new(alloc));
        send_all(copies, &mut self.made.letters, out);
        told(self.made.letters.take())
    }

    /// The value of a slot is decided.
    pub(super) fn decide(&mut self, slot: Slot, value: &Value) -> Effect
        requires running { self.old.mode ≡ Mode.Running }
        requires slot { slot.0 < 16384 }
        requires value { IsFor (config_of self.old) value.now }
        requires held { IsHeldIn (member_in self.old) (lists_in self.old) value.now }
        requires room { (config_of self.old).replicas * (config_of self.old).shards ≤ self.old.replica.runs }
        ensures turn { (place index : ℕ) → TurnsOut self.old (Deliver place index (Some (Decide slot value.now))) result self.new }
        ensures silent { result.outputs ≡ [] }
    {
        self.replica.learn(slot, value);
        silent(self.made.alloc, Mark::Done, Reply::Nothing)
    }
}
