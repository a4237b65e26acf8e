//! Writing the kind and the fields of each message, for which there has to be room.

ghost use Rattle.std.specs.Prelude.{◌≡◌, ◌+◌, ◌≤◌, ◌∷◌, ◌++◌, length, vec_len, vec_capacity};
ghost use Rattle.log_base.specs.Wide.{be4, be8};
ghost use Rattle.record_frame.specs.Entries.{IsEntry, entry_spelling};
ghost use Rattle.record_frame.specs.Values.{IsLengths, IsValue};
ghost use Rattle.message_frame.specs.declared.messages.Message.TheVariants.{Copy, CopyAck, Report, Least, Promised, Lower, Accept, Accepted, Decide, Want};
ghost use Rattle.message_frame.specs.Sizes.{message_size};
ghost use Rattle.message_frame.specs.Spelling.{AreVotes, message_spelling};

use crate::messages::Vote;
use crate::votes::put_votes;
use log_base::{Ballot, NodeId, Replica, Shard, Slot, put_u8, put_u16, put_u32, put_u64};
use record_frame::{Entry, Lengths, Value, put_lengths, put_value, write_entry};

/// Appends a Copy.
pub fn put_copy(segment: Replica, offset: u32, entry: &Entry, out: &mut Vec<u8>)
    requires entry { IsEntry entry.now }
    requires room { vec_len out.old + message_size (Copy segment offset entry.now) ≤ vec_capacity out.old }
    ensures items { out.new.items ≡ out.old.items ++ message_spelling (Copy segment offset entry.now) }
    ensures capacity { vec_capacity out.old ≤ vec_capacity out.new }
{
    put_u8(1, out);
    put_u8(segment.0, out);
    put_u32(offset, out);
    put_entry(entry, out);
}

/// Appends an entry.
fn put_entry(entry: &Entry, out: &mut Vec<u8>)
    requires entry { IsEntry entry.now }
    requires room { vec_len out.old + (15 + length entry.now.bytes) ≤ vec_capacity out.old }
    ensures items { out.new.items ≡ out.old.items ++ entry_spelling entry.now }
    ensures capacity { vec_capacity out.old ≤ vec_capacity out.new }
{
    let _ = write_entry(entry.client, entry.number, entry.bytes.get(), out);
}

/// Appends a CopyAck.
pub fn put_copy_ack(peer: Replica, size: u32, out: &mut Vec<u8>)
    requires { vec_len out.old + message_size (CopyAck peer size) ≤ vec_capacity out.old }
    ensures items { out.new.items ≡ out.old.items ++ message_spelling (CopyAck peer size) }
    ensures capacity { vec_capacity out.old ≤ vec_capacity out.new }
{
    put_u8(2, out);
    put_u8(peer.0, out);
    put_u32(size, out);
}

/// Appends a Report.
pub fn put_report(shard: Shard, replica: Replica, lengths: &Lengths, out: &mut Vec<u8>)
    requires lengths { IsLengths 5 lengths.now }
    requires room { vec_len out.old + message_size (Report shard replica lengths.now) ≤ vec_capacity out.old }
    ensures items { out.new.items ≡ out.old.items ++ message_spelling (Report shard replica lengths.now) }
    ensures capacity { vec_capacity out.old ≤ vec_capacity out.new }
{
    put_u8(3, out);
    put_u16(shard.0, out);
    put_u8(replica.0, out);
    put_lengths(lengths, out);
}

/// Appends a Least.
pub fn put_least(shard: Shard, lengths: &Lengths, out: &mut Vec<u8>)
    requires lengths { IsLengths 5 lengths.now }
    requires room { vec_len out.old + message_size (Least shard lengths.now) ≤ vec_capacity out.old }
    ensures items { out.new.items ≡ out.old.items ++ message_spelling (Least shard lengths.now) }
    ensures capacity { vec_capacity out.old ≤ vec_capacity out.new }
{
    put_u8(4, out);
    put_u16(shard.0, out);
    put_lengths(lengths, out);
}

/// Appends a kind, a ballot and a slot, as of a Prepare.
pub fn put_ballot_and_slot(kind: u8, ballot: Ballot, slot: Slot, out: &mut Vec<u8>)
    requires { vec_len out.old + 13 ≤ vec_capacity out.old }
    ensures items { out.new.items ≡ out.old.items ++ kind ∷ (be8 ballot.0 ++ be4 slot.0) }
    ensures len { vec_len out.new ≡ vec_len out.old + 13 }
    ensures capacity { vec_capacity out.old ≤ vec_capacity out.new }
{
    put_u8(kind, out);
    put_u64(ballot.0, out);
    put_u32(slot.0, out);
}

/// Appends a Promised.
pub fn put_promised(ballot: Ballot, from: Slot, who: u8, votes: &[Vote], out: &mut Vec<u8>)
    requires votes { AreVotes from.0 votes.now }
    requires room { vec_len out.old + message_size (Promised ballot from who votes.now) ≤ vec_capacity out.old }
    ensures items { out.new.items ≡ out.old.items ++ message_spelling (Promised ballot from who votes.now) }
    ensures capacity { vec_capacity out.old ≤ vec_capacity out.new }
{
    put_ballot_and_slot(6, ballot, from, out);
    put_u8(who, out);
    put_votes(votes, out);
}

/// Appends a Lower.
pub fn put_lower(ballot: Ballot, promised: Ballot, out: &mut Vec<u8>)
    requires { vec_len out.old + message_size (Lower ballot promised) ≤ vec_capacity out.old }
    ensures items { out.new.items ≡ out.old.items ++ message_spelling (Lower ballot promised) }
    ensures capacity { vec_capacity out.old ≤ vec_capacity out.new }
{
    put_u8(7, out);
    put_u64(ballot.0, out);
    put_u64(promised.0, out);
}

/// Appends an Accept.
pub fn put_accept(ballot: Ballot, slot: Slot, value: &Value, out: &mut Vec<u8>)
    requires value { IsValue value.now }
    requires room { vec_len out.old + message_size (Accept ballot slot value.now) ≤ vec_capacity out.old }
    ensures items { out.new.items ≡ out.old.items ++ message_spelling (Accept ballot slot value.now) }
    ensures capacity { vec_capacity out.old ≤ vec_capacity out.new }
{
    put_ballot_and_slot(8, ballot, slot, out);
    put_value(value, out);
}

/// Appends an Accepted.
pub fn put_accepted(ballot: Ballot, slot: Slot, who: u8, out: &mut Vec<u8>)
    requires { vec_len out.old + message_size (Accepted ballot slot who) ≤ vec_capacity out.old }
    ensures items { out.new.items ≡ out.old.items ++ message_spelling (Accepted ballot slot who) }
    ensures capacity { vec_capacity out.old ≤ vec_capacity out.new }
{
    put_ballot_and_slot(9, ballot, slot, out);
    put_u8(who, out);
}

/// Appends a Decide.
pub fn put_decide(slot: Slot, value: &Value, out: &mut Vec<u8>)
    requires value { IsValue value.now }
    requires room { vec_len out.old + message_size (Decide slot value.now) ≤ vec_capacity out.old }
    ensures items { out.new.items ≡ out.old.items ++ message_spelling (Decide slot value.now) }
    ensures capacity { vec_capacity out.old ≤ vec_capacity out.new }
{
    put_u8(10, out);
    put_u32(slot.0, out);
    put_value(value, out);
}

/// Appends a Want.
pub fn put_want(from: Slot, node: NodeId, out: &mut Vec<u8>)
    requires { vec_len out.old + message_size (Want from node) ≤ vec_capacity out.old }
    ensures items { out.new.items ≡ out.old.items ++ message_spelling (Want from node) }
    ensures capacity { vec_capacity out.old ≤ vec_capacity out.new }
{
    put_u8(11, out);
    put_u32(from.0, out);
    put_u16(node.0, out);
}
