//! Writing a message.

ghost use Rattle.std.specs.Prelude.{◌≡◌, ◌+◌, ◌≤◌, ◌++◌, length, vec_len, vec_capacity, IsOk, OnOk, OnErr};
ghost use Rattle.message_frame.specs.Sizes.{message_size};
ghost use Rattle.message_frame.specs.Spelling.{IsMessage, message_spelling};

use crate::field_writing::{
    put_accept, put_accepted, put_ballot_and_slot, put_copy, put_copy_ack, put_decide, put_least,
    put_lower, put_promised, put_report, put_want,
};
use crate::messages::Message;
use crate::votes::votes_length;
use log_base::Memory;
use record_frame::value_length;

/// Appends the one spelling of a message, which is its kind and its fields, with numbers big-endian. The
/// format is this project's own.
pub fn encode(message: &Message, out: &mut Vec<u8>) -> Result<(), Memory>
    requires { IsMessage message.now }
    ensures ok { OnOk result (out.new.items ≡ out.old.items ++ message_spelling message.now) }
    ensures err { OnErr result (out.new.items ≡ out.old.items) }
    ensures room { vec_len out.old + length (message_spelling message.now) ≤ vec_capacity out.old → IsOk result }
    ensures capacity { vec_capacity out.old ≤ vec_capacity out.new }
{
    out.reserve(message_length(message))?;
    put_message(message, out);
    Ok(())
}

/// How many bytes spell a message.
pub fn message_length(message: &Message) -> usize
    requires { IsMessage message.now }
    ensures { result ≡ message_size message.now }
{
    match message {
        Message::Copy { entry, .. } => 21 + entry.bytes.get().len(),
        Message::CopyAck { .. } => 6,
        Message::Report { lengths, .. } => 5 + 4 * lengths.count as usize,
        Message::Least { lengths, .. } => 4 + 4 * lengths.count as usize,
        Message::Prepare { .. } => 13,
        Message::Promised { votes, .. } => 15 + votes_length(votes.get()),
        Message::Lower { .. } => 17,
        Message::Accept { value, .. } => 13 + value_length(value),
        Message::Accepted { .. } => 14,
        Message::Decide { value, .. } => 5 + value_length(value),
        Message::Want { .. } => 7,
    }
}

/// Appends a message, for which there has to be room.
fn put_message(message: &Message, out: &mut Vec<u8>)
    requires message { IsMessage message.now }
    requires room { vec_len out.old + message_size message.now ≤ vec_capacity out.old }
    ensures items { out.new.items ≡ out.old.items ++ message_spelling message.now }
    ensures capacity { vec_capacity out.old ≤ vec_capacity out.new }
{
    match message {
        Message::Copy {
            segment,
            offset,
            entry,
        } => put_copy(*segment, *offset, entry, out),
        Message::CopyAck { peer, length } => put_copy_ack(*peer, *length, out),
        Message::Report {
            shard,
            replica,
            lengths,
        } => put_report(*shard, *replica, lengths, out),
        Message::Least { shard, lengths } => put_least(*shard, lengths, out),
        Message::Prepare { ballot, from } => put_ballot_and_slot(5, *ballot, *from, out),
        Message::Promised {
            ballot,
            from,
            who,
            votes,
        } => put_promised(*ballot, *from, *who, votes.get(), out),
        Message::Lower { ballot, promised } => put_lower(*ballot, *promised, out),
        Message::Accept {
            ballot,
            slot,
            value,
        } => put_accept(*ballot, *slot, value, out),
        Message::Accepted { ballot, slot, who } => put_accepted(*ballot, *slot, *who, out),
        Message::Decide { slot, value } => put_decide(*slot, value, out),
        Message::Want { from, node } => put_want(*from, *node, out),
    }
}
