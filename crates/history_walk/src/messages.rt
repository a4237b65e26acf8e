//! Messages compared and copied, field by field.

ghost use Rattle.std.specs.Prelude.{◌≡◌, Some, IfOk, OnOk, IsTrue, ◌↔◌};

use log_base::{Bytes, List, Memory};
use message_frame::{Message, Vote};
use record_frame::Entry;
use std::alloc::Global;

/// Whether two messages are the same.
pub(crate) fn is_message(message: &Message, given: &Message) -> bool
    ensures { IsTrue result ↔ (message.now ≡ given.now) }
{
    match given {
        Message::Copy {
            segment,
            offset,
            entry,
        } => match message {
            Message::Copy {
                segment: other,
                offset: at,
                entry: held,
            } => other == segment && at == offset && is_entry(held, entry),
            _ => false,
        },
        Message::CopyAck { peer, length } =>
            matches!(message, Message::CopyAck { peer: other, length: held } if other == peer && held == length),
        Message::Report {
            shard,
            replica,
            lengths,
        } =>
            matches!(message, Message::Report { shard: other, replica: from, lengths: held } if other == shard && from == replica && held == lengths),
        Message::Least { shard, lengths } =>
            matches!(message, Message::Least { shard: other, lengths: held } if other == shard && held == lengths),
        Message::Prepare { ballot, from } =>
            matches!(message, Message::Prepare { ballot: other, from: at } if other == ballot && at == from),
        Message::Promised {
            ballot,
            from,
            who,
            votes,
        } => match message {
            Message::Promised {
                ballot: other,
                from: at,
                who: by,
                votes: told,
            } => other == ballot && at == from && by == who && are_votes(told.get(), votes.get()),
            _ => false,
        },
        Message::Lower { ballot, promised } =>
            matches!(message, Message::Lower { ballot: other, promised: held } if other == ballot && held == promised),
        Message::Accept {
            ballot,
            slot,
            value,
        } =>
            matches!(message, Message::Accept { ballot: other, slot: at, value: held } if other == ballot && at == slot && held == value),
        Message::Accepted { ballot, slot, who } =>
            matches!(message, Message::Accepted { ballot: other, slot: at, who: by } if other == ballot && at == slot && by == who),
        Message::Decide { slot, value } =>
            matches!(message, Message::Decide { slot: at, value: held } if at == slot && held == value),
        Message::Want { from, node } =>
            matches!(message, Message::Want { from: at, node: other } if at == from && other == node),
    }
}

/// Whether two entries are the same.
pub(crate) fn is_entry(entry: &Entry, given: &Entry) -> bool
    ensures { IsTrue result ↔ (entry.now ≡ given.now) }
{
    entry.client == given.client
        && entry.number == given.number
        && entry.bytes.get() == given.bytes.get()
}

// Whether two lists of votes are the same.
fn are_votes(votes: &[Vote], given: &[Vote]) -> bool
    ensures { IsTrue result ↔ (votes.now ≡ given.now) }
{
    if votes.len() != given.len() {
        return false;
    }
    for (i, vote) in votes.iter().enumerate() {
        if !is_vote(vote, &given[i]) {
            return false;
        }
    }
    true
}

// Whether two votes are the same.
fn is_vote(vote: &Vote, given: &Vote) -> bool
    ensures { IsTrue result ↔ (vote.now ≡ given.now) }
{
    vote.slot == given.slot && vote.ballot == given.ballot && vote.value == given.value
}

/// Puts a copy of a message in a place.
pub(crate) fn copy_to(
    alloc: Global,
    message: &Message,
    copy: &mut Option<Message>,
) -> Result<(), Memory>
    ensures { OnOk result (copy.new ≡ Some message.now) }
{
    *copy = Some(match message {
        Message::Copy {
            segment,
            offset,
            entry,
        } => Message::Copy {
            segment: *segment,
            offset: *offset,
            entry: copy_of_entry(alloc, entry)?,
        },
        Message::CopyAck { peer, length } => Message::CopyAck {
            peer: *peer,
            length: *length,
        },
        Message::Report {
            shard,
            replica,
            lengths,
        } => Message::Report {
            shard: *shard,
            replica: *replica,
            lengths: *lengths,
        },
        Message::Least { shard, lengths } => Message::Least {
            shard: *shard,
            lengths: *lengths,
        },
        Message::Prepare { ballot, from } => Message::Prepare {
            ballot: *ballot,
            from: *from,
        },
        Message::Promised {
            ballot,
            from,
            who,
            votes,
        } => Message::Promised {
            ballot: *ballot,
            from: *from,
            who: *who,
            votes: List::of(Vec::from_slice(alloc, votes.get())?),
        },
        Message::Lower { ballot, promised } => Message::Lower {
            ballot: *ballot,
            promised: *promised,
        },
        Message::Accept {
            ballot,
            slot,
            value,
        } => Message::Accept {
            ballot: *ballot,
            slot: *slot,
            value: *value,
        },
        Message::Accepted { ballot, slot, who } => Message::Accepted {
            ballot: *ballot,
            slot: *slot,
            who: *who,
        },
        Message::Decide { slot, value } => Message::Decide {
            slot: *slot,
            value: *value,
        },
        Message::Want { from, node } => Message::Want {
            from: *from,
            node: *node,
        },
    });
    Ok(())
}

// A copy of an entry.
fn copy_of_entry(alloc: Global, entry: &Entry) -> Result<Entry, Memory>
    ensures { IfOk result (λ copy. copy ≡ entry.now) }
{
    let bytes = Vec::from_slice(alloc, entry.bytes.get())?;
    Ok(Entry {
        client: entry.client,
        number: entry.number,
        bytes: Bytes::of(bytes),
    })
}
