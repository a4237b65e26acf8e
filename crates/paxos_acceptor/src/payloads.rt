//! The promises and votes of an acceptor's list, and their bytes.

ghost use Rattle.std.specs.Prelude.{◌≡◌, ◌+◌, ◌≤◌, ◌++◌, length, vec_len, vec_capacity, IfOk, IfSome};
ghost use Rattle.std.specs.Option.{option_map};
ghost use Rattle.log_base.specs.Wide.{be4, be8};
ghost use Rattle.message_frame.specs.Reading.{ballot_at, slot_at};
ghost use Rattle.record_frame.specs.Values.{value_spelling};
ghost use Rattle.paxos_model.specs.Payloads.{IsPayload, payload_spelling, payload_limit, promise_at, voted_at, payload_at, payload_of};
ghost use Rattle.paxos_acceptor.specs.Listed.{HasSlot, payload_so, read_so};

use log_base::{Ballot, Slot, put_u8, put_u32, put_u64};
use message_frame::Vote;
use record_frame::{Refusal, put_value, read_u8, read_u32, read_u64, read_value_at};

/// The greatest slot.
const LAST_SLOT: u32 = 16_383;

/// The greatest ballot.
const BALLOT_LIMIT: u64 = (1 << 56) - 1;

/// The kind of a promise.
const PROMISE: u8 = 2;

/// The kind of a vote.
const VOTE: u8 = 3;

/// An entry of an acceptor's list.
#[derive(Clone, Copy, Debug, PartialEq, Eq)]
pub enum Entry {
    /// No lower ballot is taken any more.
    Promise(Ballot),
    /// A value was accepted for a slot in a ballot.
    Vote(Vote),
}

/// The promise or vote that all of the bytes spell.
#[tactic(auto, unfolding(paxos_model::specs::Payloads::payload_of))]
pub fn read_entry(bytes: &[u8]) -> Option<Entry>
    ensures payload { option_map payload_so result ≡ payload_of bytes.now }
    ensures slot { IfSome result HasSlot }
{
    match read_at_front(bytes) {
        Ok((entry, next)) if next == bytes.len() => return Some(entry),
        _ => return None,
    }
}

// The promise or vote at the front, and the place behind it.
#[tactic(auto, unfolding(paxos_model::specs::Payloads::payload_at, paxos_model::specs::Payloads::payload_fields_at))]
fn read_at_front(bytes: &[u8]) -> Result<(Entry, usize), Refusal>
    ensures read { read_so result ≡ payload_at bytes.now 0 }
    ensures slot { IfOk result (λ x. HasSlot x.0) }
{
    let (kind, next) = read_u8(bytes, 0)?;
    match kind {
        PROMISE => return read_promise(bytes, next),
        VOTE => return read_vote(bytes, next),
        _ => return Err(Refusal::BadKind { byte: kind }),
    }
}

#[tactic(auto, unfolding(paxos_model::specs::Payloads::promise_at))]
fn read_promise(bytes: &[u8], at: usize) -> Result<(Entry, usize), Refusal>
    requires { at ≤ length bytes.now }
    ensures read { read_so result ≡ promise_at bytes.now at }
    ensures slot { IfOk result (λ x. HasSlot x.0) }
{
    let (ballot, next) = read_ballot(bytes, at)?;
    Ok((Entry::Promise(ballot), next))
}

#[tactic(auto, unfolding(paxos_model::specs::Payloads::voted_at))]
fn read_vote(bytes: &[u8], at: usize) -> Result<(Entry, usize), Refusal>
    requires { at ≤ length bytes.now }
    ensures read { read_so result ≡ voted_at bytes.now at }
    ensures slot { IfOk result (λ x. HasSlot x.0) }
{
    let (ballot, next) = read_ballot(bytes, at)?;
    let (slot, next) = read_slot(bytes, next)?;
    let (value, next) = read_value_at(bytes, next)?;
    let vote = Vote {
        slot,
        ballot,
        value,
    };
    Ok((Entry::Vote(vote), next))
}

#[tactic(auto, unfolding(message_frame::specs::Reading::ballot_at))]
fn read_ballot(bytes: &[u8], at: usize) -> Result<(Ballot, usize), Refusal>
    requires { at ≤ length bytes.now }
    ensures read { result ≡ ballot_at bytes.now at }
    ensures within { IfOk result (λ x. x.1 ≤ length bytes.now) }
{
    let (number, next) = read_u64(bytes, at)?;
    if number < 1 || number > BALLOT_LIMIT {
        return Err(Refusal::BadNumber { at });
    }
    Ok((Ballot(number), next))
}

#[tactic(auto, unfolding(message_frame::specs::Reading::slot_at))]
fn read_slot(bytes: &[u8], at: usize) -> Result<(Slot, usize), Refusal>
    requires { at ≤ length bytes.now }
    ensures read { result ≡ slot_at 0 16383 bytes.now at }
    ensures within { IfOk result (λ x. (x.0.0 ≤ 16383) × (x.1 ≤ length bytes.now)) }
{
    let (number, next) = read_u32(bytes, at)?;
    if number > LAST_SLOT {
        return Err(Refusal::BadNumber { at });
    }
    Ok((Slot(number), next))
}

/// Spells a promise or vote into an empty vector that has room.
pub fn spell(entry: &Entry, out: &mut Vec<u8>)
    requires entry { IsPayload (payload_so entry.now) }
    requires room { payload_limit ≤ vec_capacity out.old }
    ensures items { out.new.items ≡ payload_spelling (payload_so entry.now) }
    ensures size { length out.new.items ≤ payload_limit }
    ensures capacity { payload_limit ≤ vec_capacity out.new }
{
    out.clear();
    match entry {
        Entry::Promise(ballot) => {
            put_u8(PROMISE, out);
            put_u64(ballot.0, out);
        }
        Entry::Vote(vote) => {
            put_u8(VOTE, out);
            put_vote(vote, out);
        }
    }
}

// Appends the ballot, the slot and the value of a vote.
fn put_vote(vote: &Vote, out: &mut Vec<u8>)
    requires vote { IsPayload (payload_so (Entry.Vote vote.now)) }
    requires room { vec_len out.old + 142 ≤ vec_capacity out.old }
    ensures items { out.new.items ≡ out.old.items ++ (be8 vote.now.ballot.0 ++ (be4 vote.now.slot.0 ++ value_spelling vote.now.value)) }
    ensures capacity { vec_capacity out.old ≤ vec_capacity out.new }
{
    put_u64(vote.ballot.0, out);
    put_u32(vote.slot.0, out);
    put_value(&vote.value, out);
}
