//! Reading the fields of each message, behind its kind, and the place behind them.

ghost use Rattle.std.specs.Prelude.{◌≡◌, ◌≤◌, length, IfOk};
ghost use Rattle.record_frame.specs.Fields.{Gives};
ghost use Rattle.message_frame.specs.Reading.{copy_at, copy_ack_at, report_at, least_at, prepare_at, promised_at, lower_at, accept_at, accepted_at, decide_at, want_at};

use crate::fields::{
    LAST_SLOT, read_ballot, read_node, read_replica, read_slot, read_u8_up_to, read_u32_up_to,
};
use crate::messages::Message;
use crate::votes::read_votes;
use log_base::List;
use record_frame::{Refusal, read_entry_at, read_lengths, read_shard, read_value_at};
use std::alloc::Global;

/// The greatest offset in a segment.
const LAST_OFFSET: u32 = 16_383;

/// The greatest length of a segment.
const LENGTH_LIMIT: u32 = 16_384;

/// How many slots there are, which is the greatest first slot of a window.
const SLOTS: u32 = 16_384;

/// The greatest number of segments of a shard.
const SEGMENTS: u8 = 5;

/// The greatest number of an orderer.
const LAST_ORDERER: u8 = 6;

/// Reads the fields of a Copy.
#[tactic(auto, unfolding(crate::specs::Reading::copy_at))]
pub fn read_copy(alloc: Global, bytes: &[u8], at: usize) -> Result<(Message, usize), Refusal>
    requires { at ≤ length bytes.now }
    ensures read { Gives (λ x. x) result (copy_at bytes.now at) }
    ensures within { IfOk result (λ x. x.1 ≤ length bytes.now) }
{
    let (segment, next) = read_replica(bytes, at)?;
    let (offset, next) = read_u32_up_to(bytes, next, LAST_OFFSET)?;
    let (entry, next) = read_entry_at(alloc, bytes, next)?;
    let message = Message::Copy {
        segment,
        offset,
        entry,
    };
    Ok((message, next))
}

/// Reads the fields of a CopyAck.
#[tactic(auto, unfolding(crate::specs::Reading::copy_ack_at))]
pub fn read_copy_ack(bytes: &[u8], at: usize) -> Result<(Message, usize), Refusal>
    requires { at ≤ length bytes.now }
    ensures read { result ≡ copy_ack_at bytes.now at }
    ensures within { IfOk result (λ x. x.1 ≤ length bytes.now) }
{
    let (peer, next) = read_replica(bytes, at)?;
    let (length, next) = read_u32_up_to(bytes, next, LENGTH_LIMIT)?;
    Ok((Message::CopyAck { peer, length }, next))
}

/// Reads the fields of a Report.
#[tactic(auto, unfolding(crate::specs::Reading::report_at))]
pub fn read_report(bytes: &[u8], at: usize) -> Result<(Message, usize), Refusal>
    requires { at ≤ length bytes.now }
    ensures read { result ≡ report_at bytes.now at }
    ensures within { IfOk result (λ x. x.1 ≤ length bytes.now) }
{
    let (shard, next) = read_shard(bytes, at)?;
    let (replica, next) = read_replica(bytes, next)?;
    let (lengths, next) = read_lengths(bytes, next, SEGMENTS)?;
    let message = Message::Report {
        shard,
        replica,
        lengths,
    };
    Ok((message, next))
}

/// Reads the fields of a Least.
#[tactic(auto, unfolding(crate::specs::Reading::least_at))]
pub fn read_least(bytes: &[u8], at: usize) -> Result<(Message, usize), Refusal>
    requires { at ≤ length bytes.now }
    ensures read { result ≡ least_at bytes.now at }
    ensures within { IfOk result (λ x. x.1 ≤ length bytes.now) }
{
    let (shard, next) = read_shard(bytes, at)?;
    let (lengths, next) = read_lengths(bytes, next, SEGMENTS)?;
    Ok((Message::Least { shard, lengths }, next))
}

/// Reads the fields of a Prepare.
#[tactic(auto, unfolding(crate::specs::Reading::prepare_at))]
pub fn read_prepare(bytes: &[u8], at: usize) -> Result<(Message, usize), Refusal>
    requires { at ≤ length bytes.now }
    ensures read { result ≡ prepare_at bytes.now at }
    ensures within { IfOk result (λ x. x.1 ≤ length bytes.now) }
{
    let (ballot, next) = read_ballot(bytes, at)?;
    let (from, next) = read_slot(bytes, next, 0, SLOTS)?;
    Ok((Message::Prepare { ballot, from }, next))
}

/// Reads the fields of a Promised.
#[tactic(auto, unfolding(crate::specs::Reading::promised_at))]
pub fn read_promised(alloc: Global, bytes: &[u8], at: usize) -> Result<(Message, usize), Refusal>
    requires { at ≤ length bytes.now }
    ensures read { Gives (λ x. x) result (promised_at bytes.now at) }
    ensures within { IfOk result (λ x. x.1 ≤ length bytes.now) }
{
    let (ballot, next) = read_ballot(bytes, at)?;
    let (from, next) = read_slot(bytes, next, 0, SLOTS)?;
    let (who, next) = read_u8_up_to(bytes, next, LAST_ORDERER)?;
    let (votes, next) = read_votes(alloc, bytes, next, from)?;
    let message = Message::Promised {
        ballot,
        from,
        who,
        votes: List::of(votes),
    };
    Ok((message, next))
}

/// Reads the fields of a Lower.
#[tactic(auto, unfolding(crate::specs::Reading::lower_at))]
pub fn read_lower(bytes: &[u8], at: usize) -> Result<(Message, usize), Refusal>
    requires { at ≤ length bytes.now }
    ensures read { result ≡ lower_at bytes.now at }
    ensures within { IfOk result (λ x. x.1 ≤ length bytes.now) }
{
    let (ballot, next) = read_ballot(bytes, at)?;
    let (promised, next) = read_ballot(bytes, next)?;
    Ok((Message::Lower { ballot, promised }, next))
}

/// Reads the fields of an Accept.
#[tactic(auto, unfolding(crate::specs::Reading::accept_at))]
pub fn read_accept(bytes: &[u8], at: usize) -> Result<(Message, usize), Refusal>
    requires { at ≤ length bytes.now }
    ensures read { result ≡ accept_at bytes.now at }
    ensures within { IfOk result (λ x. x.1 ≤ length bytes.now) }
{
    let (ballot, next) = read_ballot(bytes, at)?;
    let (slot, next) = read_slot(bytes, next, 0, LAST_SLOT)?;
    let (value, next) = read_value_at(bytes, next)?;
    let message = Message::Accept {
        ballot,
        slot,
        value,
    };
    Ok((message, next))
}

/// Reads the fields of an Accepted.
#[tactic(auto, unfolding(crate::specs::Reading::accepted_at))]
pub fn read_accepted(bytes: &[u8], at: usize) -> Result<(Message, usize), Refusal>
    requires { at ≤ length bytes.now }
    ensures read { result ≡ accepted_at bytes.now at }
    ensures within { IfOk result (λ x. x.1 ≤ length bytes.now) }
{
    let (ballot, next) = read_ballot(bytes, at)?;
    let (slot, next) = read_slot(bytes, next, 0, LAST_SLOT)?;
    let (who, next) = read_u8_up_to(bytes, next, LAST_ORDERER)?;
    Ok((Message::Accepted { ballot, slot, who }, next))
}

/// Reads the fields of a Decide.
#[tactic(auto, unfolding(crate::specs::Reading::decide_at))]
pub fn read_decide(bytes: &[u8], at: usize) -> Result<(Message, usize), Refusal>
    requires { at ≤ length bytes.now }
    ensures read { result ≡ decide_at bytes.now at }
    ensures within { IfOk result (λ x. x.1 ≤ length bytes.now) }
{
    let (slot, next) = read_slot(bytes, at, 0, LAST_SLOT)?;
    let (value, next) = read_value_at(bytes, next)?;
    Ok((Message::Decide { slot, value }, next))
}

/// Reads the fields of a Want.
#[tactic(auto, unfolding(crate::specs::Reading::want_at))]
pub fn read_want(bytes: &[u8], at: usize) -> Result<(Message, usize), Refusal>
    requires { at ≤ length bytes.now }
    ensures read { result ≡ want_at bytes.now at }
    ensures within { IfOk result (λ x. x.1 ≤ length bytes.now) }
{
    let (from, next) = read_slot(bytes, at, 0, SLOTS)?;
    let (node, next) = read_node(bytes, next)?;
    Ok((Message::Want { from, node }, next))
}
