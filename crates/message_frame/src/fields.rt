//! Numbers at a place in bytes that have to be in a range.

ghost use Rattle.std.specs.Prelude.{◌≡◌, ◌≤◌, length, IfOk};
ghost use Rattle.message_frame.specs.Reading.{u8_up_to, u32_up_to, replica_at, node_at, slot_at, ballot_at};

use log_base::{Ballot, NodeId, Replica, Slot};
use record_frame::{Refusal, read_u8, read_u16, read_u32, read_u64};

/// The greatest number of a replica.
const REPLICA_LIMIT: u8 = 4;

/// The greatest number of a node.
const NODE_LIMIT: u16 = 42;

/// The greatest slot.
pub const LAST_SLOT: u32 = 16_383;

/// The greatest ballot.
const BALLOT_LIMIT: u64 = (1 << 56) - 1;

/// Reads a byte that is at most a limit.
#[tactic(auto, unfolding(crate::specs::Reading::u8_up_to))]
pub fn read_u8_up_to(bytes: &[u8], at: usize, limit: u8) -> Result<(u8, usize), Refusal>
    requires { at ≤ length bytes.now }
    ensures read { result ≡ u8_up_to limit bytes.now at }
    ensures within { IfOk result (λ x. (x.0 ≤ limit) × (x.1 ≤ length bytes.now)) }
{
    let (number, next) = read_u8(bytes, at)?;
    if number > limit {
        return Err(Refusal::BadNumber { at });
    }
    Ok((number, next))
}

/// Reads a number of four bytes that is at most a limit.
#[tactic(auto, unfolding(crate::specs::Reading::u32_up_to))]
pub fn read_u32_up_to(bytes: &[u8], at: usize, limit: u32) -> Result<(u32, usize), Refusal>
    requires { at ≤ length bytes.now }
    ensures read { result ≡ u32_up_to limit bytes.now at }
    ensures within { IfOk result (λ x. (x.0 ≤ limit) × (x.1 ≤ length bytes.now)) }
{
    let (number, next) = read_u32(bytes, at)?;
    if number > limit {
        return Err(Refusal::BadNumber { at });
    }
    Ok((number, next))
}

/// Reads the number of a replica.
#[tactic(auto, unfolding(crate::specs::Reading::replica_at))]
pub fn read_replica(bytes: &[u8], at: usize) -> Result<(Replica, usize), Refusal>
    requires { at ≤ length bytes.now }
    ensures read { result ≡ replica_at bytes.now at }
    ensures within { IfOk result (λ x. x.1 ≤ length bytes.now) }
{
    let (number, next) = read_u8(bytes, at)?;
    if number > REPLICA_LIMIT {
        return Err(Refusal::BadNumber { at });
    }
    Ok((Replica(number), next))
}

/// Reads the number of a node.
#[tactic(auto, unfolding(crate::specs::Reading::node_at))]
pub fn read_node(bytes: &[u8], at: usize) -> Result<(NodeId, usize), Refusal>
    requires { at ≤ length bytes.now }
    ensures read { result ≡ node_at bytes.now at }
    ensures within { IfOk result (λ x. x.1 ≤ length bytes.now) }
{
    let (number, next) = read_u16(bytes, at)?;
    if number > NODE_LIMIT {
        return Err(Refusal::BadNumber { at });
    }
    Ok((NodeId(number), next))
}

/// Reads a slot from a least to a greatest one.
#[tactic(auto, unfolding(crate::specs::Reading::slot_at))]
pub fn read_slot(
    bytes: &[u8],
    at: usize,
    least: u32,
    greatest: u32,
) -> Result<(Slot, usize), Refusal>
    requires { at ≤ length bytes.now }
    ensures read { result ≡ slot_at least greatest bytes.now at }
    ensures within { IfOk result (λ x. (x.0.0 ≤ greatest) × (x.1 ≤ length bytes.now)) }
{
    let (number, next) = read_u32(bytes, at)?;
    if number < least || number > greatest {
        return Err(Refusal::BadNumber { at });
    }
    Ok((Slot(number), next))
}

/// Reads a ballot.
#[tactic(auto, unfolding(crate::specs::Reading::ballot_at))]
pub fn read_ballot(bytes: &[u8], at: usize) -> Result<(Ballot, usize), Refusal>
    requires { at ≤ length bytes.now }
    ensures read { result ≡ ballot_at bytes.now at }
    ensures within { IfOk result (λ x. x.1 ≤ length bytes.now) }
{
    let (number, next) = read_u64(bytes, at)?;
    if number < 1 || number > BALLOT_LIMIT {
        return Err(Refusal::BadNumber { at });
    }
    Ok((Ballot(number), next))
}
