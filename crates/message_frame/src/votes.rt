//! The votes of a promise as bytes.

ghost use Rattle.std.specs.Prelude.{◌≡◌, ◌+◌, ◌≤◌, ◌^◌, ◌++◌, length, vec_len, vec_capacity, IfOk};
ghost use Rattle.std.specs.List.{flat_map, AllByRecursion};
ghost use Rattle.record_frame.specs.Fields.{Gives};
ghost use Rattle.message_frame.specs.Spelling.{HasValue, vote_spelling, votes_spelling};
ghost use Rattle.message_frame.specs.Reading.{vote_at, votes_at, reported_at};

use crate::fields::{LAST_SLOT, read_ballot, read_slot, read_u8_up_to};
use crate::messages::Vote;
use log_base::{Slot, put_u8, put_u32, put_u64};
use record_frame::{Refusal, put_value, read_value_at, value_length};
use std::alloc::Global;

/// The greatest number of votes, and how many slots a window has.
const WINDOW: u8 = 64;

/// How many bytes spell the votes, without their count.
pub fn votes_length(votes: &[Vote]) -> usize
    requires values { AllByRecursion HasValue votes.now }
    requires fits { length (flat_map vote_spelling votes.now) ≤ 2 ^ 20 }
    ensures { result ≡ length (flat_map vote_spelling votes.now) }
{
    let mut length = 0;
    for vote in votes {
        length += vote_length(vote);
    }
    length
}

/// How many bytes spell a vote.
#[tactic(auto, unfolding(log_base::specs::Wide::be4, log_base::specs::Wide::be8))]
fn vote_length(vote: &Vote) -> usize
    requires value { HasValue vote.now }
    requires fits { length (vote_spelling vote.now) ≤ 2 ^ 20 }
    ensures { result ≡ length (vote_spelling vote.now) }
{
    12 + value_length(&vote.value)
}

/// Appends a vote, for which there has to be room.
#[tactic(auto, unfolding(log_base::specs::Wide::be4, log_base::specs::Wide::be8))]
fn put_vote(vote: &Vote, out: &mut Vec<u8>)
    requires value { HasValue vote.now }
    requires room { vec_len out.old + length (vote_spelling vote.now) ≤ vec_capacity out.old }
    ensures items { out.new.items ≡ out.old.items ++ vote_spelling vote.now }
    ensures len { vec_len out.new ≡ vec_len out.old + length (vote_spelling vote.now) }
    ensures capacity { vec_capacity out.old ≤ vec_capacity out.new }
{
    put_u32(vote.slot.0, out);
    put_u64(vote.ballot.0, out);
    put_value(&vote.value, out);
}

/// Appends the votes, for which there has to be room, without their count.
fn put_each(votes: &[Vote], out: &mut Vec<u8>)
    requires values { AllByRecursion HasValue votes.now }
    requires room { vec_len out.old + length (flat_map vote_spelling votes.now) ≤ vec_capacity out.old }
    ensures items { out.new.items ≡ out.old.items ++ flat_map vote_spelling votes.now }
    ensures capacity { vec_capacity out.old ≤ vec_capacity out.new }
{
    for vote in votes {
        put_vote(vote, out);
    }
}

/// Appends the count of the votes and the votes, for which there has to be room.
pub fn put_votes(votes: &[Vote], out: &mut Vec<u8>)
    requires few { length votes.now ≤ 64 }
    requires values { AllByRecursion HasValue votes.now }
    requires room { vec_len out.old + length (votes_spelling votes.now) ≤ vec_capacity out.old }
    ensures items { out.new.items ≡ out.old.items ++ votes_spelling votes.now }
    ensures capacity { vec_capacity out.old ≤ vec_capacity out.new }
{
    put_u8(votes.len() as u8, out);
    put_each(votes, out);
}

/// Reads a vote whose slot is from a least to a greatest one.
#[tactic(auto, unfolding(crate::specs::Reading::vote_at))]
fn read_vote(bytes: &[u8], at: usize, least: u32, greatest: u32) -> Result<(Vote, usize), Refusal>
    requires { at ≤ length bytes.now }
    ensures read { result ≡ vote_at least greatest bytes.now at }
    ensures within { IfOk result (λ x. (x.0.slot.0 ≤ greatest) × (x.1 ≤ length bytes.now)) }
{
    let (slot, next) = read_slot(bytes, at, least, greatest)?;
    let (ballot, next) = read_ballot(bytes, next)?;
    let (value, next) = read_value_at(bytes, next)?;
    let vote = Vote {
        slot,
        ballot,
        value,
    };
    Ok((vote, next))
}

/// Reads some votes with slots that rise strictly, from a least to a greatest one.
fn read_each(
    alloc: Global,
    bytes: &[u8],
    at: usize,
    count: u8,
    start: u32,
    greatest: u32,
) -> Result<(Vec<Vote>, usize), Refusal>
    requires place { at ≤ length bytes.now }
    requires slots { greatest ≤ 16383 }
    ensures read { Gives (λ x. (x.0.items, x.1)) result (votes_at count start greatest bytes.now at) }
    ensures within { IfOk result (λ x. x.1 ≤ length bytes.now) }
{
    let mut votes = Vec::with_capacity(alloc, usize::from(count))?;
    let mut least = start;
    let mut place = at;
    for i in 0..count {
        let (vote, next) = read_vote(bytes, place, least, greatest)?;
        votes.push(vote)?;
        least = vote.slot.0 + 1;
        place = next;
    }
    Ok((votes, place))
}

/// Reads a count up to 64 and that many votes of the window from a slot on.
#[tactic(auto, unfolding(crate::specs::Reading::reported_at))]
pub fn read_votes(
    alloc: Global,
    bytes: &[u8],
    at: usize,
    start: Slot,
) -> Result<(Vec<Vote>, usize), Refusal>
    requires place { at ≤ length bytes.now }
    requires start { start.0 ≤ 16384 }
    ensures read { Gives (λ x. (x.0.items, x.1)) result (reported_at start.0 bytes.now at) }
    ensures within { IfOk result (λ x. x.1 ≤ length bytes.now) }
{
    let (count, next) = read_u8_up_to(bytes, at, WINDOW)?;
    let greatest = (start.0 + u32::from(WINDOW) - 1).min(LAST_SLOT);
    read_each(alloc, bytes, next, count, start.0, greatest)
}
