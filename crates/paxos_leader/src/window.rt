//! The best reported vote of each slot of a window.

ghost use Rattle.std.specs.Prelude.{◌≡◌, ◌<◌, [], ◌∷◌, Some, is_some};
ghost use Rattle.std.specs.List.{list_any};
ghost use Rattle.paxos_model.specs.Leader.{bound_value, merge, no_votes, picked};
ghost use Rattle.paxos_model.specs.Votes.{keep};

use log_base::Slot;
use message_frame::Vote;
use record_frame::Value;

/// How many slots a window has.
pub const WINDOW: usize = 64;

/// No vote was reported.
#[tactic(auto, unfolding(paxos_model::specs::Leader::no_votes))]
pub fn forget_votes(best: &mut [Option<Vote>; WINDOW])
    ensures { best.new ≡ no_votes }
{
    *best = [None; WINDOW];
}

/// Merges reported votes into those of the window from a slot on. Votes of other slots change nothing.
/// Of two votes for a slot that of the greater ballot stays, the older where the ballots are equal.
pub fn merge_votes(best: &mut [Option<Vote>; WINDOW], from: Slot, votes: &[Vote])
    ensures { best.new ≡ merge from.0 best.old votes.now }
{
    for vote in votes {
        merge_vote(best, from, vote);
    }
}

// Merges one vote.
fn merge_vote(best: &mut [Option<Vote>; WINDOW], from: Slot, vote: &Vote)
    ensures { best.new ≡ merge from.0 best.old (vote.now ∷ []) }
{
    if vote.slot.0 < from.0 {
        return;
    }
    let place = (vote.slot.0 - from.0) as usize;
    if place >= WINDOW {
        return;
    }
    best[place] = Some(better(&best[place], vote));
}

// The vote of the greater ballot, the old one where they are equal.
fn better(old: &Option<Vote>, new: &Vote) -> Vote
    ensures { Some result ≡ keep old.now (Some new.now) }
{
    match old {
        Some(old) if new.ballot.0 <= old.ballot.0 => *old,
        _ => *new,
    }
}

/// The value to propose at a place of the window: that of the best vote there, else a noop where a later
/// slot has a vote, else the wish.
pub fn pick(best: &[Option<Vote>; WINDOW], place: usize, wish: Option<Value>) -> Option<Value>
    requires { place < 64 }
    ensures { result ≡ picked best.now place wish }
{
    bound(best[place], has_vote(&best[place + 1..]), wish)
}

// Whether there is a vote of some slot.
fn has_vote(best: &[Option<Vote>]) -> bool
    ensures { result ≡ list_any is_some best.now }
{
    best.iter().any(|vote| vote.is_some())
}

// The value that the vote of a slot, or else a vote of a later slot, binds the leader to.
fn bound(vote: Option<Vote>, later: bool, wish: Option<Value>) -> Option<Value>
    ensures { result ≡ bound_value vote later wish }
{
    match vote {
        Some(vote) => Some(vote.value),
        None if later => Some(Value::Noop),
        None => wish,
    }
}
