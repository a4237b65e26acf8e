//! What is kept of the votes of one slot.

ghost use Rattle.std.specs.Prelude.{◌≡◌, ℕ, List, [], ◌∷◌, ◌++◌, Some};
ghost use Rattle.message_frame.specs.declared.messages.Vote.{Vote};
ghost use Rattle.paxos_model.specs.Votes.{counts, greatest, has_vote, keep};
ghost use Rattle.paxos_acceptor.specs.Table.{IsRow, IsUpTo, no_row};

use log_base::Ballot;
use message_frame::Vote;

/// Of a slot's votes the first one of the greatest ballot, and the first one of the greatest ballot below that.
#[derive(Clone, Copy, Debug)]
pub struct Row {
    last: Option<Vote>,
    earlier: Option<Vote>,
}

impl Row {
    /// No vote was cast.
    pub fn none() -> Row
        ensures { result ≡ no_row }
    {
        Row {
            last: None,
            earlier: None,
        }
    }

    /// The row with one vote of the slot more.
    pub fn with(&self, vote: &Vote) -> Row
        ensures { (votes : List Vote) → IsRow vote.now.slot.0 self.now votes → IsRow vote.now.slot.0 result (votes ++ vote.now ∷ []) }
    {
        let Some(last) = self.last else {
            return Row {
                last: Some(*vote),
                earlier: None,
            };
        };
        if last.ballot.0 < vote.ballot.0 {
            return Row {
                last: Some(*vote),
                earlier: Some(last),
            };
        }
        if last.ballot.0 == vote.ballot.0 {
            return *self;
        }
        return Row {
            last: Some(last),
            earlier: Some(better(&self.earlier, vote)),
        };
    }

    /// The vote of the greatest ballot below one that no vote passes.
    pub fn below(&self, ballot: Ballot) -> Option<Vote>
        ensures { (slot : ℕ) (votes : List Vote) → IsRow slot self.now votes → IsUpTo ballot.0 self.now.last → result ≡ greatest (counts ballot.0 slot) votes }
    {
        match self.last {
            None => return None,
            Some(last) if last.ballot.0 < ballot.0 => return self.last,
            Some(_) => return self.earlier,
        }
    }

    /// Whether there is a vote of this ballot, which no vote passes.
    pub fn has(&self, ballot: Ballot) -> bool
        ensures { (slot : ℕ) (votes : List Vote) → IsRow slot self.now votes → IsUpTo ballot.0 self.now.last → result ≡ has_vote votes ballot.0 slot }
    {
        match self.last {
            None => return false,
            Some(last) => return last.ballot.0 == ballot.0,
        }
    }
}

// The vote of the greater ballot, the old one where they are equal.
fn better(old: &Option<Vote>, new: &Vote) -> Vote
    ensures { Some result ≡ keep old.now (Some new.now) }
{
    match old {
        Some(old) if new.ballot.0 <= old.ballot.0 => *old,
        _ => *new,
    }
}
