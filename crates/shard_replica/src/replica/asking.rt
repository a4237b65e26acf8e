//! Asking for a pair, and reading a position.

ghost use Rattle.std.specs.Prelude.{◌≡◌, ◌<◌, length, Some, None};
ghost use Rattle.log_model.specs.Asking.{ask, ask_last, ask_stored};
ghost use Rattle.log_model.specs.Pairs.{last_of};
ghost use Rattle.log_model.specs.Storage.{position_of};
ghost use Rattle.shard_replica.specs.Answers.{asked_so};
ghost use Rattle.shard_replica.specs.Replica.{member_of, own_entries};

use super::ShardReplica;
use crate::answers::Asked;
use cut_chain::Places;
use log_base::{Client, Number};
use segment_journal::Journal;
use shard_registry::State;

impl<J: Journal, P: Places> ShardReplica<J, P> {
    /// What is known of a pair.
    #[tactic(auto, unfolding(log_model::specs::Asking::ask))]
    pub fn ask(&self, client: Client, number: Number) -> Asked
        ensures { asked_so result ≡ ask (member_of self.now.state) (own_entries self.now.state) self.now.state.known client.0 number.0 }
    {
        match self.held(client, number) {
            Some(offset) => return self.ask_stored(offset),
            None => return self.ask_last(client, number),
        }
    }

    // A pair that is held at an offset.
    fn ask_stored(&self, offset: u32) -> Asked
        ensures { asked_so result ≡ ask_stored (member_of self.now.state) self.now.state.known
            (position_of (member_of self.now.state) self.now.state.known offset) }
    {
        if let Some(position) = self.position(offset) {
            return Asked::At { position };
        }
        let covered = self.covered();
        match self.chain.state(self.shard) {
            Some(State::Finalised) => return Asked::FinalisedAt { frozen: covered },
            _ => return Asked::Pending { covered },
        }
    }

    // A pair that is not held.
    fn ask_last(&self, client: Client, number: Number) -> Asked
        ensures { asked_so result ≡ ask_last number.0 (last_of (own_entries self.now.state) client.0) }
    {
        match self.lists.last(client) {
            Some(last) if number.0 <= last.0 => return Asked::Stale { last },
            _ => return Asked::Missing,
        }
    }
}
