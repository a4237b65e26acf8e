//! Reading a position.

ghost use Rattle.log_model.specs.Reading.{read};
ghost use Rattle.log_model.specs.Storage.{HoldsCovered};
ghost use Rattle.shard_replica.specs.Answers.{HasRecordSize, TellsRead};
ghost use Rattle.shard_replica.specs.Replica.{member_of, lists_of};

use super::{ENTRY_BYTES, ShardReplica};
use crate::answers::ReadAnswer;
use crate::indexed::head_of;
use cut_chain::Places;
use log_base::Position;
use segment_journal::Journal;

impl<J: Journal, P: Places> ShardReplica<J, P> {
    /// What is known of a position.
    #[tactic(auto, unfolding(log_model::specs::Reading::read))]
    pub fn read(&self, position: Position) -> ReadAnswer<'_>
        requires { HoldsCovered (member_of self.now.state) (lists_of self.now.state) self.now.state.known }
        ensures answer { TellsRead result (read (member_of self.now.state) (lists_of self.now.state) self.now.state.known position.0) }
        ensures size { HasRecordSize result }
    {
        let mark = self.chain.trim();
        if position.0 < mark.0 {
            return ReadAnswer::Trimmed { mark };
        }
        let Some(place) = self.chain.place(position) else {
            return ReadAnswer::Pending {
                end: self.chain.end(),
            };
        };
        if place.shard.0 != self.shard.0 {
            return ReadAnswer::Elsewhere { shard: place.shard };
        }
        let payload = self.lists.payload(place.segment, place.offset);
        let head = head_of(payload);
        ReadAnswer::Found {
            head,
            bytes: &payload[ENTRY_BYTES as usize..],
        }
    }
}
