//! Submitting an entry.

ghost use Rattle.std.specs.Prelude.{◌≡◌, ℕ, ◌<◌, ◌≤◌, length, List, ◌^◌, Some, None, vec_capacity};
ghost use Rattle.record_frame.specs.Entries.{entry_of};
ghost use Rattle.log_model.specs.Submitting.{submit, submit_new};
ghost use Rattle.log_model.specs.Storage.{IsSpelled, entry_in, own_shard};
ghost use Rattle.shard_replica.specs.Answers.{Refuses, Puts, TellsSubmitted, TellsPut, is_halted};
ghost use Rattle.shard_replica.specs.Lists.{PutsAt, segment_at, medium_at, reload_after};
ghost use Rattle.shard_replica.specs.Replica.{member_of, own_entries, IsRunning, with_put, entry_size};

use super::ShardReplica;
use crate::answers::Submitted;
use crate::pairs::LIST_LIMIT;
use cut_chain::Places;
use log_base::{Client, Number};
use record_frame::write_entry;
use segment_journal::Journal;
use shard_registry::State;

impl<J: Journal, P: Places> ShardReplica<J, P> {
    /// Stores an entry in the own list, unless its pair is held or the rule refuses it. The first that
    /// fits is the answer, in the order of the answers.
    pub fn submit(&mut self, client: Client, number: Number, bytes: &[u8]) -> Submitted
        requires size { length bytes.now ≤ 65535 }
        requires running { IsRunning self.old.state.segments }
        requires spelling { entry_size (length bytes.now) ≤ self.old.spelling }
        requires payload { entry_size (length bytes.now) ≤ (medium_at self.old.media self.old.state.own).room }
        ensures answer { TellsSubmitted result
            (submit (member_of self.old.state) (own_entries self.old.state) self.old.state.known (entry_of client number bytes.now)) }
        ensures state { self.new.state ≡ with_put self.old.state self.old.state.own
            (submit (member_of self.old.state) (own_entries self.old.state) self.old.state.known (entry_of client number bytes.now)).put (is_halted result) }
        ensures media { TellsPut (submit (member_of self.old.state) (own_entries self.old.state) self.old.state.known (entry_of client number bytes.now)).put
            self.old.state.own (is_halted result) self.old.media self.new.media }
        ensures reading { self.new.last_reload ≡ reload_after
            (submit (member_of self.old.state) (own_entries self.old.state) self.old.state.known (entry_of client number bytes.now)).put self.old.last_reload }
        ensures runs { self.new.runs ≡ self.old.runs }
    {
        match self.refusal(client, number) {
            Some(answer) => return answer,
            None => return self.put_own(client, number, bytes),
        }
    }

    // Why an entry is not put, if it is not.
    #[tactic(auto, unfolding(log_model::specs::Submitting::submit))]
    fn refusal(&self, client: Client, number: Number) -> Option<Submitted>
        ensures few { result ≡ None → length (own_entries self.now.state) < 16384 }
        ensures rule { (bytes : List ℕ) → Refuses result (length (own_entries self.now.state))
            (submit (member_of self.now.state) (own_entries self.now.state) self.now.state.known (entry_of client number bytes)) (entry_of client number bytes) }
    {
        if let Some(offset) = self.held(client, number) {
            return Some(Submitted::Stored { offset });
        }
        match self.lists.last(client) {
            Some(last) => {
                if number.0 <= last.0 {
                    return Some(Submitted::Stale { last });
                }
                return self.refusal_of_new();
            }
            None => return self.refusal_of_new(),
        }
    }

    // Why an entry of a new number is not put, if it is not.
    fn refusal_of_new(&self) -> Option<Submitted>
        ensures few { result ≡ None → length (own_entries self.now.state) < 16384 }
        ensures rule { (client number : ℕ) (bytes : List ℕ) → Refuses result (length (own_entries self.now.state))
            (submit_new (own_entries self.now.state) (entry_of (record { 0 = client }) (record { 0 = number }) bytes) (own_shard (member_of self.now.state) self.now.state.known))
            (entry_of (record { 0 = client }) (record { 0 = number }) bytes) }
    {
        match self.chain.state(self.shard) {
            None => return Some(Submitted::NotAdded),
            Some(State::Finalised) => return Some(Submitted::Finalised),
            Some(State::Live) => {}
        }
        if self.lists.len(self.own) == LIST_LIMIT {
            return Some(Submitted::Full);
        }
        None
    }

    // Puts an entry at the end of the own list.
    fn put_own(&mut self, client: Client, number: Number, bytes: &[u8]) -> Submitted
        requires size { length bytes.now ≤ 65535 }
        requires running { IsRunning self.old.state.segments }
        requires spelling { entry_size (length bytes.now) ≤ self.old.spelling }
        requires payload { entry_size (length bytes.now) ≤ (medium_at self.old.media self.old.state.own).room }
        requires few { length (own_entries self.old.state) < 16384 }
        ensures answer { Puts result (length (own_entries self.old.state)) }
        ensures state { self.new.state ≡ with_put self.old.state self.old.state.own (Some (entry_of client number bytes.now)) (is_halted result) }
        ensures media { PutsAt self.old.state.own (is_halted result) self.old.media self.new.media }
        ensures reading { self.new.last_reload ≡ None }
        ensures runs { self.new.runs ≡ self.old.runs }
    {
        spell(client, number, bytes, &mut self.spelling);
        let offset = self.lists.len(self.own);
        match self.lists.put(self.own, &self.spelling) {
            Ok(()) => return Submitted::Stored { offset },
            Err(_) => return Submitted::Halted,
        }
    }
}

// Puts the spelling of an entry in a buffer that has room for it.
fn spell(client: Client, number: Number, bytes: &[u8], out: &mut Vec<u8>)
    requires size { length bytes.now ≤ 65535 }
    requires room { entry_size (length bytes.now) ≤ vec_capacity out.old }
    ensures entry { entry_in out.new.items ≡ entry_of client number bytes.now }
    ensures spelled { IsSpelled out.new.items }
    ensures size { length out.new.items ≡ entry_size (length bytes.now) }
{
    widths(client, number);
    out.clear();
    let _ = write_entry(client, number, bytes, out);
}

// The numbers of a pair have their widths.
fn widths(client: Client, number: Number)
    ensures client { client.0 < 2 ^ 16 }
    ensures number { number.0 < 2 ^ 64 }
{
    let _client = client.0;
    let _number = number.0;
}
