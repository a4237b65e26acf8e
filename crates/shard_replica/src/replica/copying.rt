//! Copying entries between replicas, and telling what is held.

ghost use Rattle.std.specs.Prelude.{◌≡◌, ◌≢◌, ◌<◌, ◌≤◌, length, take, slice_index, Some, ◌++◌, ◌-◌, replicate, ℕ};
ghost use Rattle.log_model.specs.Storage.{IsSpelled, entry_in, report_of, lengths_of};
ghost use Rattle.peer_copy.specs.Copying.{after_note, span_of_note, window_at, taking_of};
ghost use Rattle.shard_replica.specs.Answers.{TellsCopied, TellsPut, copied_entry, is_halted_copy};
ghost use Rattle.shard_replica.specs.Lists.{segment_at, medium_at, reload_after};
ghost use Rattle.shard_replica.specs.Replica.{own_entries, lists_of, IsRunning, with_put};

use super::ShardReplica;
use crate::answers::Copied;
use cut_chain::Places;
use log_base::Replica;
use peer_copy::{Span, Taking, take};
use record_frame::Lengths;
use segment_journal::Journal;

impl<J: Journal, P: Places> ShardReplica<J, P> {
    /// Takes the entry of an offset that a peer copied, given by its spelling, where it is the next one
    /// of the list.
    pub fn copy(&mut self, segment: Replica, offset: u32, payload: &[u8]) -> Copied
        requires segment { segment.0 < self.old.state.config.replicas }
        requires offset { offset < 16384 }
        requires spelled { IsSpelled payload.now }
        requires running { IsRunning self.old.state.segments }
        requires room { length payload.now ≤ (medium_at self.old.media segment.0).room }
        ensures answer { TellsCopied result (taking_of offset (length (segment_at self.old.state.segments segment.0).entries))
            (length (segment_at self.old.state.segments segment.0).entries) }
        ensures state { self.new.state ≡ with_put self.old.state segment.0
            (copied_entry (taking_of offset (length (segment_at self.old.state.segments segment.0).entries)) (entry_in payload.now)) (is_halted_copy result) }
        ensures media { TellsPut (copied_entry (taking_of offset (length (segment_at self.old.state.segments segment.0).entries)) (entry_in payload.now))
            segment.0 (is_halted_copy result) self.old.media self.new.media }
        ensures reading { self.new.last_reload ≡ reload_after
            (copied_entry (taking_of offset (length (segment_at self.old.state.segments segment.0).entries)) (entry_in payload.now)) self.old.last_reload }
        ensures room { (self.new.runs ≡ self.old.runs) × (self.new.spelling ≡ self.old.spelling) }
    {
        let len = self.lists.len(segment);
        match take(offset, len) {
            Taking::Have => return Copied::Have { len },
            Taking::Gap => return Copied::Gap { len },
            Taking::Put => {}
        }
        match self.lists.put(segment, payload) {
            Ok(()) => return Copied::Put { len: len + 1 },
            Err(_) => return Copied::Halted,
        }
    }

    /// A peer says how many entries of the own list it holds. The entries to be sent to it now are told.
    pub fn copy_ack(&mut self, peer: Replica, held: u32) -> Span
        requires peer { peer.0 < self.old.state.config.replicas }
        requires other { peer.0 ≢ self.old.state.own }
        requires held { held ≤ length (own_entries self.old.state) }
        ensures span { result ≡ span_of_note (slice_index self.old.state.copying.acked peer.0) held (length (own_entries self.old.state)) }
        ensures state { self.new.state ≡ record self.old.state { copying = after_note self.old.state.copying peer.0 held } }
        ensures media { self.new.media ≡ self.old.media }
        ensures reading { self.new.last_reload ≡ self.old.last_reload }
        ensures room { (self.new.runs ≡ self.old.runs) × (self.new.spelling ≡ self.old.spelling) }
    {
        let len = self.lists.len(self.own);
        self.copying.note(peer, held, len)
    }

    /// The entries of the own list that are on their way to a peer.
    pub fn windows(&self, peer: Replica) -> Span
        requires peer { peer.0 < self.now.state.config.replicas }
        requires other { peer.0 ≢ self.now.state.own }
        ensures { result ≡ window_at (slice_index self.now.state.copying.acked peer.0) (length (own_entries self.now.state)) }
    {
        let len = self.lists.len(self.own);
        self.copying.window(peer, len)
    }

    /// The lengths of the lists.
    #[tactic(auto, unfolding(log_model::specs::Storage::report_of))]
    pub fn lengths(&self) -> Lengths
        ensures { result ≡ report_of (lists_of self.now.state) }
    {
        Lengths {
            count: self.config.replicas(),
            length: self.list_lengths(),
        }
    }

    // The lengths of the lists, in the first cells, and 0 in the others.
    fn list_lengths(&self) -> [u32; 32]
        ensures { result ≡ lengths_of (lists_of self.now.state) ++ replicate (32 - length (lists_of self.now.state)) 0 }
    {
        let mut length = [0; 32];
        for segment in 0..self.config.replicas() {
            length[usize::from(segment)] = self.lists.len(Replica(segment));
        }
        length
    }
}
