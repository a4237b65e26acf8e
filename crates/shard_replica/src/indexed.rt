//! The lists of a replica, with an index of its own list.

ghost use Rattle.std.specs.Prelude.{◌≡◌, ℕ, ◌<◌, ◌≤◌, length, List, map, false, is_err, slice_get, slice_set, Some, None, IsSome, IfOk, IfErr, OnOk, OnErr, []};
ghost use Rattle.std.specs.List.{All};
ghost use Rattle.std.specs.Option.{option_map};
ghost use Rattle.record_frame.specs.Entries.{head_of as head_in};
ghost use Rattle.log_model.specs.Pairs.{offset_of, last_of};
ghost use Rattle.log_model.specs.Storage.{IsSpelled, entry_in};
ghost use Rattle.shard_replica.specs.Index.{Indexes, to_ℕ};
ghost use Rattle.shard_replica.specs.Telling.{AreTold};
ghost use Rattle.shard_replica.specs.Lists.{Listed, HoldsRecords, PutsAt, ReloadsAll, HasRoomFor, segments_of, media_of, segment_at, medium_at, after_put, but_room, but_turns, turns_after, answer_of, segments_after};

use crate::lists::{LastReload, Lists};
use crate::pairs::Pairs;
use disk_base::Plan;
use log_base::{Client, Memory, Number, Replica};
use record_frame::{Head, read_head};
use segment_journal::{Halted, Installed, Journal, OpenFault};
use std::alloc::Global;
use std::marker::Model;

/// The lists of a replica. Pairs are found in its own list without a walk.
#[derive(Drop)]
pub struct IndexedLists<J: Journal> {
    own: Replica,
    lists: Lists<J>,
    pairs: Pairs,
}

impl<J: Journal> Model for IndexedLists<J> {
    ghost use Rattle.std.specs.Prelude.{◌<◌, length};
    ghost use Rattle.shard_replica.specs.Index.{Indexes};
    ghost use Rattle.shard_replica.specs.Indexed.{Stored, own_list};

    ghost Value = { Stored };

    ghost view = { λ i. record { own = i.own.0; lists = i.lists } };

    ghost invariant = { λ i. (i.own.0 < length i.lists.segments) × Indexes i.pairs (own_list i.own.0 i.lists).entries };
}

impl<J: Journal> IndexedLists<J> {
    /// The lists that journals keep, of which one is the own. It makes room for the index of a whole list.
    pub fn new(
        alloc: Global,
        journals: Vec<J>,
        own: Replica,
    ) -> Result<IndexedLists<J>, (Memory, Vec<J>)>
        requires records { All (λ j. HoldsRecords (J.state j)) journals.items }
        requires own { own.0 < length journals.items }
        ensures own { IfOk result (λ i. i.own ≡ own.0) }
        ensures segments { IfOk result (λ i. i.lists.segments ≡ segments_of J.state journals.items) }
        ensures media { IfOk result (λ i. i.lists.media ≡ media_of J.state J.faults J.keeps_synced J.turns journals.items) }
        ensures reading { IfOk result (λ i. i.lists.last_reload ≡ None) }
        ensures err { IfErr result (λ e. e.1 ≡ journals) }
    {
        let mut pairs = match Pairs::new(alloc) {
            Ok(pairs) => pairs,
            Err(memory) => return Err((memory, journals)),
        };
        let lists = Lists::new(journals);
        note_all(&lists, own, &mut pairs);
        Ok(IndexedLists { own, lists, pairs })
    }

    /// The offset of a pair in the own list, the greatest one where it stands more than once.
    pub fn offset(&self, client: Client, number: Number) -> Option<u32>
        ensures { result ≡ offset_of (segment_at self.now.lists.segments self.now.own).entries client.0 number.0 }
    {
        self.pairs.offset(client, number)
    }

    /// The greatest number of a client in the own list.
    pub fn last(&self, client: Client) -> Option<Number>
        ensures { option_map to_ℕ result ≡ last_of (segment_at self.now.lists.segments self.now.own).entries client.0 }
    {
        self.pairs.last(client)
    }

    /// The length of a list.
    pub fn len(&self, segment: Replica) -> u32
        requires { segment.0 < length self.now.lists.segments }
        ensures len { result ≡ length (segment_at self.now.lists.segments segment.0).entries }
        ensures few { result ≤ 16384 }
    {
        self.lists.len(segment)
    }

    /// The spelling of the entry at an offset.
    pub fn payload(&self, segment: Replica, offset: u32) -> &[u8]
        requires segment { segment.0 < length self.now.lists.segments }
        requires offset { offset < length (segment_at self.now.lists.segments segment.0).entries }
        ensures entry { slice_get (segment_at self.now.lists.segments segment.0).entries offset ≡ Some (entry_in result.now) }
        ensures spelled { IsSpelled result.now }
    {
        self.lists.payload(segment, offset)
    }

    /// Puts an entry's spelling at the end of a list.
    pub fn put(&mut self, segment: Replica, payload: &[u8]) -> Result<(), Halted>
        requires segment { segment.0 < length self.old.lists.segments }
        requires running { (segment_at self.old.lists.segments segment.0).halted ≡ false }
        requires spelled { IsSpelled payload.now }
        requires few { length (segment_at self.old.lists.segments segment.0).entries < 16384 }
        requires room { length payload.now ≤ (medium_at self.old.lists.media segment.0).room }
        ensures own { self.new.own ≡ self.old.own }
        ensures segments { self.new.lists.segments ≡ slice_set self.old.lists.segments segment.0
            (after_put (segment_at self.old.lists.segments segment.0) (entry_in payload.now) (is_err result)) }
        ensures media { PutsAt segment.0 (is_err result) self.old.lists.media self.new.lists.media }
        ensures reading { self.new.lists.last_reload ≡ None }
    {
        let offset = self.lists.len(segment);
        match self.lists.put(segment, payload) {
            Ok(()) => {}
            Err(halted) => return Err(halted),
        }
        if segment.0 == self.own.0 {
            let head = head_of(payload);
            self.pairs.note(head.client, head.number, offset);
        }
        Ok(())
    }

    /// Makes room for a payload of at most so many bytes at the end of any list.
    pub fn ready(&mut self, bytes: u32) -> Result<(), Memory>
        ensures own { self.new.own ≡ self.old.own }
        ensures segments { self.new.lists.segments ≡ self.old.lists.segments }
        ensures media { map but_room self.new.lists.media ≡ map but_room self.old.lists.media }
        ensures room { OnOk result (HasRoomFor bytes self.new.lists.media) }
        ensures count { length self.new.lists.media ≡ length self.new.lists.segments }
        ensures reading { self.new.lists.last_reload ≡ self.old.lists.last_reload }
    {
        self.lists.ready(bytes)
    }

    /// Hands a plan to each journal.
    pub fn plan(&mut self, plan: Plan)
        ensures own { self.new.own ≡ self.old.own }
        ensures segments { self.new.lists.segments ≡ self.old.lists.segments }
        ensures media { map but_turns self.new.lists.media ≡ map but_turns self.old.lists.media }
        ensures turns { (k : ℕ) → (medium_at self.new.lists.media k).turns
            ≡ turns_after (segment_at self.old.lists.segments k) plan (medium_at self.old.lists.media k) }
        ensures reading { self.new.lists.last_reload ≡ self.old.lists.last_reload }
    {
        self.lists.plan(plan);
    }

    /// Reads the lists anew, in order, and ends at the first fault.
    pub fn reload(&mut self) -> Result<(), OpenFault>
        ensures own { self.new.own ≡ self.old.own }
        ensures segments { self.new.lists.segments ≡ self.old.lists.segments }
        ensures media { ReloadsAll result self.old.lists.media self.new.lists.media }
        ensures count { length self.old.lists.media ≡ length self.old.lists.segments }
        ensures counted { length self.new.lists.media ≡ length self.new.lists.segments }
        ensures flight { OnOk result ((k : ℕ) → (medium_at self.new.lists.media k).reloaded ≡ Some Installed.OneMore
            → IsSome (segment_at self.new.lists.segments k).flight) }
        ensures ok { OnOk result (self.new.lists.last_reload ≡ Some LastReload.Read) }
        ensures err { OnErr result (self.new.lists.last_reload ≡ Some LastReload.Failed) }
    {
        self.lists.reload()
    }

    /// Puts what was read in place, unless the last reload failed, and makes the index anew.
    pub fn install(&mut self) -> Installed
        requires { IsSome self.old.lists.last_reload }
        ensures own { self.new.own ≡ self.old.own }
        ensures answer { result ≡ answer_of self.old.lists.last_reload self.old.lists.media }
        ensures segments { self.new.lists.segments ≡ segments_after self.old.lists.last_reload self.old.lists.segments self.old.lists.media }
        ensures failed { result ≡ Installed.Failed → self.new ≡ self.old }
        ensures faults { map (λ m. m.faults) self.new.lists.media ≡ map (λ m. m.faults) self.old.lists.media }
        ensures keeps { map (λ m. m.keeps_synced) self.new.lists.media ≡ map (λ m. m.keeps_synced) self.old.lists.media }
    {
        let answer = self.lists.install();
        self.pairs.clear();
        note_all(&self.lists, self.own, &mut self.pairs);
        answer
    }

    /// What is told of the journals is what they tell. It does nothing.
    pub fn tell(&self)
        ensures { AreTold J.state J.faults J.keeps_synced J.turns (length self.now.lists.segments) self.now.lists.media }
    {
        self.lists.tell();
    }

    /// Gives the journals back.
    pub fn into_journals(self) -> Vec<J>
        ensures segments { segments_of J.state result.items ≡ self.lists.segments }
        ensures media { media_of J.state J.faults J.keeps_synced J.turns result.items ≡ self.lists.media }
        ensures records { All (λ j. HoldsRecords (J.state j)) result.items }
    {
        let IndexedLists {
            own: _,
            lists,
            pairs: _,
        } = self;
        lists.into_journals()
    }
}

// Notes all entries of a list in an empty index.
fn note_all<J: Journal>(lists: &Lists<J>, own: Replica, pairs: &mut Pairs)
    requires own { own.0 < length lists.now.segments }
    requires empty { pairs.old ≡ record { offsets = []; lasts = [] } }
    ensures { Indexes pairs.new (segment_at lists.now.segments own.0).entries }
{
    for offset in 0..lists.len(own) {
        let head = head_of(lists.payload(own, offset));
        pairs.note(head.client, head.number, offset);
    }
}

// The head of the entry that a payload spells.
pub(crate) fn head_of(payload: &[u8]) -> Head
    requires { IsSpelled payload.now }
    ensures { result ≡ head_in (entry_in payload.now) }
{
    read_head(payload).unwrap()
}
