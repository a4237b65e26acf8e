//! The lists of a replica.

ghost use Rattle.std.specs.Prelude.{◌≡◌, ℕ, ◌<◌, ◌≤◌, length, List, map, false, is_err, slice_get, slice_set, Some, None, IsSome, OnOk, OnErr, if◌then◌else◌};
ghost use Rattle.std.specs.List.{All};
ghost use Rattle.log_model.specs.Storage.{IsSpelled, entry_in};
ghost use Rattle.segment_journal.specs.Journalled.{planned};
ghost use Rattle.shard_replica.specs.Lists.{Listed, HoldsRecords, PutsAt, ReloadsAll, HasRoomFor, medium_of, segments_of, media_of, segment_at, medium_at, after_put, but_room, but_turns, turns_after, answer_of, came_to, is_one_more, segments_after, reopened_all};
ghost use Rattle.shard_replica.specs.Telling.{AreTold};
ghost use Rattle.shard_replica.specs.Journals.{AllHold, IsKnown, journal_at, turns_at, states_of, roomless, unread};

use disk_base::Plan;
use log_base::{Memory, Replica};
use segment_journal::{Halted, Installed, Journal, OpenFault};
use std::marker::Model;

/// How the last reload of all lists ended.
#[derive(Clone, Copy, Debug, PartialEq, Eq)]
pub enum LastReload {
    /// A list could not be read.
    Failed,
    Read,
}

/// The lists of a replica, one for each segment, kept by a journal each.
#[derive(Drop)]
pub struct Lists<J: Journal> {
    journals: Vec<J>,
    last_reload: Option<LastReload>,
}

impl<J: Journal> Model for Lists<J> {
    ghost use Rattle.shard_replica.specs.Lists.{Listed, segments_of, media_of};
    ghost use Rattle.shard_replica.specs.Journals.{IsKept, states_of};

    ghost Value = { Listed };

    ghost view = { λ l. record {
      segments = segments_of J.state l.journals.items;
      media = media_of J.state J.faults J.keeps_synced J.turns l.journals.items;
      last_reload = l.last_reload;
    } };

    ghost invariant = { λ l. IsKept l.last_reload (states_of J.state l.journals.items) };
}

impl<J: Journal> Lists<J> {
    /// The lists that journals keep.
    pub fn new(journals: Vec<J>) -> Lists<J>
        requires { All (λ j. HoldsRecords (J.state j)) journals.items }
        ensures segments { result.segments ≡ segments_of J.state journals.items }
        ensures media { result.media ≡ media_of J.state J.faults J.keeps_synced J.turns journals.items }
        ensures reading { result.last_reload ≡ None }
    {
        Lists {
            journals,
            last_reload: None,
        }
    }

    /// The length of a list.
    pub fn len(&self, segment: Replica) -> u32
        requires { segment.0 < length self.now.segments }
        ensures len { result ≡ length (segment_at self.now.segments segment.0).entries }
        ensures few { result ≤ 16384 }
    {
        self.journals[usize::from(segment.0)].len()
    }

    /// The spelling of the entry at an offset.
    pub fn payload(&self, segment: Replica, offset: u32) -> &[u8]
        requires segment { segment.0 < length self.now.segments }
        requires offset { offset < length (segment_at self.now.segments segment.0).entries }
        ensures entry { slice_get (segment_at self.now.segments segment.0).entries offset ≡ Some (entry_in result.now) }
        ensures spelled { IsSpelled result.now }
    {
        self.journals[usize::from(segment.0)].get(offset)
    }

    /// Puts an entry's spelling at the end of a list.
    pub fn put(&mut self, segment: Replica, payload: &[u8]) -> Result<(), Halted>
        requires segment { segment.0 < length self.old.segments }
        requires running { (segment_at self.old.segments segment.0).halted ≡ false }
        requires spelled { IsSpelled payload.now }
        requires few { length (segment_at self.old.segments segment.0).entries < 16384 }
        requires room { length payload.now ≤ (medium_at self.old.media segment.0).room }
        ensures segments { self.new.segments ≡ slice_set self.old.segments segment.0
            (after_put (segment_at self.old.segments segment.0) (entry_in payload.now) (is_err result)) }
        ensures media { PutsAt segment.0 (is_err result) self.old.media self.new.media }
        ensures reading { self.new.last_reload ≡ None }
    {
        self.last_reload = None;
        self.journals[usize::from(segment.0)].put(payload)
    }

    /// Makes room for a payload of at most so many bytes at the end of any list.
    pub fn ready(&mut self, bytes: u32) -> Result<(), Memory>
        ensures segments { self.new.segments ≡ self.old.segments }
        ensures media { map but_room self.new.media ≡ map but_room self.old.media }
        ensures room { OnOk result (HasRoomFor bytes self.new.media) }
        ensures count { length self.new.media ≡ length self.new.segments }
        ensures reading { self.new.last_reload ≡ self.old.last_reload }
    {
        ready_all(&mut self.journals, bytes)
    }

    /// Hands a plan to each journal.
    pub fn plan(&mut self, plan: Plan)
        ensures segments { self.new.segments ≡ self.old.segments }
        ensures media { map but_turns self.new.media ≡ map but_turns self.old.media }
        ensures turns { (k : ℕ) → (medium_at self.new.media k).turns
            ≡ turns_after (segment_at self.old.segments k) plan (medium_at self.old.media k) }
        ensures reading { self.new.last_reload ≡ self.old.last_reload }
    {
        plan_all(&mut self.journals, plan);
    }

    /// Reads the lists anew, in order, and ends at the first fault.
    pub fn reload(&mut self) -> Result<(), OpenFault>
        ensures segments { self.new.segments ≡ self.old.segments }
        ensures media { ReloadsAll result self.old.media self.new.media }
        ensures count { length self.old.media ≡ length self.old.segments }
        ensures counted { length self.new.media ≡ length self.new.segments }
        ensures flight { OnOk result ((k : ℕ) → (medium_at self.new.media k).reloaded ≡ Some Installed.OneMore
            → IsSome (segment_at self.new.segments k).flight) }
        ensures ok { OnOk result (self.new.last_reload ≡ Some LastReload.Read) }
        ensures err { OnErr result (self.new.last_reload ≡ Some LastReload.Failed) }
    {
        self.last_reload = Some(LastReload::Failed);
        match reload_all(&mut self.journals) {
            Ok(()) => {
                self.last_reload = Some(LastReload::Read);
                return Ok(());
            }
            Err(fault) => return Err(fault),
        }
    }

    /// Puts what was read in place, unless the last reload failed.
    pub fn install(&mut self) -> Installed
        requires { IsSome self.old.last_reload }
        ensures answer { result ≡ answer_of self.old.last_reload self.old.media }
        ensures segments { self.new.segments ≡ segments_after self.old.last_reload self.old.segments self.old.media }
        ensures failed { result ≡ Installed.Failed → self.new ≡ self.old }
        ensures faults { map (λ m. m.faults) self.new.media ≡ map (λ m. m.faults) self.old.media }
        ensures keeps { map (λ m. m.keeps_synced) self.new.media ≡ map (λ m. m.keeps_synced) self.old.media }
    {
        match self.last_reload {
            Some(LastReload::Read) => {
                self.last_reload = None;
                return install_all(&mut self.journals);
            }
            _ => return Installed::Failed,
        }
    }

    /// What is told of the journals is what they tell. It does nothing.
    pub fn tell(&self)
        ensures { AreTold J.state J.faults J.keeps_synced J.turns (length self.now.segments) self.now.media }
    {
        let _ = &self.journals;
    }

    /// Gives the journals back.
    pub fn into_journals(self) -> Vec<J>
        ensures segments { segments_of J.state result.items ≡ self.segments }
        ensures media { media_of J.state J.faults J.keeps_synced J.turns result.items ≡ self.media }
        ensures records { All (λ j. HoldsRecords (J.state j)) result.items }
    {
        let Lists {
            journals,
            last_reload: _,
        } = self;
        journals
    }
}

// Makes room in each journal.
fn ready_all<J: Journal>(journals: &mut [J], bytes: u32) -> Result<(), Memory>
    ensures states { map (λ j. roomless (J.state j)) journals.new ≡ map (λ j. roomless (J.state j)) journals.old }
    ensures media { map (λ j. but_room (medium_of (J.state j) (J.faults j) (J.keeps_synced j) (J.turns j))) journals.new
        ≡ map (λ j. but_room (medium_of (J.state j) (J.faults j) (J.keeps_synced j) (J.turns j))) journals.old }
    ensures room { OnOk result (HasRoomFor bytes (media_of J.state J.faults J.keeps_synced J.turns journals.new)) }
{
    for journal in journals.iter_mut() {
        match journal.ready(bytes) {
            Ok(()) => {}
            Err(memory) => return Err(memory),
        }
    }
    Ok(())
}

// Hands a plan to each journal.
fn plan_all<J: Journal>(journals: &mut [J], plan: Plan)
    ensures states { map (λ j. J.state j) journals.new ≡ map (λ j. J.state j) journals.old }
    ensures faults { map (λ j. J.faults j) journals.new ≡ map (λ j. J.faults j) journals.old }
    ensures keeps { map (λ j. J.keeps_synced j) journals.new ≡ map (λ j. J.keeps_synced j) journals.old }
    ensures turns { (k : ℕ) → turns_at J.turns journals.new k
        ≡ planned (journal_at (states_of J.state journals.old) k).flight plan (turns_at J.turns journals.old k) }
{
    for journal in journals.iter_mut() {
        journal.plan(plan);
    }
}

// Reads each journal anew, up to the first fault.
fn reload_all<J: Journal>(journals: &mut [J]) -> Result<(), OpenFault>
    ensures states { map (λ j. unread (J.state j)) journals.new ≡ map (λ j. unread (J.state j)) journals.old }
    ensures media { ReloadsAll result (media_of J.state J.faults J.keeps_synced J.turns journals.old)
        (media_of J.state J.faults J.keeps_synced J.turns journals.new) }
    ensures flight { OnOk result ((k : ℕ) → k < length journals.new
        → IsKnown (journal_at (states_of J.state journals.new) k)) }
{
    for journal in journals.iter_mut() {
        match journal.reload() {
            Ok(()) => {}
            Err(fault) => return Err(fault),
        }
    }
    Ok(())
}

// Puts in place what was read of each journal.
fn install_all<J: Journal>(journals: &mut [J]) -> Installed
    requires hold { AllHold (states_of J.state journals.old) }
    requires read { (k : ℕ) → k < length journals.old → IsSome (journal_at (states_of J.state journals.old) k).reloaded }
    ensures hold { AllHold (states_of J.state journals.new) }
    ensures answer { result ≡ came_to (media_of J.state J.faults J.keeps_synced J.turns journals.old) }
    ensures segments { segments_of J.state journals.new
        ≡ reopened_all (segments_of J.state journals.old) (media_of J.state J.faults J.keeps_synced J.turns journals.old) }
    ensures faults { map (λ j. J.faults j) journals.new ≡ map (λ j. J.faults j) journals.old }
    ensures keeps { map (λ j. J.keeps_synced j) journals.new ≡ map (λ j. J.keeps_synced j) journals.old }
{
    let mut answer = Installed::Same;
    for journal in journals.iter_mut() {
        answer = joined(answer, journal.install());
    }
    answer
}

// What some journals and one more came to.
fn joined(so_far: Installed, came: Installed) -> Installed
    ensures { result ≡ (if is_one_more (Some came) then Installed.OneMore else so_far) }
{
    match came {
        Installed::OneMore => Installed::OneMore,
        Installed::Failed | Installed::Same => so_far,
    }
}
