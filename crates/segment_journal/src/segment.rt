//! A journal in one file of a disk.

ghost use Rattle.std.specs.Prelude.{◌≡◌, ◌≢◌, ℕ, ◌-◌, ◌+◌, ◌<◌, ◌≤◌, List, [], ◌∷◌, ◌++◌, Option, Some, None, Ok, Err, Bool, true, false, IsTrue, IsSome, IfSome, IsSomeAnd, IfOk, IfErr, OnOk, OnErr, IsErrOf, is_err, length, slice_get, option_to_list};
ghost use Rattle.log_base.specs.Outside.{HasCause, Rose};
ghost use Rattle.log_base.specs.Wide.{IsBytes};
ghost use Rattle.disk_base.specs.Images.{AddsNoImage};
ghost use Rattle.disk_base.specs.Moments.{Elapses, LeavesOnly};
ghost use Rattle.segment_journal.specs.Journalled.{no_turns, end_of, with_payload, with_flight, with_reload, IsReloaded, installed_list, loaded};
ghost use Rattle.segment_journal.specs.File.{recovered, place_of, IsBeforeOrAfter};
ghost use Rattle.segment_journal.specs.Kept.{AlikeImages, RecoversKept, IsDamage};

use crate::comparing::compare;
use crate::device::DiskRuns;
use crate::journal::{Halted, Installed, Journal, OpenFault};
use crate::opening::DiskFile;
use crate::outgoing::Outgoing;
use crate::payloads::Payloads;
use disk_base::{Disk, Plan};
use log_base::{Bytes, Failed, Memory};
use std::alloc::Global;
use std::marker::Model;
use std::mem;

/// A list of this many payloads is full.
const MOST: u32 = 16_777_216;

/// A journal in one file of a disk. Where the disk keeps synced bytes, whatever a crash leaves of the file
/// recovers to the list, or to the list with the payload in flight.
#[derive(Debug, Drop)]
pub struct SegmentJournal<D: Disk> {
    alloc: Global,
    disk: D,
    list: Payloads,
    spare: Payloads,
    reloaded: Option<Installed>,
    flight: Option<Bytes>,
    outgoing: Outgoing,
}

impl<D: Disk> Model for SegmentJournal<D> {
    ghost use Rattle.segment_journal.specs.OnDisk.{OnDisk, journalled, IsKept};

    ghost Value = { OnDisk D };

    ghost view = { λ s. record { disk = s.disk; journal = journalled s.list.list s.flight s.outgoing.room s.reloaded } };

    ghost invariant = { λ s. IsKept (D.may_leave s.disk) (D.keeps_synced s.disk) (D.writes_left s.disk) (D.bytes_left s.disk) s.list s.spare s.reloaded s.flight s.outgoing.room };
}

impl<D: Disk> SegmentJournal<D> {
    /// Reads the journal of a disk. An error gives the disk back.
    pub fn load(alloc: Global, disk: D) -> Result<SegmentJournal<D>, (OpenFault, D)>
        ensures read { IfOk result (λ j. IfSome (D.reads disk) (λ bytes. recovered bytes ≡ Ok j.journal.payloads)) }
        ensures fresh { IfOk result (λ j. j.journal ≡ loaded j.journal.payloads) }
        ensures images { IfOk result (λ j. IsTrue (D.keeps_synced disk) → (c : List ℕ) → D.may_leave j.disk c → AlikeImages (D.may_leave disk) c) }
        ensures keeps { IfOk result (λ j. D.keeps_synced j.disk ≡ D.keeps_synced disk) }
        ensures any_moment { IfOk result (λ j. IsTrue (D.keeps_synced disk) → Elapses (D.moment disk) (D.moment j.disk) (D.left_since disk) (D.left_since j.disk) (AlikeImages (D.may_leave disk))) }
        ensures later { IfOk result (λ j. D.faults disk ≤ D.faults j.disk) }
        ensures damaged { IfErr result (λ e. (at : ℕ) → e.0 ≡ OpenFault.Damaged at → IfSome (D.reads disk) (λ bytes. recovered bytes ≡ Err at)) }
        ensures images_back { IfErr result (λ e. IsTrue (D.keeps_synced disk) → (c : List ℕ) → D.may_leave e.1 c → AlikeImages (D.may_leave disk) c) }
        ensures keeps_back { IfErr result (λ e. D.keeps_synced e.1 ≡ D.keeps_synced disk) }
        ensures any_moment_back { IfErr result (λ e. IsTrue (D.keeps_synced disk) → Elapses (D.moment disk) (D.moment e.1) (D.left_since disk) (D.left_since e.1) (AlikeImages (D.may_leave disk))) }
        ensures later_back { IfErr result (λ e. D.faults disk ≤ D.faults e.1) }
        ensures failed { IfErr result (λ e. e.0 ≡ OpenFault.Failed → Rose (D.faults disk) (D.faults e.1)) }
    {
        let mut disk = disk;
        let list = match disk.open(alloc, None) {
            Ok(list) => list,
            Err(fault) => return Err((fault, disk)),
        };
        return Ok(SegmentJournal {
            alloc,
            disk,
            list,
            spare: Payloads::new(alloc),
            reloaded: None,
            flight: None,
            outgoing: Outgoing::new(alloc),
        });
    }

    /// Gives the disk back.
    pub fn into_disk(self) -> D
        ensures disk { result ≡ self.disk }
        ensures images { IsTrue (D.keeps_synced self.disk) → (c : List ℕ) → D.may_leave result c → RecoversKept self.journal.payloads self.journal.flight c }
    {
        self.disk
    }
}

impl<D: Disk> Journal for SegmentJournal<D> {
    ghost use Rattle.segment_journal.specs.OnDisk.{OnDisk};
    ghost use Rattle.std.specs.Prelude.{◌-◌};
    ghost use Rattle.segment_journal.specs.Journalled.{no_turns};
    ghost use Rattle.segment_journal.specs.File.{place_of};

    ghost state = { λ j. j.journal };

    ghost gate_at = { λ j at. place_of j.journal.payloads (at - j.journal.first) };

    ghost faults = { λ j. D.faults j.disk };

    ghost keeps_synced = { λ j. D.keeps_synced j.disk };

    ghost turns = { λ j. no_turns };

    fn first(&self) -> u32 {
        let _ = &self.list;
        0
    }

    fn len(&self) -> u32 {
        self.list.len()
    }

    fn get(&self, at: u32) -> &[u8] {
        self.list.get(at)
    }

    fn gate(&self, at: u32) -> u64 {
        self.list.place(at)
    }

    fn is_halted(&self) -> bool {
        self.flight.is_some()
    }

    fn plan(&mut self, plan: Plan) {
        self.disk.plan(plan);
    }

    fn ready(&mut self, bytes: u32) -> Result<(), Memory> {
        if self.list.len() >= MOST {
            return Err(Memory);
        }
        let most = self.outgoing.room().unwrap_or(0).max(bytes);
        match self.list.ready() {
            Ok(()) => {}
            Err(memory) => return Err(memory),
        }
        match self.disk.ready(u64::from(most) + 6) {
            Ok(()) => {}
            Err(memory) => return Err(memory),
        }
        match self.outgoing.ready(bytes) {
            Ok(()) => return Ok(()),
            Err(memory) => return Err(memory),
        }
    }

    /// Where the disk keeps synced bytes, whatever a crash may leave at a moment since the put began recovers to
    /// the list before or to the list with the payload. After `Ok` whatever a crash now may leave recovers to
    /// the new list.
    fn put(&mut self, payload: &[u8]) -> Result<(), Halted>
        requires running { self.old.journal.halted ≡ false }
        requires room { IsSomeAnd self.old.journal.room (λ bytes. length payload.now ≤ bytes) }
        requires size { length payload.now ≤ 131072 }
        requires few { end_of self.old.journal < 16777216 }
        ensures ok { OnOk result (self.new.journal ≡ with_payload self.old.journal payload.now) }
        ensures err { OnErr result (self.new.journal ≡ with_flight self.old.journal payload.now) }
        ensures cause { HasCause (D.faults self.old.disk) (D.faults self.new.disk) result }
        ensures keeps { D.keeps_synced self.new.disk ≡ D.keeps_synced self.old.disk }
        ensures turn { IfSome no_turns (λ turn. is_err result ≡ turn.put_fails) }
        ensures any_moment { IsTrue (D.keeps_synced self.old.disk)
            → LeavesOnly D.moment D.left_since self.old.disk self.new.disk (IsBeforeOrAfter self.old.journal.payloads payload.now) }
        ensures kept { OnOk result (IsTrue (D.keeps_synced self.old.disk) → (c : List ℕ) → D.may_leave self.new.disk c → recovered c ≡ Ok (self.old.journal.payloads ++ payload.now ∷ [])) }
    {
        self.reloaded = None;
        let copy = self.outgoing.take_in(payload);
        let gate = self.list.end();
        match self.disk.keep(gate, self.outgoing.frame()) {
            Ok(()) => {
                self.list.push(copy);
                return Ok(());
            }
            Err(_) => {
                self.flight = Some(copy);
                return Err(Halted);
            }
        }
    }

    /// Reads what the disk has now. Where the disk keeps synced bytes, nothing is written.
    fn reload(&mut self) -> Result<(), OpenFault>
        ensures ok { OnOk result (IsReloaded self.old.journal self.new.journal) }
        ensures err { OnErr result (self.new.journal ≡ with_reload self.old.journal Installed.Failed) }
        ensures later { D.faults self.old.disk ≤ D.faults self.new.disk }
        ensures failed { IsErrOf result OpenFault.Failed → Rose (D.faults self.old.disk) (D.faults self.new.disk) }
        ensures damaged { IsTrue (D.keeps_synced self.old.disk) → (at : ℕ) → result ≢ Err (OpenFault.Damaged at) }
        ensures keeps { D.keeps_synced self.new.disk ≡ D.keeps_synced self.old.disk }
        ensures turn { IfSome no_turns (λ turn. result ≢ Err OpenFault.Memory → self.new.journal ≡ with_reload self.old.journal turn.reload) }
        ensures read { OnOk result (IfSome (D.reads self.new.disk) (λ bytes. IfSome self.new.journal.reloaded (λ came. recovered bytes ≡ Ok (installed_list self.old.journal.payloads self.old.journal.flight came)))) }
        ensures damage { (at : ℕ) → IsErrOf result (OpenFault.Damaged at) → IfSome (D.reads self.new.disk) (IsDamage self.old.journal.payloads self.old.journal.flight at) }
        ensures images { IsTrue (D.keeps_synced self.old.disk) → AddsNoImage (D.may_leave self.old.disk) (D.may_leave self.new.disk) }
        ensures any_moment { IsTrue (D.keeps_synced self.old.disk)
            → LeavesOnly D.moment D.left_since self.old.disk self.new.disk (RecoversKept self.old.journal.payloads self.old.journal.flight) }
    {
        self.reloaded = Some(Installed::Failed);
        let read = match self.disk.open_anew(self.alloc, self.outgoing.room()) {
            Ok(read) => read,
            Err(fault) => return Err(fault),
        };
        match compare(&read, &self.list, self.flight.as_ref()) {
            Ok(came) => {
                self.spare = read;
                self.reloaded = Some(came);
                return Ok(());
            }
            Err(at) => return Err(OpenFault::Damaged { at }),
        }
    }

    fn install(&mut self) -> Installed {
        let came = match self.reloaded {
            None | Some(Installed::Failed) => return Installed::Failed,
            Some(came) => came,
        };
        mem::swap(&mut self.list, &mut self.spare);
        self.flight = None;
        self.reloaded = None;
        came
    }
}
