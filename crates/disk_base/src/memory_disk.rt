//! A disk in memory, which fails by plan.

ghost use Rattle.std.specs.Prelude.{◌≡◌, ◌+◌, ◌≤◌, max, Some, length, true, false, IsTrue, IsOk, IfSome, IfOk, OnOk, OnErr, is_err, ◌||◌, refl};
ghost use Rattle.std.proofs.Common.{inl};
ghost use Rattle.log_base.specs.Outside.{HasCause, Rose, next_count};
ghost use Rattle.disk_base.specs.Images.{overwritten, read_at, Torn, TornBy, Follows, SameImages, AddsNoImage, OnlyWhatIsRead};
ghost use Rattle.disk_base.specs.Moments.{Elapses};
ghost use Rattle.disk_base.specs.Replay.{MayLeave, LeftSince, after_sync, only_now};
ghost use Rattle.disk_base.specs.InMemory.{new_disk, restarted, after_pass, after_break, after_refusal, counted, due, is_due};

use crate::content::Content;
use crate::disk::{Disk, Plan};
use log_base::{Failed, Memory};
use std::alloc::Global;
use std::marker::Model;

/// Bytes in memory as a disk that keeps synced bytes. A crash may leave each write since the last sync torn.
#[derive(Debug, Drop)]
pub struct MemoryDisk {
    content: Content,
    plan: Option<Plan>,
    is_stopped: bool,
    faults: u64,
}

impl Model for MemoryDisk {
    ghost use Rattle.disk_base.specs.InMemory.{InMemory};

    ghost Value = { InMemory };

    ghost view = { λ d. record { content = d.content; plan = d.plan; stopped = d.is_stopped; faults = d.faults } };
}

impl MemoryDisk {
    /// A disk of these bytes, which count as synced.
    pub fn of(alloc: Global, bytes: Vec<u8>) -> MemoryDisk
        ensures { result ≡ new_disk bytes.items }
    {
        MemoryDisk {
            content: Content::of(alloc, bytes),
            plan: None,
            is_stopped: false,
            faults: 0,
        }
    }

    /// The bytes as they read.
    pub fn bytes(&self) -> &[u8]
        ensures { result.now ≡ self.now.content.kept.seen }
    {
        self.content.bytes()
    }

    /// Ends a stopped state and clears the plan.
    pub(crate) fn restart(&mut self)
        ensures { self.new ≡ restarted self.old }
    {
        self.plan = None;
        self.is_stopped = false;
    }

    /// Counts a fault.
    fn fault(&mut self) -> Failed
        ensures after { self.new ≡ record self.old { faults = next_count self.old.faults } }
        ensures later { self.old.faults ≤ self.new.faults }
        ensures rose { Rose self.old.faults self.new.faults }
    {
        self.faults = self.faults.saturating_add(1);
        Failed
    }

    /// Refuses a write of a stopped disk.
    fn refuse(&mut self, bytes: &[u8])
        requires writes { 1 ≤ self.old.content.writes_left }
        requires bytes { length bytes.now ≤ self.old.content.bytes_left }
        ensures after { self.new ≡ after_refusal self.old (length bytes.now) }
        ensures later { self.old.faults ≤ self.new.faults }
        ensures rose { Rose self.old.faults self.new.faults }
    {
        self.content.pass_over(bytes.len());
        self.faults = self.faults.saturating_add(1);
    }

    /// Fails a write by plan, and stops.
    fn break_off(&mut self, at: usize, bytes: &[u8], plan: Plan)
        requires place { at ≤ length self.old.content.kept.seen }
        requires writes { 1 ≤ self.old.content.writes_left }
        requires bytes { length bytes.now ≤ self.old.content.bytes_left }
        ensures after { self.new ≡ after_break self.old plan at bytes.now }
        ensures later { self.old.faults ≤ self.new.faults }
        ensures rose { Rose self.old.faults self.new.faults }
        ensures reached { TornBy self.old.content.kept.since self.old.content.kept.synced self.old.content.kept.seen }
    {
        let keep = (plan.keep as usize).min(bytes.len());
        self.is_stopped = true;
        self.faults = self.faults.saturating_add(1);
        if plan.lose {
            self.content.put_and_lose(at, bytes, keep);
            return;
        }
        self.content.put(at, bytes, keep);
    }

    /// Lets a write pass, which the plan counts.
    fn let_pass(&mut self, at: usize, bytes: &[u8])
        requires place { at ≤ length self.old.content.kept.seen }
        requires writes { 1 ≤ self.old.content.writes_left }
        requires bytes { length bytes.now ≤ self.old.content.bytes_left }
        ensures after { self.new ≡ after_pass self.old at bytes.now }
        ensures reached { TornBy self.old.content.kept.since self.old.content.kept.synced self.old.content.kept.seen }
    {
        self.plan = counted_plan(self.plan);
        self.content.put(at, bytes, bytes.len());
    }
}

impl Disk for MemoryDisk {
    ghost reads = { λ d. Some d.content.kept.seen };

    ghost may_leave = { λ d. MayLeave d.content.kept };

    ghost moment = { λ d. length d.content.kept.past };

    ghost left_since = { λ d. LeftSince d.content.kept };

    ghost keeps_synced = { λ _. true };

    ghost faults = { λ d. d.faults };

    ghost writes_left = { λ d. d.content.writes_left };

    ghost bytes_left = { λ d. d.content.bytes_left };

    ghost reads_image = { λ d. inl refl };

    ghost keeper_tells = { λ d keeps. refl };

    ghost counts_now = { λ d t c le now. inl now };

    ghost only_now = { λ d c left. only_now d.content.kept c left };

    fn len(&mut self) -> Result<u64, Failed>
        ensures length { IfOk result (λ count. count ≡ length self.old.content.kept.seen) }
        ensures reads { Some self.new.content.kept.seen ≡ Some self.old.content.kept.seen }
        ensures images { SameImages (MayLeave self.old.content.kept) (MayLeave self.new.content.kept) }
        ensures time { Elapses (length self.old.content.kept.past) (length self.new.content.kept.past) (LeftSince self.old.content.kept) (LeftSince self.new.content.kept) (MayLeave self.new.content.kept) }
        ensures keeps { true ≡ true }
        ensures room { (self.new.content.writes_left ≡ self.old.content.writes_left) × (self.new.content.bytes_left ≡ self.old.content.bytes_left) }
        ensures cause { HasCause self.old.faults self.new.faults result }
        ensures fails { is_err result ≡ self.old.stopped }
        ensures ok { OnOk result (self.new ≡ self.old) }
        ensures err { OnErr result (self.new ≡ record self.old { faults = next_count self.old.faults }) }
    {
        if self.is_stopped {
            return Err(self.fault());
        }
        Ok(self.content.bytes().len() as u64)
    }

    fn read(&mut self, at: u64, buf: &mut [u8]) -> Result<(), Failed>
        requires { at + length buf.old ≤ length self.old.content.kept.seen }
        ensures bytes { OnOk result (buf.new ≡ read_at self.old.content.kept.seen at (length buf.old)) }
        ensures reads { Some self.new.content.kept.seen ≡ Some self.old.content.kept.seen }
        ensures images { SameImages (MayLeave self.old.content.kept) (MayLeave self.new.content.kept) }
        ensures time { Elapses (length self.old.content.kept.past) (length self.new.content.kept.past) (LeftSince self.old.content.kept) (LeftSince self.new.content.kept) (MayLeave self.new.content.kept) }
        ensures keeps { true ≡ true }
        ensures room { (self.new.content.writes_left ≡ self.old.content.writes_left) × (self.new.content.bytes_left ≡ self.old.content.bytes_left) }
        ensures cause { HasCause self.old.faults self.new.faults result }
        ensures fails { is_err result ≡ self.old.stopped }
        ensures ok { OnOk result (self.new ≡ self.old) }
        ensures err { OnErr result (self.new ≡ record self.old { faults = next_count self.old.faults }) }
    {
        if self.is_stopped {
            return Err(self.fault());
        }
        let from = at as usize;
        let count = buf.len();
        buf.copy_from_slice(&self.content.bytes()[from..from + count]);
        Ok(())
    }

    fn ready(&mut self, extra: u64) -> Result<(), Memory>
        ensures ok { OnOk result ((8 ≤ self.new.content.writes_left) × (extra ≤ self.new.content.bytes_left)) }
        ensures err { OnErr result ((self.new.content.writes_left ≡ self.old.content.writes_left) × (self.new.content.bytes_left ≡ self.old.content.bytes_left)) }
        ensures reads { Some self.new.content.kept.seen ≡ Some self.old.content.kept.seen }
        ensures images { SameImages (MayLeave self.old.content.kept) (MayLeave self.new.content.kept) }
        ensures time { Elapses (length self.old.content.kept.past) (length self.new.content.kept.past) (LeftSince self.old.content.kept) (LeftSince self.new.content.kept) (MayLeave self.new.content.kept) }
        ensures keeps { true ≡ true }
        ensures count { self.new.faults ≡ self.old.faults }
        ensures exact { OnOk result (self.new ≡ record self.old { content = record { kept = self.old.content.kept; writes_left = 8; bytes_left = max self.old.content.bytes_left extra } }) }
        ensures unchanged { OnErr result (self.new ≡ self.old) }
    {
        self.content.ready(extra)?;
        Ok(())
    }

    /// Fails exactly where the disk is stopped and where the plan is due, and then stops.
    fn write(&mut self, at: u64, bytes: &[u8]) -> Result<(), Failed>
        requires place { at ≤ length self.old.content.kept.seen }
        requires writes { 1 ≤ self.old.content.writes_left }
        requires bytes { length bytes.now ≤ self.old.content.bytes_left }
        ensures written { OnOk result (Some self.new.content.kept.seen ≡ Some (overwritten self.old.content.kept.seen at bytes.now)) }
        ensures images { Follows (Torn at (length bytes.now)) (MayLeave self.old.content.kept) (MayLeave self.new.content.kept) }
        ensures time { Elapses (length self.old.content.kept.past) (length self.new.content.kept.past) (LeftSince self.old.content.kept) (LeftSince self.new.content.kept) (MayLeave self.new.content.kept) }
        ensures keeps { true ≡ true }
        ensures room { (self.new.content.writes_left + 1 ≡ self.old.content.writes_left) × (self.new.content.bytes_left + length bytes.now ≡ self.old.content.bytes_left) }
        ensures cause { HasCause self.old.faults self.new.faults result }
        ensures fails { is_err result ≡ (self.old.stopped || is_due self.old.plan) }
        ensures passed { OnOk result (self.new ≡ after_pass self.old at bytes.now) }
        ensures planned { self.old.stopped ≡ false → is_due self.old.plan ≡ true → IfSome self.old.plan (λ plan. self.new ≡ after_break self.old plan at bytes.now) }
        ensures stopped { self.old.stopped ≡ true → self.new ≡ after_refusal self.old (length bytes.now) }
    {
        let place = at as usize;
        if self.is_stopped {
            self.refuse(bytes);
            return Err(Failed);
        }
        if let Some(plan) = due_plan(self.plan) {
            self.break_off(place, bytes, plan);
            return Err(Failed);
        }
        self.let_pass(place, bytes);
        Ok(())
    }

    fn sync(&mut self) -> Result<(), Failed>
        ensures stable { OnOk result (IsTrue true → OnlyWhatIsRead (Some self.new.content.kept.seen) (MayLeave self.new.content.kept)) }
        ensures reads { OnOk result (Some self.new.content.kept.seen ≡ Some self.old.content.kept.seen) }
        ensures images { IsTrue true → AddsNoImage (MayLeave self.old.content.kept) (MayLeave self.new.content.kept) }
        ensures time { Elapses (length self.old.content.kept.past) (length self.new.content.kept.past) (LeftSince self.old.content.kept) (LeftSince self.new.content.kept) (MayLeave self.new.content.kept) }
        ensures keeps { true ≡ true }
        ensures room { (self.new.content.writes_left ≡ self.old.content.writes_left) × (self.new.content.bytes_left ≡ self.old.content.bytes_left) }
        ensures cause { HasCause self.old.faults self.new.faults result }
        ensures fails { is_err result ≡ self.old.stopped }
        ensures exact { OnOk result (self.new ≡ record self.old { content = record self.old.content { kept = after_sync self.old.content.kept } }) }
        ensures err { OnErr result (self.new ≡ record self.old { faults = next_count self.old.faults }) }
    {
        if self.is_stopped {
            return Err(self.fault());
        }
        self.content.sync();
        Ok(())
    }

    /// Never fails.
    fn reopen(&mut self) -> Result<(), Failed>
        ensures images { IsTrue true → AddsNoImage (MayLeave self.old.content.kept) (MayLeave self.new.content.kept) }
        ensures time { Elapses (length self.old.content.kept.past) (length self.new.content.kept.past) (LeftSince self.old.content.kept) (LeftSince self.new.content.kept) (MayLeave self.new.content.kept) }
        ensures keeps { true ≡ true }
        ensures room { (self.new.content.writes_left ≡ self.old.content.writes_left) × (self.new.content.bytes_left ≡ self.old.content.bytes_left) }
        ensures cause { HasCause self.old.faults self.new.faults result }
        ensures answer { IsOk result }
        ensures exact { self.new ≡ restarted self.old }
    {
        self.restart();
        Ok(())
    }

    fn plan(&mut self, plan: Plan)
        ensures reads { Some self.new.content.kept.seen ≡ Some self.old.content.kept.seen }
        ensures images { SameImages (MayLeave self.old.content.kept) (MayLeave self.new.content.kept) }
        ensures time { Elapses (length self.old.content.kept.past) (length self.new.content.kept.past) (LeftSince self.old.content.kept) (LeftSince self.new.content.kept) (MayLeave self.new.content.kept) }
        ensures keeps { true ≡ true }
        ensures room { (self.new.content.writes_left ≡ self.old.content.writes_left) × (self.new.content.bytes_left ≡ self.old.content.bytes_left) }
        ensures count { self.new.faults ≡ self.old.faults }
        ensures exact { self.new ≡ record self.old { plan = Some plan } }
    {
        self.plan = Some(plan);
    }
}

/// The plan, where it has the next write fail.
fn due_plan(plan: Option<Plan>) -> Option<Plan>
    ensures { result ≡ due plan }
{
    match plan {
        Some(plan) if plan.after == 0 => Some(plan),
        _ => None,
    }
}

/// The plan after a write that it let pass.
fn counted_plan(plan: Option<Plan>) -> Option<Plan>
    ensures { result ≡ counted plan }
{
    match plan {
        Some(plan) => Some(Plan {
            after: plan.after.saturating_sub(1),
            keep: plan.keep,
            lose: plan.lose,
        }),
        None => None,
    }
}
