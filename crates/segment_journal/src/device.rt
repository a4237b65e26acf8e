//! Runs of a few calls of a disk.

ghost use Rattle.std.specs.Prelude.{◌≡◌, ℕ, ◌+◌, ◌^◌, ◌<◌, ◌≤◌, List, [], ◌∷◌, ◌++◌, length, IsTrue, IfSome, IfOk, OnOk, IsErrOf};
ghost use Rattle.std.specs.Option.{ForSome, option_map};
ghost use Rattle.log_base.specs.Outside.{HasCause, Rose};
ghost use Rattle.disk_base.specs.Images.{overwritten, Torn, Follows, AddsNoImage, OnlyWhatIsRead};
ghost use Rattle.disk_base.specs.Moments.{Elapses, LeavesOnly};
ghost use Rattle.segment_journal.specs.File.{Holds, HoldsEither};
ghost use Rattle.segment_journal.specs.Kept.{TornImages, AllHold, IsFrameOf};

use crate::format::OPEN;
use crate::journal::OpenFault;
use disk_base::Disk;
use log_base::Failed;
use std::alloc::{AllocError, Global};

/// A few calls of a disk, one after the other.
pub trait DiskRuns: Disk {
    /// Writes, and makes what was written stable.
    fn write_stably(&mut self, at: u64, bytes: &[u8]) -> Result<(), Failed>
        requires place { ForSome (Self.reads self.old) (λ old. at ≤ length old) }
        requires writes { 1 ≤ Self.writes_left self.old }
        requires bytes { length bytes.now ≤ Self.bytes_left self.old }
        ensures written { OnOk result (Self.reads self.new ≡ option_map (λ old. overwritten old at bytes.now) (Self.reads self.old)) }
        ensures stable { OnOk result (IsTrue (Self.keeps_synced self.old) → OnlyWhatIsRead (Self.reads self.new) (Self.may_leave self.new)) }
        ensures images { IsTrue (Self.keeps_synced self.old) → Follows (Torn at (length bytes.now)) (Self.may_leave self.old) (Self.may_leave self.new) }
        ensures time { IsTrue (Self.keeps_synced self.old) → Elapses (Self.moment self.old) (Self.moment self.new) (Self.left_since self.old) (Self.left_since self.new) (TornImages at (length bytes.now) (Self.may_leave self.old)) }
        ensures keeps { Self.keeps_synced self.new ≡ Self.keeps_synced self.old }
        ensures room { (Self.writes_left self.new + 1 ≡ Self.writes_left self.old) × (Self.bytes_left self.new + length bytes.now ≡ Self.bytes_left self.old) }
        ensures cause { HasCause (Self.faults self.old) (Self.faults self.new) result };

    /// Puts a frame behind the closed gate at this place, and then opens the gate. A disk that did not keep what
    /// was synced may be shorter than that: there it writes at the end, and nothing is promised.
    fn keep(&mut self, gate: u64, frame: &[u8]) -> Result<(), Failed>
        requires small { gate < 2 ^ 62 }
        requires writes { 2 ≤ Self.writes_left self.old }
        requires bytes { length frame.now + 1 ≤ Self.bytes_left self.old }
        ensures moments { (payloads : List (List ℕ)) (payload : List ℕ) → IsFrameOf gate frame.now payloads payload → IsTrue (Self.keeps_synced self.old) → AllHold (Self.may_leave self.old) payloads
            → LeavesOnly Self.moment Self.left_since self.old self.new (HoldsEither payloads payload) }
        ensures images { (payloads : List (List ℕ)) (payload : List ℕ) → IsFrameOf gate frame.now payloads payload → IsTrue (Self.keeps_synced self.old) → AllHold (Self.may_leave self.old) payloads
            → (c : List ℕ) → Self.may_leave self.new c → HoldsEither payloads payload c }
        ensures stable { OnOk result ((payloads : List (List ℕ)) (payload : List ℕ) → IsFrameOf gate frame.now payloads payload → IsTrue (Self.keeps_synced self.old) → AllHold (Self.may_leave self.old) payloads
            → AllHold (Self.may_leave self.new) (payloads ++ payload ∷ [])) }
        ensures keeps { Self.keeps_synced self.new ≡ Self.keeps_synced self.old }
        ensures cause { HasCause (Self.faults self.old) (Self.faults self.new) result };

    /// Makes what was written stable, and reads all of it.
    fn read_all(&mut self, alloc: Global) -> Result<Vec<u8>, OpenFault>
        ensures bytes { IfOk result (λ bytes. IfSome (Self.reads self.old) (λ old. bytes.items ≡ old)) }
        ensures reads { OnOk result (Self.reads self.new ≡ Self.reads self.old) }
        ensures stable { OnOk result (IsTrue (Self.keeps_synced self.old) → OnlyWhatIsRead (Self.reads self.new) (Self.may_leave self.new)) }
        ensures images { IsTrue (Self.keeps_synced self.old) → AddsNoImage (Self.may_leave self.old) (Self.may_leave self.new) }
        ensures time { IsTrue (Self.keeps_synced self.old) → Elapses (Self.moment self.old) (Self.moment self.new) (Self.left_since self.old) (Self.left_since self.new) (Self.may_leave self.old) }
        ensures keeps { Self.keeps_synced self.new ≡ Self.keeps_synced self.old }
        ensures room { (Self.writes_left self.new ≡ Self.writes_left self.old) × (Self.bytes_left self.new ≡ Self.bytes_left self.old) }
        ensures later { Self.faults self.old ≤ Self.faults self.new }
        ensures failed { IsErrOf result OpenFault.Failed → Rose (Self.faults self.old) (Self.faults self.new) }
        ensures whole { (at : ℕ) → IsErrOf result (OpenFault.Damaged at) → ⊥ };
}

impl<D: Disk> DiskRuns for D {
    fn write_stably(&mut self, at: u64, bytes: &[u8]) -> Result<(), Failed> {
        match self.write(at, bytes) {
            Ok(()) => {}
            Err(failed) => return Err(failed),
        }
        match self.sync() {
            Ok(()) => return Ok(()),
            Err(failed) => return Err(failed),
        }
    }

    fn keep(&mut self, gate: u64, frame: &[u8]) -> Result<(), Failed> {
        let length = match self.len() {
            Ok(length) => length,
            Err(failed) => return Err(failed),
        };
        match self.write_stably(length.min(gate + 1), frame) {
            Ok(()) => {}
            Err(failed) => return Err(failed),
        }
        match self.write_stably(length.min(gate), &[OPEN]) {
            Ok(()) => return Ok(()),
            Err(failed) => return Err(failed),
        }
    }

    fn read_all(&mut self, alloc: Global) -> Result<Vec<u8>, OpenFault> {
        match self.sync() {
            Ok(()) => {}
            Err(_) => return Err(OpenFault::Failed),
        }
        let length = match self.len() {
            Ok(length) => length,
            Err(_) => return Err(OpenFault::Failed),
        };
        let mut bytes = vec![in alloc; 0u8; length as usize]?;
        match self.read(0, &mut bytes) {
            Ok(()) => return Ok(bytes),
            Err(_) => return Err(OpenFault::Failed),
        }
    }
}
