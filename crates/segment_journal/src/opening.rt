//! A file is read whole, and begun where it is to have its first payload.

ghost use Rattle.std.specs.Prelude.{◌≡◌, ◌⊎◌, ℕ, ◌+◌, ◌≤◌, List, [], ◌∷◌, length, Ok, Err, Option, IsTrue, IfSome, IfOk, OnOk, IsErrOf};
ghost use Rattle.log_base.specs.Outside.{Rose};
ghost use Rattle.disk_base.specs.Images.{AddsNoImage, OnlyWhatIsRead, overwritten, Torn, Follows};
ghost use Rattle.disk_base.specs.Moments.{Elapses};
ghost use Rattle.std.specs.Option.{option_map};
ghost use Rattle.segment_journal.specs.Journalled.{AllPayloads};
ghost use Rattle.segment_journal.specs.File.{recovered, HasStart};
ghost use Rattle.segment_journal.specs.Kept.{TornImages, AllHold, AlikeImages, HasDiskRoom};

use crate::device::DiskRuns;
use crate::format::CLOSED;
use crate::journal::OpenFault;
use crate::payloads::Payloads;
use crate::reading::{has_start, read_payloads};
use disk_base::Disk;
use std::alloc::{AllocError, Global};

/// The file of a journal on a disk.
pub trait DiskFile: Disk {
    /// Writes the first closed gate. There stays room for a payload of as many bytes as there was.
    fn begin(&mut self, room: Option<u32>) -> Result<(), OpenFault>
        ensures written { OnOk result (Self.reads self.new ≡ option_map (λ old. overwritten old 0 (0 ∷ [])) (Self.reads self.old)) }
        ensures stable { OnOk result (IsTrue (Self.keeps_synced self.old) → OnlyWhatIsRead (Self.reads self.new) (Self.may_leave self.new)) }
        ensures images { IsTrue (Self.keeps_synced self.old) → (c : List ℕ) → Self.may_leave self.new c → Self.may_leave self.old c ⊎ TornImages 0 1 (Self.may_leave self.old) c }
        ensures time { IsTrue (Self.keeps_synced self.old) → Elapses (Self.moment self.old) (Self.moment self.new) (Self.left_since self.old) (Self.left_since self.new) (λ c. Self.may_leave self.old c ⊎ TornImages 0 1 (Self.may_leave self.old) c) }
        ensures keeps { Self.keeps_synced self.new ≡ Self.keeps_synced self.old }
        ensures room { HasDiskRoom room (Self.writes_left self.old) (Self.bytes_left self.old) → HasDiskRoom room (Self.writes_left self.new) (Self.bytes_left self.new) }
        ensures later { Self.faults self.old ≤ Self.faults self.new }
        ensures failed { IsErrOf result OpenFault.Failed → Rose (Self.faults self.old) (Self.faults self.new) }
        ensures whole { (at : ℕ) → IsErrOf result (OpenFault.Damaged at) → ⊥ };

    /// Reads the payloads of a disk, and begins its file where it is to have its first payload.
    fn open(&mut self, alloc: Global, room: Option<u32>) -> Result<Payloads, OpenFault>
        ensures read { IfOk result (λ read. IfSome (Self.reads self.old) (λ bytes. recovered bytes ≡ Ok read.list)) }
        ensures now { IfOk result (λ read. IfSome (Self.reads self.new) (λ bytes. recovered bytes ≡ Ok read.list)) }
        ensures holds { IfOk result (λ read. IsTrue (Self.keeps_synced self.old) → AllHold (Self.may_leave self.new) read.list) }
        ensures payloads { IfOk result (λ read. AllPayloads read.list) }
        ensures capacity { IfOk result (λ read. length read.list + 1 ≤ read.capacity) }
        ensures damaged { (at : ℕ) → IsErrOf result (OpenFault.Damaged at) → IfSome (Self.reads self.old) (λ bytes. recovered bytes ≡ Err at) }
        ensures damaged_now { (at : ℕ) → IsErrOf result (OpenFault.Damaged at) → IfSome (Self.reads self.new) (λ bytes. recovered bytes ≡ Err at) }
        ensures images { IsTrue (Self.keeps_synced self.old) → (c : List ℕ) → Self.may_leave self.new c → AlikeImages (Self.may_leave self.old) c }
        ensures nothing_written { IsTrue (Self.keeps_synced self.old) → ((c : List ℕ) → Self.may_leave self.old c → HasStart c) → AddsNoImage (Self.may_leave self.old) (Self.may_leave self.new) }
        ensures time { IsTrue (Self.keeps_synced self.old) → Elapses (Self.moment self.old) (Self.moment self.new) (Self.left_since self.old) (Self.left_since self.new) (AlikeImages (Self.may_leave self.old)) }
        ensures keeps { Self.keeps_synced self.new ≡ Self.keeps_synced self.old }
        ensures room { HasDiskRoom room (Self.writes_left self.old) (Self.bytes_left self.old) → HasDiskRoom room (Self.writes_left self.new) (Self.bytes_left self.new) }
        ensures later { Self.faults self.old ≤ Self.faults self.new }
        ensures failed { IsErrOf result OpenFault.Failed → Rose (Self.faults self.old) (Self.faults self.new) };

    /// Opens a disk anew, in service again, and reads its payloads.
    fn open_anew(&mut self, alloc: Global, room: Option<u32>) -> Result<Payloads, OpenFault>
        ensures now { IfOk result (λ read. IfSome (Self.reads self.new) (λ bytes. recovered bytes ≡ Ok read.list)) }
        ensures holds { IfOk result (λ read. IsTrue (Self.keeps_synced self.old) → AllHold (Self.may_leave self.new) read.list) }
        ensures payloads { IfOk result (λ read. AllPayloads read.list) }
        ensures capacity { IfOk result (λ read. length read.list + 1 ≤ read.capacity) }
        ensures damaged { (at : ℕ) → IsErrOf result (OpenFault.Damaged at) → IfSome (Self.reads self.new) (λ bytes. recovered bytes ≡ Err at) }
        ensures nothing_written { IsTrue (Self.keeps_synced self.old) → ((c : List ℕ) → Self.may_leave self.old c → HasStart c) → AddsNoImage (Self.may_leave self.old) (Self.may_leave self.new) }
        ensures time { IsTrue (Self.keeps_synced self.old) → Elapses (Self.moment self.old) (Self.moment self.new) (Self.left_since self.old) (Self.left_since self.new) (AlikeImages (Self.may_leave self.old)) }
        ensures keeps { Self.keeps_synced self.new ≡ Self.keeps_synced self.old }
        ensures room { HasDiskRoom room (Self.writes_left self.old) (Self.bytes_left self.old) → HasDiskRoom room (Self.writes_left self.new) (Self.bytes_left self.new) }
        ensures later { Self.faults self.old ≤ Self.faults self.new }
        ensures failed { IsErrOf result OpenFault.Failed → Rose (Self.faults self.old) (Self.faults self.new) };
}

impl<D: Disk> DiskFile for D {
    fn begin(&mut self, room: Option<u32>) -> Result<(), OpenFault> {
        let bytes = u64::from(room.unwrap_or(0)) + 7;
        match self.ready(bytes) {
            Ok(()) => {}
            Err(_) => return Err(OpenFault::Memory),
        }
        match self.write_stably(0, &[CLOSED]) {
            Ok(()) => return Ok(()),
            Err(_) => return Err(OpenFault::Failed),
        }
    }

    fn open(&mut self, alloc: Global, room: Option<u32>) -> Result<Payloads, OpenFault> {
        let bytes = match self.read_all(alloc) {
            Ok(bytes) => bytes,
            Err(fault) => return Err(fault),
        };
        let read = match read_payloads(alloc, &bytes) {
            Ok(read) => read,
            Err(fault) => return Err(fault),
        };
        if has_start(&bytes) {
            return Ok(read);
        }
        match self.begin(room) {
            Ok(()) => return Ok(read),
            Err(fault) => return Err(fault),
        }
    }

    fn open_anew(&mut self, alloc: Global, room: Option<u32>) -> Result<Payloads, OpenFault> {
        match self.reopen() {
            Ok(()) => {}
            Err(_) => return Err(OpenFault::Failed),
        }
        match self.open(alloc, room) {
            Ok(read) => return Ok(read),
            Err(fault) => return Err(fault),
        }
    }
}
