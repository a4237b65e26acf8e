//! A rack of disks, which lends each by its number and takes it back.

ghost use Rattle.std.specs.Prelude.{◌≡◌, ℕ, ◌≤◌, List, Option, IfSome, IfOk, OnOk, OnErr, IsErrOf};
ghost use Rattle.std.specs.Option.{option_copied};
ghost use Rattle.log_base.specs.Outside.{Rose};
ghost use Rattle.disk_base.specs.declared.rack.DiskError.TheVariants.{Memory};
ghost use Rattle.disk_base.specs.Lending.{IsGivenBack, NumberStays, OthersStay};

use crate::disk::Disk;
use std::alloc::{AllocError, AllocFailed};

/// Why a disk could not be lent.
#[derive(Clone, Copy, Debug, PartialEq, Eq)]
pub enum DiskError {
    Failed,
    Memory,
}

impl From<AllocError> for DiskError {
    ghost from_gives = { λ _ error. error ≡ Memory };

    fn from(_error: AllocError) -> DiskError {
        DiskError::Memory
    }
}

impl<T: Drop> From<AllocFailed<T>> for DiskError {
    ghost from_gives = { λ _ error. error ≡ Memory };

    fn from(_error: AllocFailed<T>) -> DiskError {
        DiskError::Memory
    }
}

/// A rack: under each folder, or none, a disk of each number.
pub trait Rack {
    type D: Disk;

    /// How often it failed so far. The count never falls, and stands still at the end of its type.
    ghost faults: { Self → ℕ };

    /// Whether the disk of this number was last lent under this folder, and so goes back there. A rack that
    /// ignores folders says so of each.
    ghost lent_under: { Self → ℕ → Option (List ℕ) → Type 0 };

    /// The count of faults of the disk that lies there.
    ghost disk_faults: { Self → Option (List ℕ) → ℕ → ℕ };

    /// The disk that lies there, where the rack tells it.
    ghost disk_at: { Self → Option (List ℕ) → ℕ → Option Self.D };

    /// Gives the disk that lies there, and makes room for its return.
    fn lend(&mut self, folder: Option<&str>, number: u32) -> Result<Self::D, DiskError>
        ensures disk { IfOk result (λ disk. IfSome (disk_at self.old (option_copied folder.entry) number) (λ there. disk ≡ there)) }
        ensures disk_count { IfOk result (λ disk. Self.D.faults disk ≡ disk_faults self.old (option_copied folder.entry) number) }
        ensures lent { OnOk result (lent_under self.new number (option_copied folder.entry)) }
        ensures others { OthersStay lent_under disk_faults disk_at self.old self.new number }
        ensures refused { OnErr result (NumberStays lent_under disk_faults disk_at self.old self.new number) }
        ensures later { faults self.old ≤ faults self.new }
        ensures cause { IsErrOf result DiskError.Failed → Rose (faults self.old) (faults self.new) };

    /// Puts the disk where the last loan of that number took it from.
    fn give_back(&mut self, number: u32, disk: Self::D)
        requires { (folder : Option (List ℕ)) × lent_under self.old number folder }
        ensures disk { (folder : Option (List ℕ)) → lent_under self.old number folder
            → IfSome (disk_at self.new folder number) (IsGivenBack Self.D.reads Self.D.may_leave Self.D.keeps_synced Self.D.faults disk) }
        ensures disk_count { (folder : Option (List ℕ)) → lent_under self.old number folder → disk_faults self.new folder number ≡ Self.D.faults disk }
        ensures lent { (folder : Option (List ℕ)) → lent_under self.old number folder → lent_under self.new number folder }
        ensures others { OthersStay lent_under disk_faults disk_at self.old self.new number }
        ensures later { faults self.old ≤ faults self.new };

    /// A disk that is told has the count that is told.
    ghost told_count: { (rack : Self) (folder : Option (List ℕ)) (number : ℕ) → IfSome (disk_at rack folder number) (λ disk. Self.D.faults disk ≡ disk_faults rack folder number) };
}
