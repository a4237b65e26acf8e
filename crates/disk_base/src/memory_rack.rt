//! A rack of disks in memory.

ghost use Rattle.std.specs.Prelude.{◌≡◌, ◌≢◌, ◌≤◌, ℕ, List, Option, None, Some, refl, OnOk, OnErr, IfOk, IsOk};
ghost use Rattle.std.specs.Option.{option_copied};

use crate::memory_disk::MemoryDisk;
use crate::rack::{DiskError, Rack};
use log_base::Memory;
use std::alloc::Global;
use std::collections::BTreeMap;

/// Disks in memory by number. It ignores folders: the disk of a number is one, whatever the folder.
#[derive(Drop)]
pub struct MemoryRack {
    alloc: Global,
    /// The disks that lie here, and the numbers whose disk is lent.
    disks: BTreeMap<u32, Option<MemoryDisk>>,
}

impl MemoryRack {
    ghost use Rattle.disk_base.specs.InMemory.{new_disk, restarted};
    ghost use Rattle.disk_base.specs.Racks.{disk_of, next_loan, HasPlace};

    /// A rack without a disk.
    pub fn new(alloc: Global) -> MemoryRack
        ensures { (number : ℕ) → disk_of result number ≡ None }
    {
        MemoryRack {
            alloc,
            disks: BTreeMap::new(alloc),
        }
    }

    /// Puts a disk there, in the place of one that may lie there. It is dropped where memory runs out.
    pub fn place(&mut self, number: u32, disk: MemoryDisk) -> Result<(), Memory>
        ensures ok { OnOk result (disk_of self.new number ≡ Some disk) }
        ensures others { (other : ℕ) → other ≢ number → disk_of self.new other ≡ disk_of self.old other }
        ensures err { OnErr result (disk_of self.new number ≡ disk_of self.old number) }
    {
        self.disks.insert(number, Some(disk))?;
        Ok(())
    }

    /// The disk of a number, unless it is lent.
    pub fn disk(&self, number: u32) -> Option<&MemoryDisk>
        ensures { option_copied result ≡ disk_of self.now number }
    {
        match self.disks.get(&number) {
            Some(Some(disk)) => Some(disk),
            _ => None,
        }
    }
}

impl Rack for MemoryRack {
    type D = MemoryDisk;

    ghost use Rattle.disk_base.specs.InMemory.{restarted};
    ghost use Rattle.disk_base.specs.Racks.{disk_of, next_loan, HasPlace, IsBack, OtherNumbersStay};

    ghost faults = { λ _. 0 };

    ghost lent_under = { λ rack number _. HasPlace rack number };

    ghost disk_faults = { λ rack _ number. (next_loan rack number).faults };

    ghost disk_at = { λ rack _ number. Some (next_loan rack number) };

    ghost told_count = { λ rack folder number. refl };

    /// Gives the disk that was placed or given back last, or an empty one.
    fn lend(&mut self, _folder: Option<&str>, number: u32) -> Result<MemoryDisk, DiskError> {
        match self.disks.insert(number, None)? {
            Some(Some(disk)) => Ok(disk),
            _ => Ok(MemoryDisk::of(self.alloc, Vec::new(self.alloc))),
        }
    }

    /// Ends the disk's stopped state and clears its plan.
    fn give_back(&mut self, number: u32, mut disk: MemoryDisk)
        requires { (folder : Option (List ℕ)) × HasPlace self.old number }
        ensures disk { (folder : Option (List ℕ)) → HasPlace self.old number → IsBack disk (next_loan self.new number) }
        ensures disk_count { (folder : Option (List ℕ)) → HasPlace self.old number → (next_loan self.new number).faults ≡ disk.faults }
        ensures lent { (folder : Option (List ℕ)) → HasPlace self.old number → HasPlace self.new number }
        ensures others { OtherNumbersStay self.old self.new number }
        ensures later { 0 ≤ 0 }
        ensures exact { disk_of self.new number ≡ Some (restarted disk) }
    {
        disk.restart();
        let _ = self.disks.insert(number, Some(disk));
    }
}
