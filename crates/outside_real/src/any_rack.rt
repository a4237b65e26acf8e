//! The rack of a run.

ghost use Rattle.std.specs.Prelude.{◌≡◌, ℕ, None, Some, refl};

use disk_base::{DiskError, MemoryDisk, MemoryRack, Rack};
use std::alloc::Global;

/// The disks of a run: disks in memory, whatever the folder.
#[derive(Drop)]
pub struct AnyRack {
    memory: MemoryRack,
}

impl AnyRack {
    ghost use Rattle.disk_base.specs.Racks.{disk_of};

    /// A rack without a disk.
    pub fn new(alloc: Global) -> AnyRack
        ensures { (number : ℕ) → disk_of result.memory number ≡ None }
    {
        AnyRack {
            memory: MemoryRack::new(alloc),
        }
    }
}

impl Rack for AnyRack {
    type D = MemoryDisk;

    ghost use Rattle.disk_base.specs.Racks.{HasPlace, next_loan};

    ghost faults = { λ _. 0 };

    ghost lent_under = { λ rack number _. HasPlace rack.memory number };

    ghost disk_faults = { λ rack _ number. (next_loan rack.memory number).faults };

    ghost disk_at = { λ rack _ number. Some (next_loan rack.memory number) };

    ghost told_count = { λ rack folder number. refl };

    fn lend(&mut self, folder: Option<&str>, number: u32) -> Result<MemoryDisk, DiskError> {
        self.memory.lend(folder, number)
    }

    fn give_back(&mut self, number: u32, disk: MemoryDisk) {
        self.memory.give_back(number, disk);
    }
}
