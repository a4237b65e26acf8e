//! Why a cluster could not be opened.

use segment_journal::OpenFault;
use std::alloc::{AllocError, AllocFailed};

/// Why a cluster could not be opened.
#[derive(Clone, Copy, Debug, PartialEq, Eq)]
pub enum OpenStop {
    /// The rack or this disk failed.
    Unopened { disk: u32 },
    /// This disk is damaged at this place, or holds there the gate of a payload that may not begin a run.
    BadDisk { disk: u32, at: u64 },
    /// The disks keep too many bytes.
    TooManyKept,
    /// Memory ran out.
    Memory,
}

impl OpenStop {
    ghost use Rattle.std.specs.Prelude.{◌≡◌};
    ghost use Rattle.cluster_disks.specs.Opened.{unopened_as};

    /// Why a disk whose journal could not be read is not open.
    pub(crate) fn unread(disk: u32, fault: OpenFault) -> OpenStop
        ensures { result ≡ unopened_as disk fault }
    {
        match fault {
            OpenFault::Failed => OpenStop::Unopened { disk },
            OpenFault::Damaged { at } => OpenStop::BadDisk { disk, at },
            OpenFault::Memory => OpenStop::Memory,
        }
    }
}

impl From<AllocError> for OpenStop {
    ghost use Rattle.std.specs.Prelude.{◌≡◌};
    ghost use Rattle.cluster_disks.specs.declared.stop.OpenStop.TheVariants.{Memory};

    ghost from_gives = { λ _ stop. stop ≡ Memory };

    fn from(_error: AllocError) -> OpenStop {
        OpenStop::Memory
    }
}

impl<T: Drop> From<AllocFailed<T>> for OpenStop {
    ghost use Rattle.std.specs.Prelude.{◌≡◌};
    ghost use Rattle.cluster_disks.specs.declared.stop.OpenStop.TheVariants.{Memory};

    ghost from_gives = { λ _ stop. stop ≡ Memory };

    fn from(_error: AllocFailed<T>) -> OpenStop {
        OpenStop::Memory
    }
}
