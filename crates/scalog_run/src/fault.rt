//! Why a run has no output, and the frame that tells it.

ghost use Rattle.std.specs.Prelude.{◌≡◌};
ghost use Rattle.scalog_run.specs.Faults.{opening_fault, reading_fault, stopping_fault};
ghost use Rattle.scalog_run.specs.Output.{fault_frame, fault_spelling, told_of};

use crate::status;
use byteorder::{BigEndian, ByteOrder};
use cluster_disks::OpenStop;
use command_frame::ItemFault;
use log_base::Memory;
use quiet_run::DriveStop;
use std::alloc::{AllocError, AllocFailed};

/// The cause of too many bytes that the disks keep.
const KEPT_BYTES: u8 = 6;

/// Why a run has no output.
#[derive(Clone, Copy, Debug, PartialEq, Eq)]
pub enum RunFault {
    /// No frame or no item of the cluster stands at this place of the input.
    BadInput { at: u64 },
    /// The source failed, after this many bytes were taken from it.
    Unread { at: u64 },
    /// The rack or this disk failed while the disks were opened.
    Unopened { disk: u32 },
    /// This disk is damaged at this place, or holds there the gate of a payload that may not begin a run.
    BadDisk { disk: u32, at: u64 },
    /// A limit is passed: that of items (1), of the bytes of their records (2), of events (3), of known values
    /// (4), of the events' bytes (5), or of the bytes that the disks keep (6).
    TooMany { cause: u8 },
    /// Memory ran out.
    Memory,
}

impl From<AllocError> for RunFault {
    ghost use Rattle.scalog_run.specs.declared.fault.RunFault.TheVariants.{Memory};

    ghost from_gives = { λ _ fault. fault ≡ Memory };

    fn from(_error: AllocError) -> RunFault {
        RunFault::Memory
    }
}

impl<T: Drop> From<AllocFailed<T>> for RunFault {
    ghost use Rattle.scalog_run.specs.declared.fault.RunFault.TheVariants.{Memory};

    ghost from_gives = { λ _ fault. fault ≡ Memory };

    fn from(_error: AllocFailed<T>) -> RunFault {
        RunFault::Memory
    }
}

impl From<Memory> for RunFault {
    ghost use Rattle.scalog_run.specs.declared.fault.RunFault.TheVariants.{Memory as Want};

    ghost from_gives = { λ _ fault. fault ≡ Want };

    fn from(_memory: Memory) -> RunFault {
        RunFault::Memory
    }
}

impl From<ItemFault> for RunFault {
    ghost from_gives = { λ reading fault. fault ≡ reading_fault reading };

    fn from(fault: ItemFault) -> RunFault {
        match fault {
            ItemFault::Bad { at } => RunFault::BadInput { at },
            ItemFault::Read { at } => RunFault::Unread { at },
            ItemFault::Many { cause } => RunFault::TooMany { cause },
            ItemFault::Memory => RunFault::Memory,
        }
    }
}

impl From<OpenStop> for RunFault {
    ghost from_gives = { λ stop fault. fault ≡ opening_fault stop };

    fn from(stop: OpenStop) -> RunFault {
        match stop {
            OpenStop::Unopened { disk } => RunFault::Unopened { disk },
            OpenStop::BadDisk { disk, at } => RunFault::BadDisk { disk, at },
            OpenStop::TooManyKept => RunFault::TooMany { cause: KEPT_BYTES },
            OpenStop::Memory => RunFault::Memory,
        }
    }
}

impl From<DriveStop> for RunFault {
    ghost from_gives = { λ stop fault. fault ≡ stopping_fault stop };

    fn from(stop: DriveStop) -> RunFault {
        match stop {
            DriveStop::Limit { cause } => RunFault::TooMany { cause },
            DriveStop::Memory => RunFault::Memory,
        }
    }
}

impl RunFault {
    /// What its frame tells. Want of memory has no frame.
    pub fn told(self) -> Option<FaultFrame>
        ensures { result ≡ told_of self }
    {
        match self {
            RunFault::BadInput { at } => Some(frame(status::BAD_INPUT, 0, 0, at)),
            RunFault::Unread { at } => Some(frame(status::READ_FAULT, 0, 0, at)),
            RunFault::Unopened { disk } => Some(frame(status::DISK_FAULT, 0, disk, 0)),
            RunFault::BadDisk { disk, at } => Some(frame(status::DISK_FAULT, 1, disk, at)),
            RunFault::TooMany { cause } => Some(frame(status::TOO_MANY, cause, 0, 0)),
            RunFault::Memory => None,
        }
    }
}

fn frame(status: u8, cause: u8, which: u32, at: u64) -> FaultFrame
    ensures { result ≡ fault_frame status cause which at }
{
    FaultFrame {
        status,
        cause,
        which,
        at,
    }
}

/// The kind of the frame of a fault.
const FAULT: u8 = 0x7f;

/// What the frame of a fault tells: the status that the program ends with, its cause, which disk, and the place.
#[derive(Clone, Copy, Debug, PartialEq, Eq)]
pub struct FaultFrame {
    pub status: u8,
    pub cause: u8,
    pub which: u32,
    pub at: u64,
}

impl FaultFrame {
    /// The frame.
    #[tactic(auto, unfolding(log_base::specs::Wide::be4, log_base::specs::Wide::be8))]
    pub fn bytes(self) -> [u8; 19]
        ensures { result ≡ fault_spelling self }
    {
        let mut which = [0; 4];
        BigEndian::write_u32(&mut which, self.which);
        let mut at = [0; 8];
        BigEndian::write_u64(&mut at, self.at);
        [
            0,
            0,
            0,
            15,
            FAULT,
            self.status,
            self.cause,
            which[0],
            which[1],
            which[2],
            which[3],
            at[0],
            at[1],
            at[2],
            at[3],
            at[4],
            at[5],
            at[6],
            at[7],
        ]
    }
}
