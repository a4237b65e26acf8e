//! Why a reader of frames has no answer.

use std::alloc::{AllocError, AllocFailed};

/// Why there is no next item, or no next piece of a history.
#[derive(Clone, Copy, Debug, PartialEq, Eq)]
pub enum ItemFault {
    /// The bytes from this place on are no frame that may stand there.
    Bad { at: u64 },
    /// The source failed, after this many bytes were taken from it.
    Read { at: u64 },
    /// A limit is passed: of items 1, that of 65,536 items, or 2, that of 16,777,216 bytes of their records.
    Many { cause: u8 },
    /// Memory ran out.
    Memory,
}

impl From<AllocError> for ItemFault {
    ghost use Rattle.std.specs.Prelude.{◌≡◌};
    ghost use Rattle.reply_frame.specs.declared.faults.ItemFault.TheVariants.{Memory};

    ghost from_gives = { λ _ e. e ≡ Memory };

    fn from(_error: AllocError) -> ItemFault {
        ItemFault::Memory
    }
}

impl<T: Drop> From<AllocFailed<T>> for ItemFault {
    ghost use Rattle.std.specs.Prelude.{◌≡◌};
    ghost use Rattle.reply_frame.specs.declared.faults.ItemFault.TheVariants.{Memory};

    ghost from_gives = { λ _ e. e ≡ Memory };

    fn from(_error: AllocFailed<T>) -> ItemFault {
        ItemFault::Memory
    }
}
