//! Why bytes are no entry, value or message.

use std::alloc::{AllocError, AllocFailed};

/// Why bytes were refused, by the first field from the left that is wrong.
#[derive(Clone, Copy, Debug, PartialEq, Eq)]
pub enum Refusal {
    /// The bytes end before the field does, which ends at this offset.
    Short { need: usize },
    /// A record of this length, above 65,535.
    TooLong { length: u64 },
    /// The first byte, or that of an entry or value within, is no kind of its grammar.
    BadKind { byte: u8 },
    /// Any other number that is out of range, which stands at this offset.
    BadNumber { at: usize },
    /// All bytes had to be taken, and this many are left over.
    Long { extra: usize },
    /// Memory ran out.
    Memory,
}

impl From<AllocError> for Refusal {
    ghost use Rattle.std.specs.Prelude.{◌≡◌};
    ghost use Rattle.record_frame.specs.declared.refusals.Refusal.TheVariants.{Memory};

    ghost from_gives = { λ _ e. e ≡ Memory };

    fn from(_error: AllocError) -> Refusal {
        Refusal::Memory
    }
}

impl<T: Drop> From<AllocFailed<T>> for Refusal {
    ghost use Rattle.std.specs.Prelude.{◌≡◌};
    ghost use Rattle.record_frame.specs.declared.refusals.Refusal.TheVariants.{Memory};

    ghost from_gives = { λ _ e. e ≡ Memory };

    fn from(_error: AllocFailed<T>) -> Refusal {
        Refusal::Memory
    }
}
