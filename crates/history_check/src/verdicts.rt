//! What the checker answers.

use log_base::Memory;

/// Whether a history is legal.
#[derive(Clone, Copy, Debug, PartialEq, Eq)]
pub enum Verdict {
    /// It is, with this many events.
    Lawful { events: u32 },
    /// It is not with the event at this place, and was up to that one. Where its kept lists are not sound, this
    /// is place 0.
    Unlawful { place: u32 },
}

/// Why there is no verdict.
#[derive(Clone, Copy, Debug, PartialEq, Eq)]
pub enum CheckFault {
    /// From this place on the bytes are no frame that may stand there.
    Bad { at: u64 },
    /// The source failed, after this many bytes were taken from it.
    Read { at: u64 },
    /// A limit is passed: 3 that of events, 5 that of the bytes of their frames, 6 that of the bytes of payloads.
    /// 1 is that of frames, of which there may be 2^60: they have more than 2^62 bytes.
    Many { cause: u8 },
    Memory,
}

impl From<Memory> for CheckFault {
    ghost use Rattle.std.specs.Prelude.{◌≡◌};
    ghost use Rattle.history_check.specs.declared.verdicts.CheckFault.TheVariants.{Memory};

    ghost from_gives = { λ _ e. e ≡ Memory };

    fn from(_memory: Memory) -> CheckFault {
        CheckFault::Memory
    }
}
