//! The counts after an event.

ghost use Rattle.std.specs.Prelude.{◌≡◌};
ghost use Rattle.counted_node.specs.Counted.{halted_after as count_halted, stayed_after as count_stayed};

use history_frame::Mark;

/// How many events halted, after one with this mark.
pub(crate) fn halted_after(count: u64, mark: Mark) -> u64
    ensures { result ≡ count_halted count mark }
{
    match mark {
        Mark::Halted => count.saturating_add(1),
        Mark::Done | Mark::OpenedWithout | Mark::OpenedWith | Mark::StayedDown => count,
    }
}

/// How many stayed down.
pub(crate) fn stayed_after(count: u64, mark: Mark) -> u64
    ensures { result ≡ count_stayed count mark }
{
    match mark {
        Mark::StayedDown => count.saturating_add(1),
        Mark::Done | Mark::Halted | Mark::OpenedWithout | Mark::OpenedWith => count,
    }
}
