//! What a pass may use, and what it has used.

ghost use Rattle.std.specs.Prelude.{◌≡◌, ◌+◌, ◌<◌, ◌≤◌};
ghost use Rattle.std.specs.Bool.{OnTrue, OnFalse};
ghost use Rattle.tied_cells.specs.Turns.{IsSpent, HasLeft, charged};

/// The most bytes that one event counts with.
const LARGEST_EVENT: u32 = 2_097_152;

/// The number of a pass, how many places and bytes of events it has used, and how many it may use.
#[derive(Clone, Copy, Debug)]
pub struct Account {
    pub number: u16,
    pub used: u32,
    pub places: u32,
    pub bytes: u32,
    pub room: u32,
}

impl Account {
    /// No place, or fewer bytes than an event may have, are left.
    pub(crate) fn is_spent(&self) -> bool
        requires { self.now.bytes ≤ self.now.room }
        ensures spent { OnTrue result (IsSpent self.now) }
        ensures left { OnFalse result (HasLeft self.now) }
    {
        self.used >= self.places || self.room - self.bytes < LARGEST_EVENT
    }

    /// Counts an event of this size.
    pub(crate) fn charge(&mut self, size: u32)
        requires left { HasLeft self.old }
        requires small { size ≤ 2097152 }
        ensures after { self.new ≡ charged self.old size }
    {
        self.used += 1;
        self.bytes += size;
    }
}
