//! The lists that disks kept.

ghost use Rattle.std.specs.Prelude.{◌≡◌, ◌↔◌, ◌<◌, ◌≤◌, ℕ, IsTrue, Some, length, take, slice_get};
ghost use Rattle.history_frame.specs.Spelling.{DisksRise};
ghost use Rattle.history_frame.specs.declared.events.Kept.{Kept as KeptOne};
ghost use Rattle.node_model.specs.Sound.{payloads_on};
ghost use Rattle.kept_lists.specs.Starts.{AreBelow, AreStarts, IsStart};

use history_frame::Kept;

/// A start for each disk of the largest cluster, and one behind the last.
const STARTS: usize = 345;

/// All payloads that were kept, in order of disk, and where those of each disk begin.
#[derive(Drop)]
pub struct Lists<'a> {
    pub kept: &'a [Kept],
    starts: [usize; STARTS],
    pub ghost are_starts: { AreStarts kept.now starts },
}

impl<'a> Lists<'a> {
    /// Finds where the payloads of each disk begin.
    pub fn of(kept: &'a [Kept]) -> Lists<'a>
        requires { DisksRise 0 kept.now }
        ensures { result.kept.now ≡ kept.now }
    {
        let mut starts = [0; STARTS];
        let mut start = 0;
        for disk in 0..STARTS {
            start = start_from(kept, start, disk as u32);
            starts[disk] = start;
        }
        Lists { kept, starts }
    }

    /// How many payloads a disk kept.
    pub fn count(&self, disk: u32) -> usize
        requires { disk < 344 }
        ensures { result ≡ length (payloads_on self.now.kept.now disk) }
    {
        let disk = disk as usize;
        self.starts[disk + 1] - self.starts[disk]
    }

    /// Whether a disk kept these bytes at an offset.
    pub fn has(&self, disk: u32, offset: usize, payload: &[u8]) -> bool
        requires { disk < 344 }
        ensures { IsTrue result ↔ (slice_get (payloads_on self.now.kept.now disk) offset ≡ Some payload.now) }
    {
        if offset >= self.count(disk) {
            return false;
        }
        let index = self.starts[disk as usize] + offset;
        is_same(self.kept[index].payload.get(), payload)
    }

    /// The offset of a payload in the list of its disk.
    pub fn offset(&self, index: usize, disk: u32) -> usize
        requires disk { disk < 344 }
        requires on { (one : KeptOne) → slice_get self.now.kept.now index ≡ Some one → one.disk ≡ disk }
        requires index { index < length self.now.kept.now }
        ensures { result ≡ length (payloads_on (take index self.now.kept.now) disk) }
    {
        index - self.starts[disk as usize]
    }
}

// The first payload from a place on that is not on a disk below one.
fn start_from(kept: &[Kept], place: usize, disk: u32) -> usize
    requires rise { DisksRise 0 kept.now }
    requires below { AreBelow kept.now disk place }
    ensures { IsStart kept.now disk result }
{
    for index in place..kept.len() {
        if kept[index].disk >= disk {
            return index;
        }
    }
    kept.len()
}

// Whether two payloads are the same.
fn is_same(payload: &[u8], other: &[u8]) -> bool
    ensures { IsTrue result ↔ (payload.now ≡ other.now) }
{
    payload == other
}
