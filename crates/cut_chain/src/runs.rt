//! Runs of places that follow each other in one segment.

ghost use Rattle.std.specs.Prelude.{◌≡◌, ◌<◌, ◌≤◌, ◌+◌, ◌-◌, ◌&&◌, nat_le, nat_lt, ◌==◌};
ghost use Rattle.log_model.specs.Places.{place_at};
ghost use Rattle.cut_chain.specs.Runs.{offset_in};

use log_base::{Place, Replica, Shard};

/// Places that follow each other in a segment: `count` offsets from `first` on.
#[derive(Clone, Copy, Debug, PartialEq, Eq)]
pub struct Run {
    pub shard: Shard,
    pub segment: Replica,
    /// With `count` at most 16,384.
    pub first: u32,
    pub count: u32,
}

impl Run {
    // The place at an index of the run.
    pub(crate) fn place(&self, index: u32) -> Place
        requires within { index < self.now.count }
        requires fits { self.now.first + self.now.count ≤ 16384 }
        ensures { result ≡ place_at self.now.shard.0 self.now.segment.0 (self.now.first + index) }
    {
        Place {
            shard: self.shard,
            segment: self.segment,
            offset: self.first + index,
        }
    }

    // The index of a place in the run.
    pub(crate) fn index(&self, place: Place) -> Option<u32>
        ensures { result ≡ offset_in self.now place }
    {
        if place.shard == self.shard
            && place.segment == self.segment
            && place.offset >= self.first
            && place.offset - self.first < self.count
        {
            return Some(place.offset - self.first);
        }
        None
    }
}
