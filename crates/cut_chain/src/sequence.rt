//! A sequence of places.

ghost use Rattle.std.specs.Prelude.{◌≡◌, ℕ, ◌<◌, ◌≤◌, ◌+◌, List, [], ◌++◌, slice_get, OnOk};
ghost use Rattle.std.specs.Option.{option_map};
ghost use Rattle.log_base.specs.declared.numbers.Place.{Place};
ghost use Rattle.log_model.specs.Lookup.{position_from};
ghost use Rattle.cut_chain.specs.Runs.{run_places, IsFresh, to_position};

use crate::Run;
use log_base::{Memory, Place, Position};

/// A sequence of places, none of which stands twice, looked up by position and by place.
pub trait Places: Drop {
    /// The places, in their order.
    ghost places: { Self → List Place };

    /// How many runs can be added with no more memory.
    ghost room: { Self → ℕ };

    /// Makes room for so many runs.
    fn ready(&mut self, runs: u32) -> Result<(), Memory>
        ensures places { places self.new ≡ places self.old }
        ensures room { OnOk result (runs ≤ room self.new) };

    /// Puts the places of a run at the end.
    fn add(&mut self, run: Run)
        requires room { 0 < room self.old }
        requires some { 0 < run.count }
        requires within { run.first + run.count ≤ 16384 }
        requires fresh { IsFresh (places self.old) run }
        ensures places { places self.new ≡ places self.old ++ run_places run }
        ensures room { room self.old ≤ room self.new + 1 };

    /// The place at a position, where the sequence is that long.
    fn place(&self, position: Position) -> Option<Place>
        ensures { result ≡ slice_get (places self.now) position.0 };

    /// The position of a place, where it is there.
    fn position(&self, place: Place) -> Option<Position>
        ensures { result ≡ option_map to_position (position_from 0 (places self.now) place) };

    /// Takes all places out.
    fn clear(&mut self)
        ensures { places self.new ≡ [] };
}
