//! A plain list of runs, which look-ups walk.

ghost use Rattle.std.specs.Prelude.{◌≡◌, [], slice_get};
ghost use Rattle.std.specs.List.{All};
ghost use Rattle.std.specs.Option.{option_map};
ghost use Rattle.log_model.specs.Lookup.{position_from};
ghost use Rattle.cut_chain.specs.Runs.{places_of, to_position};
ghost use Rattle.cut_chain.specs.Walk.{Ends, IsCounted};

use crate::{Places, Run};
use log_base::{Memory, Place, Position};
use std::alloc::Global;
use std::marker::Model;

/// The plain list of runs. A look-up takes time with the number of runs. That of a place begins with the newest,
/// since places are mostly asked for soon after they were added.
#[derive(Drop)]
pub struct WalkPlaces {
    runs: Vec<Run>,
    /// How many places there are.
    total: u64,
}

impl Model for WalkPlaces {
    ghost use Rattle.std.specs.Prelude.{◌-◌, vec_len, vec_capacity};
    ghost use Rattle.cut_chain.specs.Runs.{places_of};
    ghost use Rattle.cut_chain.specs.Walk.{Walked, IsCounted};

    ghost Value = { Walked };

    ghost view = { λ w. record { places = places_of w.runs.items; room = vec_capacity w.runs - vec_len w.runs } };

    ghost invariant = { λ w. IsCounted w.runs.items w.total };
}

impl WalkPlaces {
    /// No places, and no room.
    pub fn new(alloc: Global) -> WalkPlaces
        ensures { result.places ≡ [] }
    {
        WalkPlaces {
            runs: Vec::new(alloc),
            total: 0,
        }
    }
}

impl Places for WalkPlaces {
    ghost places = { λ w. w.places };

    ghost room = { λ w. w.room };

    fn ready(&mut self, runs: u32) -> Result<(), Memory> {
        self.runs.reserve(runs as usize)?;
        Ok(())
    }

    fn add(&mut self, run: Run) {
        let _ = self.runs.push(run);
        self.total += u64::from(run.count);
    }

    fn place(&self, position: Position) -> Option<Place> {
        place_in(&self.runs, position.0)
    }

    fn position(&self, place: Place) -> Option<Position> {
        position_in(&self.runs, self.total, place)
    }

    fn clear(&mut self) {
        self.runs.clear();
        self.total = 0;
    }
}

fn place_in(runs: &[Run], position: u64) -> Option<Place>
    requires { All Ends runs.now }
    ensures { result ≡ slice_get (places_of runs.now) position }
{
    let mut left = position;
    for run in runs {
        let count = u64::from(run.count);
        if left < count {
            return Some(run.place(left as u32));
        }
        left -= count;
    }
    None
}

// The place is looked for in the newest runs first.
fn position_in(runs: &[Run], total: u64, place: Place) -> Option<Position>
    requires { IsCounted runs.now total }
    ensures { result ≡ option_map to_position (position_from 0 (places_of runs.now) place) }
{
    let mut start = total;
    for back in 0..runs.len() {
        let run = &runs[runs.len() - 1 - back];
        start -= u64::from(run.count);
        if let Some(index) = run.index(place) {
            return Some(Position(start + u64::from(index)));
        }
    }
    None
}
