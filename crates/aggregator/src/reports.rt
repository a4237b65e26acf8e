//! What the replicas of the shards reported to a gatherer.

ghost use Rattle.std.specs.Prelude.{◌≡◌, ◌<◌};
ghost use Rattle.log_base.specs.Shape.{shape};
ghost use Rattle.aggregator.specs.Hearing.{after_note, fresh, least_in};

use crate::merging::{greater, least_among};
use log_base::{Config, Replica, Shard};
use record_frame::Lengths;
use std::marker::Model;

/// What a gatherer heard from each replica of each shard since it began anew.
#[derive(Debug, Drop)]
pub struct Reports {
    index: u8,
    replicas: u8,
    shards: u8,
    cells: [Option<Lengths>; 32],
}

impl Model for Reports {
    ghost use Rattle.aggregator.specs.Hearing.{Hearing, IsHearing};

    ghost Value = { Hearing };

    ghost view = { λ s. record { index = s.index; replicas = s.replicas; shards = s.shards; cells = s.cells } };

    ghost invariant = { λ s. IsHearing s.replicas s.shards };
}

impl Reports {
    /// Those of a gatherer that heard nothing yet.
    pub fn new(config: &Config, index: u8) -> Reports
        requires { index < (shape config.now).gatherers }
        ensures { result ≡ fresh index (shape config.now).replicas (shape config.now).shards }
    {
        Reports {
            index,
            replicas: config.replicas(),
            shards: config.shards(),
            cells: [None; 32],
        }
    }

    /// A replica says how much it holds of each segment of its shard. Of all that it said, the greatest
    /// length of each segment counts.
    pub fn note(&mut self, shard: Shard, replica: Replica, lengths: &Lengths)
        requires shard { shard.0 < self.old.shards }
        requires replica { replica.0 < self.old.replicas }
        ensures { self.new ≡ after_note self.old shard.0 replica.0 lengths.now }
    {
        let at = usize::from(shard.0) * usize::from(self.replicas) + usize::from(replica.0);
        let heard = match &self.cells[at] {
            Some(before) => greater(before, lengths),
            None => *lengths,
        };
        self.cells[at] = Some(heard);
    }

    /// How much of each segment of a shard all its replicas hold, as they said. There is no answer
    /// where one of them said nothing yet.
    pub fn least(&self, shard: Shard) -> Option<Lengths>
        requires { shard.0 < self.now.shards }
        ensures { result ≡ least_in self.now shard.0 }
    {
        let replicas = usize::from(self.replicas);
        let from = usize::from(shard.0) * replicas;
        least_among(&self.cells[from..from + replicas])
    }

    /// Forgets all that was heard.
    pub fn reset(&mut self)
        ensures { self.new ≡ fresh self.old.index self.old.replicas self.old.shards }
    {
        self.cells = [None; 32];
    }
}
