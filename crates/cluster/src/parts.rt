//! What a cluster was begun with.

ghost use Rattle.std.specs.Prelude.{◌≡◌, ◌≤◌};

use crate::cluster::Cluster;
use cut_chain::Places;
use log_base::Config;
use segment_journal::Journal;
use std::alloc::Global;

impl<J: Journal + Drop, P: Places> Cluster<J, P> {
    /// The config.
    pub fn config(&self) -> Config
        ensures { result ≡ self.now.config }
    {
        self.config
    }

    /// The run.
    pub fn run(&self) -> u32
        ensures run { result ≡ self.now.run }
        ensures within { (1 ≤ result) × (result ≤ 1000000) }
    {
        self.run
    }

    /// The allocator that its calls use.
    pub fn alloc(&self) -> Global {
        self.alloc
    }
}
