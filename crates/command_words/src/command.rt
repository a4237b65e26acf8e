//! What the words of the command line ask for.

use log_base::{Config, Text};
use std::alloc::AllocError;

/// What the program is asked to do.
#[derive(Debug, Drop)]
pub enum Command {
    /// Answers the items of the input, one after another.
    Run(Options),
    /// Answers the items of the input with threads, one for each lane and each worker.
    Cluster(Options),
    /// Checks the history in the input.
    Check,
    /// Makes items from a seed, as many as are counted behind those that add the shards.
    Make {
        options: Options,
        seed: u32,
        count: u32,
    },
}

/// The options of a command.
#[derive(Debug, Drop)]
pub struct Options {
    pub config: Config,
    /// The number of the run, 1 to 1,000,000. It makes the numbers that lanes draw differ from those of
    /// earlier runs.
    pub run: u32,
    /// The folder of the disks, or none for disks in memory.
    pub folder: Option<Text>,
    /// Whether the output is one line in place of replies.
    pub brief: bool,
    /// How many workers turn nodes, 1 to 8.
    pub workers: u8,
}

/// Why there is no command.
#[derive(Clone, Copy, Debug, PartialEq, Eq)]
pub enum WordsFault {
    /// The words are no command.
    NoCommand,
    /// Memory ran out.
    Memory,
}

impl From<AllocError> for WordsFault {
    ghost use Rattle.std.specs.Prelude.{◌≡◌};
    ghost use Rattle.command_words.specs.declared.command.WordsFault.TheVariants.{Memory};

    ghost from_gives = { λ _ e. e ≡ Memory };

    fn from(_error: AllocError) -> WordsFault {
        WordsFault::Memory
    }
}
