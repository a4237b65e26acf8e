//! The commands that are served so far.

ghost use Rattle.std.specs.Prelude.{◌≡◌, map, string_bytes, Err, IfOk, MatchOption};
ghost use Rattle.command_words.specs.Commands.{NameFolder, Spells};
ghost use Rattle.command_words.specs.Offered.{IsOffered, Offers, command_of};

use crate::command::{Command, Options, WordsFault};
use crate::reading::read_words;
use std::alloc::Global;

/// A command that is served so far.
#[derive(Debug, Drop)]
pub enum Offered {
    /// A run with its disks in memory.
    Run(Options),
    /// A cluster of threads with its disks in memory.
    Cluster(Options),
    /// A check of a history.
    Check,
    /// Items that are made from a seed, as many as are counted behind those that add the shards.
    Make {
        options: Options,
        seed: u32,
        count: u32,
    },
}

/// The command that the words are, where it is served.
pub fn read_offered(alloc: Global, words: &[String]) -> Result<Offered, WordsFault>
    ensures ok { IfOk result (λ offered. Spells (map string_bytes words.now) (command_of offered) × IsOffered (command_of offered)) }
    ensures none { result ≡ Err WordsFault.NoCommand → ¬ Offers (map string_bytes words.now) }
    ensures memory { result ≡ Err WordsFault.Memory → NameFolder (map string_bytes words.now) }
{
    let command = read_words(alloc, words)?;
    match served(command) {
        Some(offered) => return Ok(offered),
        None => return Err(WordsFault::NoCommand),
    }
}

/// The command, where it is served.
fn served(command: Command) -> Option<Offered>
    ensures { MatchOption result (¬ IsOffered command) (λ offered. (command_of offered ≡ command) × IsOffered command) }
{
    match command {
        Command::Run(options) if options.folder.is_none() => Some(Offered::Run(options)),
        Command::Cluster(options) if options.folder.is_none() => Some(Offered::Cluster(options)),
        Command::Run(_) | Command::Cluster(_) => None,
        Command::Check => Some(Offered::Check),
        Command::Make {
            options,
            seed,
            count,
        } => Some(Offered::Make {
            options,
            seed,
            count,
        }),
    }
}
