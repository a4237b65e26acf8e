//! What the options of a command give.

ghost use Rattle.std.specs.Prelude.{◌≡◌, ◌≢◌, Some, Ok, Err, true, false, is_some, OnOk, MatchOption};
ghost use Rattle.log_base.specs.ClusterShape.{InRange};
ghost use Rattle.log_base.specs.Shape.{shape};
ghost use Rattle.command_words.specs.Commands.{Says};
ghost use Rattle.command_words.specs.Settings.{is_given, nothing, number_given, with_number, with_setting};
ghost use Rattle.command_words.specs.declared.command.Options.{Options};

use crate::command::{Options, WordsFault};
use crate::number::within;
use crate::setting::{Parameter, Setting};
use log_base::{Config, Text};

/// The greatest number of a run.
const LAST_RUN: u32 = 1_000_000;

/// The most workers.
const MOST_WORKERS: u32 = 8;

/// The value of each option, where it is given.
#[derive(Drop)]
pub(crate) struct Given {
    pub replicas: Option<u64>,
    pub shards: Option<u64>,
    pub orderers: Option<u64>,
    pub gatherers: Option<u64>,
    pub run: Option<u64>,
    pub workers: Option<u64>,
    pub folder: Option<Text>,
    pub brief: bool,
}

impl Given {
    /// No option is given.
    pub fn nothing() -> Given
        ensures { result ≡ nothing }
    {
        Given {
            replicas: None,
            shards: None,
            orderers: None,
            gatherers: None,
            run: None,
            workers: None,
            folder: None,
            brief: false,
        }
    }

    /// Takes one option more, which is not given yet.
    pub fn take(&mut self, setting: Setting) -> Result<(), WordsFault>
        ensures ok { OnOk result ((is_given self.old setting ≡ false) × (self.new ≡ with_setting self.old setting)) }
        ensures twice { result ≡ Err WordsFault.NoCommand → is_given self.old setting ≡ true }
        ensures memory { result ≢ Err WordsFault.Memory }
    {
        match setting {
            Setting::Number { parameter, number } => self.take_number(parameter, number),
            Setting::Folder(path) => {
                if self.folder.is_some() {
                    return Err(WordsFault::NoCommand);
                }
                self.folder = Some(path);
                Ok(())
            }
            Setting::Brief => {
                if self.brief {
                    return Err(WordsFault::NoCommand);
                }
                self.brief = true;
                Ok(())
            }
        }
    }

    fn take_number(&mut self, parameter: Parameter, number: u64) -> Result<(), WordsFault>
        ensures ok { OnOk result ((is_some (number_given self.old parameter) ≡ false) × (self.new ≡ with_number self.old parameter number)) }
        ensures twice { result ≡ Err WordsFault.NoCommand → is_some (number_given self.old parameter) ≡ true }
        ensures memory { result ≢ Err WordsFault.Memory }
    {
        match parameter {
            Parameter::Replicas => put(&mut self.replicas, number),
            Parameter::Shards => put(&mut self.shards, number),
            Parameter::Orderers => put(&mut self.orderers, number),
            Parameter::Gatherers => put(&mut self.gatherers, number),
            Parameter::Run => put(&mut self.run, number),
            Parameter::Workers => put(&mut self.workers, number),
        }
    }

    /// The options that say this, with the defaults for what is not given.
    pub fn options(self) -> Option<Options>
        ensures { MatchOption result ((options : Options) → Says self options → ⊥) (Says self) }
    {
        let config = config_of(
            self.replicas.unwrap_or(2),
            self.shards.unwrap_or(2),
            self.orderers.unwrap_or(3),
            self.gatherers.unwrap_or(1),
        )?;
        let run = within(self.run.unwrap_or(1), 1, LAST_RUN)?;
        let workers = within(self.workers.unwrap_or(2), 1, MOST_WORKERS)?;
        Some(Options {
            config,
            run,
            folder: self.folder,
            brief: self.brief,
            workers: workers as u8,
        })
    }
}

fn put(place: &mut Option<u64>, number: u64) -> Result<(), WordsFault>
    ensures { MatchOption place.old
        ((result ≡ Ok tt) × (place.new ≡ Some number))
        (λ _. (result ≡ Err WordsFault.NoCommand) × (place.new ≡ place.old)) }
{
    if place.is_some() {
        return Err(WordsFault::NoCommand);
    }
    *place = Some(number);
    Ok(())
}

/// The config of these numbers, where they are in range.
fn config_of(replicas: u64, shards: u64, orderers: u64, gatherers: u64) -> Option<Config>
    ensures { MatchOption result
        (InRange (record { replicas = replicas; shards = shards; orderers = orderers; gatherers = gatherers }) → ⊥)
        (λ config. shape config ≡ record { replicas = replicas; shards = shards; orderers = orderers; gatherers = gatherers }) }
{
    if replicas > 255 || shards > 255 || orderers > 255 || gatherers > 255 {
        return None;
    }
    match Config::new(
        replicas as u8,
        shards as u8,
        orderers as u8,
        gatherers as u8,
    ) {
        Ok(config) => return Some(config),
        Err(_) => return None,
    }
}
