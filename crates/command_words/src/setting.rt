//! One option of a command, with its value.

ghost use Rattle.std.specs.Prelude.{◌≡◌, ◌≢◌, ◌↔◌, ℕ, ◌^◌, ◌<◌, ◌≤◌, List, ◌++◌, length, map, string_bytes, Ok, Err, IsTrue, IfOk, MatchOption};
ghost use Rattle.std.specs.Fmt.{decimal};
ghost use Rattle.command_words.specs.Settings.{IsFolder, IsSetting, parameter_word, setting_words, takes, takes_number};
ghost use Rattle.command_words.specs.declared.setting.Setting.{Setting};
ghost use Rattle.command_words.specs.declared.setting.Parameter.{Parameter};

use crate::command::WordsFault;
use crate::number::read_number;
use log_base::Text;
use std::alloc::Global;

/// The commands that take options.
#[derive(Clone, Copy)]
pub(crate) enum Verb {
    Run,
    Cluster,
    Make,
}

/// The options whose value is a number.
#[derive(Clone, Copy)]
pub(crate) enum Parameter {
    Replicas,
    Shards,
    Orderers,
    Gatherers,
    Run,
    Workers,
}

/// An option that is given, with its value.
#[derive(Drop)]
pub(crate) enum Setting {
    Number { parameter: Parameter, number: u64 },
    Folder(Text),
    Brief,
}

impl Verb {
    /// Whether the command has the option.
    pub fn takes(self, setting: &Setting) -> bool
        ensures { result ≡ takes self setting.now }
    {
        match setting {
            Setting::Number { parameter, .. } => self.takes_number(*parameter),
            Setting::Folder(_) => !matches!(self, Verb::Make),
            Setting::Brief => matches!(self, Verb::Run),
        }
    }

    fn takes_number(self, parameter: Parameter) -> bool
        ensures { result ≡ takes_number self parameter }
    {
        match self {
            Verb::Run => !matches!(parameter, Parameter::Workers),
            Verb::Cluster => true,
            Verb::Make => !matches!(parameter, Parameter::Run | Parameter::Workers),
        }
    }
}

impl Parameter {
    /// The option of a word.
    fn named(word: &str) -> Option<Parameter>
        ensures { MatchOption result
            ((parameter : Parameter) → word.now ≢ parameter_word parameter)
            (λ parameter. word.now ≡ parameter_word parameter) }
    {
        match word {
            "--replicas" => Some(Parameter::Replicas),
            "--shards" => Some(Parameter::Shards),
            "--orderers" => Some(Parameter::Orderers),
            "--gatherers" => Some(Parameter::Gatherers),
            "--run" => Some(Parameter::Run),
            "--workers" => Some(Parameter::Workers),
            _ => None,
        }
    }
}

impl Setting {
    /// The option that the words begin with.
    pub fn read(alloc: Global, words: &[String]) -> Result<Setting, WordsFault>
        requires { 0 < length words.now }
        ensures ok { IfOk result (λ setting. IsSetting setting
            × ((rest : List (List ℕ)) × (map string_bytes words.now ≡ setting_words setting ++ rest))) }
        ensures none { result ≡ Err WordsFault.NoCommand → (setting : Setting) (rest : List (List ℕ)) → IsSetting setting
            → map string_bytes words.now ≢ setting_words setting ++ rest }
        ensures memory { result ≡ Err WordsFault.Memory → (path : List ℕ) × (rest : List (List ℕ)) × IsFolder path
            × (map string_bytes words.now ≡ setting_words (Setting.Folder path) ++ rest) }
    {
        let name = words[0].as_str();
        if name == "--brief" {
            return Ok(Setting::Brief);
        }
        if words.len() < 2 {
            return Err(WordsFault::NoCommand);
        }
        let value = words[1].as_str();
        if name == "--folder" {
            return read_folder(alloc, value);
        }
        read_parameter(name, value)
    }

    /// How many words it has.
    pub fn word_count(&self) -> usize
        ensures { result ≡ length (setting_words self.now) }
    {
        match self {
            Setting::Number { .. } | Setting::Folder(_) => 2,
            Setting::Brief => 1,
        }
    }
}

fn read_folder(alloc: Global, path: &str) -> Result<Setting, WordsFault>
    ensures ok { IfOk result (λ setting. (setting ≡ Setting.Folder path.now) × IsFolder path.now) }
    ensures none { result ≡ Err WordsFault.NoCommand → IsFolder path.now → ⊥ }
    ensures memory { result ≡ Err WordsFault.Memory → IsFolder path.now }
{
    if path.is_empty() || path.as_bytes()[0] == b'-' {
        return Err(WordsFault::NoCommand);
    }
    let path = String::from_str(alloc, path)?;
    Ok(Setting::Folder(Text::of(path)))
}

fn read_parameter(name: &str, value: &str) -> Result<Setting, WordsFault>
    ensures ok { IfOk result (λ setting. (parameter : Parameter) × (number : ℕ) × (setting ≡ Setting.Number parameter number)
        × (number < 10 ^ 10) × (name.now ≡ parameter_word parameter) × (value.now ≡ decimal number)) }
    ensures none { result ≡ Err WordsFault.NoCommand → (parameter : Parameter) (number : ℕ) → number < 10 ^ 10
        → name.now ≡ parameter_word parameter → value.now ≡ decimal number → ⊥ }
    ensures memory { result ≢ Err WordsFault.Memory }
{
    let parameter = Parameter::named(name).ok_or(WordsFault::NoCommand)?;
    let number = read_number(value).ok_or(WordsFault::NoCommand)?;
    Ok(Setting::Number { parameter, number })
}
