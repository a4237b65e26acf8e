//! A number of a line, with the text before it.

ghost use Rattle.std.specs.Prelude.{◌≡◌, ◌≢◌, ◌↔◌, ◌≤◌, ◌<◌, ◌*◌, ◌++◌, ◌∷◌, [], ℕ, List, length, IfSome, IfOk, IfErr, IsTrue, None};
ghost use Rattle.log_base.specs.Shape.{shape};
ghost use Rattle.fault_script.specs.Lines.{HasDisks};
ghost use Rattle.fault_script.specs.Grammar.{Allows, BeginsOne, IsRun, before_number, shown};
ghost use Rattle.fault_script.specs.Longest.{Goes, Stops};

use crate::sharing::shared_length;
use log_base::{Config, NodeId};
use node_table::{Role, nodes, role_of};

// The greatest number of a letter, of writes and of bytes.
const MOST: u32 = 1_000_000;

/// What a number of a line counts.
#[derive(Clone, Copy)]
pub(crate) enum Operand {
    Node,
    NodeWithDisks,
    Orderer,
    Letter,
    After,
    Keep,
}

/// The longest run of digits that begins a number of an operand: its value, none where it is empty, and its
/// length.
#[derive(Clone, Copy)]
pub(crate) struct Run {
    value: Option<u32>,
    length: usize,
}

/// A number that was read, and the length of its text.
#[derive(Clone, Copy)]
pub(crate) struct Taken {
    pub number: u32,
    pub length: usize,
}

impl Operand {
    /// Takes the number that the text begins with, or gives the length of the longest front of the text
    /// that begins one.
    pub fn read(self, config: &Config, text: &[u8]) -> Result<Taken, usize>
        ensures ok { IfOk result (λ taken. Goes (shape config.now) self taken.number taken.length text.now) }
        ensures err { IfErr result (λ at. (operands : List Operand) → Stops (shape config.now) (self ∷ operands) text.now at) }
        ensures within { IfErr result (λ at. at ≤ length text.now) }
    {
        let before = self.before();
        let shared = shared_length(text, before);
        if shared < before.len() {
            return Err(shared);
        }
        let run = self.run(config, &text[shared..]);
        match self.whole(config, run.value) {
            Some(number) => {
                return Ok(Taken {
                    number,
                    length: shared + run.length,
                });
            }
            None => return Err(shared + run.length),
        }
    }

    // The number of a run, where the operand allows it.
    fn whole(self, config: &Config, value: Option<u32>) -> Option<u32>
        ensures some { IfSome result (λ number. (value ≡ result) × Allows (shape config.now) self number) }
        ensures none { result ≡ None → IfSome value (λ number. Allows (shape config.now) self number → ⊥) }
    {
        match value {
            Some(number) => {
                if self.allows(config, number) {
                    return Some(number);
                }
                return None;
            }
            None => return None,
        }
    }

    // The text before the number.
    fn before(self) -> &'static [u8]
        ensures { result.now ≡ before_number self }
    {
        match self {
            Operand::After => b" after ",
            Operand::Keep => b" keep ",
            _ => b" ",
        }
    }

    // The longest run of digits that begins a number of the operand.
    fn run(self, config: &Config, text: &[u8]) -> Run
        ensures { IsRun (shape config.now) self text.now result.value result.length }
    {
        let mut value = None;
        let mut length = 0;
        for byte in text {
            match self.extend(config, value, *byte) {
                Some(more) => value = Some(more),
                None => return Run { value, length },
            }
            length += 1;
        }
        Run { value, length }
    }

    // The number that the digits so far and one more byte show, where one of the operand begins so.
    fn extend(self, config: &Config, so_far: Option<u32>, byte: u8) -> Option<u32>
        requires { IfSome so_far (BeginsOne (shape config.now) self) }
        ensures some { IfSome result (λ value. BeginsOne (shape config.now) self value × (shown result ≡ shown so_far ++ byte ∷ [])) }
        ensures none { result ≡ None → (number : ℕ) (rest : List ℕ) → Allows (shape config.now) self number
            → shown (Some number) ≢ shown so_far ++ byte ∷ rest }
    {
        match digit_after(so_far, byte) {
            Some(value) => {
                if self.begins_one(config, value) {
                    return Some(value);
                }
                return None;
            }
            None => return None,
        }
    }

    // Whether a number of the operand begins with the digits of a value: it is the value, or at least ten
    // times as great. A gatherer keeps no disks, but its number may begin that of an orderer.
    fn begins_one(self, config: &Config, value: u32) -> bool
        requires { value ≤ 100000000 }
        ensures { IsTrue result ↔ BeginsOne (shape config.now) self value }
    {
        self.allows(config, value) || self.allows(config, value * 10)
    }

    // Whether the operand allows a number.
    fn allows(self, config: &Config, number: u32) -> bool
        ensures { IsTrue result ↔ Allows (shape config.now) self number }
    {
        match self {
            Operand::Node => number < u32::from(nodes(config)),
            Operand::NodeWithDisks => has_disks(config, number),
            Operand::Orderer => number < u32::from(config.orderers()),
            Operand::Letter | Operand::After | Operand::Keep => number <= MOST,
        }
    }
}

// Whether a number is that of a node which keeps disks: a gatherer has none.
fn has_disks(config: &Config, number: u32) -> bool
    ensures { IsTrue result ↔ HasDisks (shape config.now) number }
{
    if number >= u32::from(nodes(config)) {
        return false;
    }
    match role_of(config, NodeId(number as u16)) {
        Role::Gatherer { .. } => return false,
        _ => return true,
    }
}

// The number that the digits so far and one more byte show.
fn digit_after(so_far: Option<u32>, byte: u8) -> Option<u32>
    requires { IfSome so_far (λ value. value ≤ 1000000) }
    ensures some { IfSome result (λ value. (value ≤ 10000009) × (shown result ≡ shown so_far ++ byte ∷ [])) }
    ensures none { result ≡ None → (number : ℕ) (rest : List ℕ) → number ≤ 1000000
        → shown (Some number) ≢ shown so_far ++ byte ∷ rest }
{
    if byte < b'0' || byte > b'9' {
        return None;
    }
    let digit = u32::from(byte - b'0');
    match so_far {
        None => return Some(digit),
        Some(value) => {
            if value == 0 {
                return None;
            }
            return Some(value * 10 + digit);
        }
    }
}
