//! The kinds of lines: the word of each, and the numbers behind it.

ghost use Rattle.std.specs.Prelude.{◌≡◌, ◌≤◌, length, slice_index, MatchResult};
ghost use Rattle.log_base.specs.Shape.{shape};
ghost use Rattle.fault_script.specs.Lines.{IsFault, fault_line};
ghost use Rattle.fault_script.specs.Grammar.{FirstFits, fault_of, operands_of, word_of};
ghost use Rattle.fault_script.specs.Longest.{StopsKind};

use crate::Fault;
use crate::numbers::read_numbers;
use crate::operand::Operand;
use crate::sharing::shared_length;
use log_base::{Config, NodeId};

/// What a line tells of, apart from its numbers.
#[derive(Clone, Copy)]
pub(crate) enum Kind {
    Hold,
    Settle,
    Tick,
    Deliver,
    Drop,
    Again,
    Stop,
    StopAfter,
    Lose,
    Restart,
    Lead,
    Resubmit,
}

/// All kinds.
pub(crate) const KINDS: [Kind; 12] = [
    Kind::Hold,
    Kind::Settle,
    Kind::Tick,
    Kind::Deliver,
    Kind::Drop,
    Kind::Again,
    Kind::Stop,
    Kind::StopAfter,
    Kind::Lose,
    Kind::Restart,
    Kind::Lead,
    Kind::Resubmit,
];

impl Kind {
    /// Reads a line of the kind, or gives the length of the longest front of the text that begins one.
    pub fn read(self, config: &Config, text: &[u8]) -> Result<Fault, usize>
        ensures { MatchResult result
            (λ fault. IsFault (shape config.now) fault × (text.now ≡ fault_line fault))
            (λ at. StopsKind (shape config.now) self text.now at) }
    {
        let word = self.word();
        let shared = shared_length(text, word);
        if shared < word.len() {
            return Err(shared);
        }
        match read_numbers(config, self.operands(), &text[shared..]) {
            Ok(numbers) => return Ok(self.fault(&numbers)),
            Err(at) => return Err(shared + at),
        }
    }

    // The first word.
    fn word(self) -> &'static [u8]
        ensures { result.now ≡ word_of self }
    {
        match self {
            Kind::Hold => b"hold",
            Kind::Settle => b"settle",
            Kind::Tick => b"tick",
            Kind::Deliver => b"deliver",
            Kind::Drop => b"drop",
            Kind::Again => b"again",
            Kind::Stop | Kind::StopAfter => b"stop",
            Kind::Lose => b"lose",
            Kind::Restart => b"restart",
            Kind::Lead => b"lead",
            Kind::Resubmit => b"resubmit",
        }
    }

    // The numbers behind the word.
    fn operands(self) -> &'static [Operand]
        ensures operands { result.now ≡ operands_of self }
        ensures few { length result.now ≤ 3 }
    {
        match self {
            Kind::Hold | Kind::Settle | Kind::Resubmit => &[],
            Kind::Tick | Kind::Stop | Kind::Restart => &[Operand::Node],
            Kind::Deliver | Kind::Drop | Kind::Again => &[Operand::Letter],
            Kind::StopAfter => &[Operand::NodeWithDisks, Operand::After, Operand::Keep],
            Kind::Lose => &[Operand::NodeWithDisks, Operand::After],
            Kind::Lead => &[Operand::Orderer],
        }
    }

    // The fault of the kind with these numbers.
    fn fault(self, numbers: &[u32; 3]) -> Fault
        requires { FirstFits self (slice_index numbers.now 0) }
        ensures { result ≡ fault_of self numbers.now }
    {
        let [first, second, third] = *numbers;
        match self {
            Kind::Hold => Fault::Hold,
            Kind::Settle => Fault::Settle,
            Kind::Tick => Fault::Tick {
                node: NodeId(first as u16),
            },
            Kind::Deliver => Fault::Deliver { letter: first },
            Kind::Drop => Fault::Drop { letter: first },
            Kind::Again => Fault::Again { letter: first },
            Kind::Stop => Fault::Stop {
                node: NodeId(first as u16),
            },
            Kind::StopAfter => Fault::StopAfter {
                node: NodeId(first as u16),
                after: second,
                keep: third,
            },
            Kind::Lose => Fault::Lose {
                node: NodeId(first as u16),
                after: second,
            },
            Kind::Restart => Fault::Restart {
                node: NodeId(first as u16),
            },
            Kind::Lead => Fault::Lead {
                orderer: first as u8,
            },
            Kind::Resubmit => Fault::Resubmit,
        }
    }
}
