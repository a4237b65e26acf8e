//! The numbers of a line.

ghost use Rattle.std.specs.Prelude.{◌≤◌, length, IfErr, MatchResult};
ghost use Rattle.log_base.specs.Shape.{shape};
ghost use Rattle.fault_script.specs.Grammar.{Reads};
ghost use Rattle.fault_script.specs.Longest.{Stops};

use crate::operand::Operand;
use log_base::Config;

/// Reads the numbers behind a line's word, of which there are at most three, or gives the length of the
/// longest front of the text that begins such numbers. The numbers that are not there are 0.
pub(crate) fn read_numbers(
    config: &Config,
    operands: &[Operand],
    text: &[u8],
) -> Result<[u32; 3], usize>
    requires { length operands.now ≤ 3 }
    ensures numbers { MatchResult result
        (λ numbers. Reads (shape config.now) operands.now numbers text.now)
        (λ at. Stops (shape config.now) operands.now text.now at) }
    ensures within { IfErr result (λ at. at ≤ length text.now) }
{
    let mut numbers = [0; 3];
    let mut at = 0;
    for (index, operand) in operands.iter().enumerate() {
        match operand.read(config, &text[at..]) {
            Ok(taken) => {
                numbers[index] = taken.number;
                at += taken.length;
            }
            Err(length) => return Err(at + length),
        }
    }
    if at < text.len() {
        return Err(at);
    }
    Ok(numbers)
}
