//! Reading a line.

ghost use Rattle.std.specs.Prelude.{◌≡◌, ◌≤◌, ℕ, length, take, Ok, IfErr, IfOk};
ghost use Rattle.log_base.specs.Shape.{shape};
ghost use Rattle.fault_script.specs.Lines.{Begins, IsFault, NoLine, fault_line};
ghost use Rattle.fault_script.specs.declared.fault.Fault.{Fault};

use crate::kind::KINDS;
use crate::{Fault, FaultLine};
use log_base::Config;

/// The fault whose line the text is. The rule of the lines is this project's own.
pub fn read_fault(config: &Config, text: &[u8]) -> Result<Fault, FaultLine>
    ensures fault { IfOk result (λ fault. IsFault (shape config.now) fault × (text.now ≡ fault_line fault)) }
    ensures read { (fault : Fault) → IsFault (shape config.now) fault → text.now ≡ fault_line fault → result ≡ Ok fault }

    // Where the text is no line.
    ensures no_line { IfErr result (λ line. NoLine (shape config.now) text.now) }
    ensures within { IfErr result (λ line. line.at ≤ length text.now) }
    ensures begins { IfErr result (λ line. Begins (shape config.now) (take line.at text.now)) }
    ensures longest { IfErr result (λ line. (n : ℕ) → n ≤ length text.now → Begins (shape config.now) (take n text.now) → n ≤ line.at) }
{
    let mut at = 0;
    for kind in &KINDS {
        match kind.read(config, text) {
            Ok(fault) => return Ok(fault),
            Err(begun) => at = at.max(begun),
        }
    }
    Err(FaultLine { at })
}
