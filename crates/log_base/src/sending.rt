//! Sending bytes to a sink, to the last.

ghost use Rattle.std.specs.Prelude.{◌≡◌, ◌<◌, ◌≤◌, length, take, IfErr, OnOk};
ghost use Rattle.std.specs.Io.KnownBytes.{Appends};
ghost use Rattle.log_base.specs.Outside.{HasCause};

use crate::outside::Sink;

/// The sink failed after it had taken this many of the bytes.
#[derive(Clone, Copy, Debug, PartialEq, Eq)]
pub struct SendFault {
    pub sent: usize,
}

/// Writes all the bytes, in as many calls as the sink wants.
pub fn send<K: Sink>(sink: &mut K, bytes: &[u8]) -> Result<(), SendFault>
    ensures ok { OnOk result (Appends (K.taken sink.old) (K.taken sink.new) bytes.now) }
    ensures err { IfErr result (λ fault. (fault.sent ≤ length bytes.now)
        × Appends (K.taken sink.old) (K.taken sink.new) (take fault.sent bytes.now)) }
    ensures cause { HasCause (K.faults sink.old) (K.faults sink.new) result }
{
    let mut sent = 0;
    while sent < bytes.len() {
        match sink.write(&bytes[sent..]) {
            Ok(count) => sent += count,
            Err(_) => return Err(SendFault { sent }),
        }
    }
    Ok(())
}
