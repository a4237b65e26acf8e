//! Sending what a run comes to.

ghost use Rattle.std.specs.Prelude.{◌≡◌, Err};
ghost use Rattle.scalog_run.specs.Output.{Sends, fault_spelling, sinking, status_of, to_send};

use crate::fault::{FaultFrame, RunFault};
use crate::status;
use log_base::{Sink, send};

/// Sends bytes, and answers the status that is wanted, or that of a sink that failed.
pub fn send_bytes<K: Sink>(sink: &mut K, bytes: &[u8], wanted: u8) -> u8
    ensures { Sends bytes.now wanted (sinking (K.taken sink.old) (K.faults sink.old)) (sinking (K.taken sink.new) (K.faults sink.new)) result }
{
    match send(sink, bytes) {
        Ok(()) => wanted,
        Err(_) => status::WRITE_FAULT,
    }
}

/// Sends the frame of a fault, and answers its status.
pub fn send_frame<K: Sink>(sink: &mut K, frame: FaultFrame) -> u8
    ensures { Sends (fault_spelling frame) frame.status (sinking (K.taken sink.old) (K.faults sink.old)) (sinking (K.taken sink.new) (K.faults sink.new)) result }
{
    let bytes = frame.bytes();
    send_bytes(sink, &bytes, frame.status)
}

/// Sends what tells a fault, and answers its status. Of want of memory nothing is sent.
pub fn send_fault<K: Sink>(sink: &mut K, fault: RunFault) -> u8
    ensures { Sends (to_send (Err fault)) (status_of (Err fault)) (sinking (K.taken sink.old) (K.faults sink.old)) (sinking (K.taken sink.new) (K.faults sink.new)) result }
{
    match fault.told() {
        Some(frame) => send_frame(sink, frame),
        None => status::OUT_OF_MEMORY,
    }
}
