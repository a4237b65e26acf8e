//! Reading a message.

ghost use Rattle.std.specs.Prelude.{◌≡◌, ◌≤◌, length, slice_index, Ok, Err, IfOk};
ghost use Rattle.record_frame.specs.Fields.{Gives};
ghost use Rattle.message_frame.specs.declared.messages.Message.{Message};
ghost use Rattle.message_frame.specs.Spelling.{IsMessage, message_spelling};
ghost use Rattle.message_frame.specs.Reading.{TakesMemory, plain_fields_at, message_fields_at, message_at, message_of};

use crate::field_reading::{
    read_accept, read_accepted, read_copy, read_copy_ack, read_decide, read_least, read_lower,
    read_prepare, read_promised, read_report, read_want,
};
use crate::messages::Message;
use record_frame::{Refusal, read_u8};
use std::alloc::Global;

/// Reads the fields of a message of a kind that takes no memory.
#[tactic(auto, unfolding(crate::specs::Reading::plain_fields_at))]
fn read_plain_fields(bytes: &[u8], at: usize, kind: u8) -> Result<(Message, usize), Refusal>
    requires { at ≤ length bytes.now }
    ensures read { result ≡ plain_fields_at kind bytes.now at }
    ensures within { IfOk result (λ x. x.1 ≤ length bytes.now) }
{
    match kind {
        2 => read_copy_ack(bytes, at),
        3 => read_report(bytes, at),
        4 => read_least(bytes, at),
        5 => read_prepare(bytes, at),
        7 => read_lower(bytes, at),
        8 => read_accept(bytes, at),
        9 => read_accepted(bytes, at),
        10 => read_decide(bytes, at),
        11 => read_want(bytes, at),
        _ => Err(Refusal::BadKind { byte: kind }),
    }
}

/// Reads the fields of a message of some kind.
#[tactic(auto, unfolding(crate::specs::Reading::message_fields_at))]
fn read_fields(
    alloc: Global,
    bytes: &[u8],
    at: usize,
    kind: u8,
) -> Result<(Message, usize), Refusal>
    requires { at ≤ length bytes.now }
    ensures read { Gives (λ x. x) result (message_fields_at kind bytes.now at) }
    ensures within { IfOk result (λ x. x.1 ≤ length bytes.now) }
    ensures memory { result ≡ Err Refusal.Memory → TakesMemory kind }
{
    match kind {
        1 => read_copy(alloc, bytes, at),
        6 => read_promised(alloc, bytes, at),
        _ => read_plain_fields(bytes, at, kind),
    }
}

/// Reads the message at the front.
#[tactic(auto, unfolding(crate::specs::Reading::message_at))]
fn read_message(alloc: Global, bytes: &[u8]) -> Result<(Message, usize), Refusal>
    ensures read { Gives (λ x. x) result (message_at bytes.now 0) }
    ensures within { IfOk result (λ x. x.1 ≤ length bytes.now) }
    ensures memory { result ≡ Err Refusal.Memory → TakesMemory (slice_index bytes.now 0) }
{
    let (kind, next) = read_u8(bytes, 0)?;
    read_fields(alloc, bytes, next, kind)
}

/// Reads a message to the end of the bytes.
#[tactic(auto, unfolding(crate::specs::Reading::message_of))]
fn read_all(alloc: Global, bytes: &[u8]) -> Result<Message, Refusal>
    ensures read { Gives (λ x. x) result (message_of bytes.now) }
    ensures memory { result ≡ Err Refusal.Memory → TakesMemory (slice_index bytes.now 0) }
{
    let (message, next) = read_message(alloc, bytes)?;
    if next < bytes.len() {
        return Err(Refusal::Long {
            extra: bytes.len() - next,
        });
    }
    Ok(message)
}

/// Reads the message that all of the bytes spell. The fields are taken from left to right, and the first
/// that is wrong decides the refusal; offsets count from the first byte. Bytes that are left over are
/// `Long`. The format is this project's own.
pub fn decode(alloc: Global, bytes: &[u8]) -> Result<Message, Refusal>
    // What is read is spelled so, by all of the bytes.
    ensures found { IfOk result (λ message. IsMessage message × (bytes.now ≡ message_spelling message)) }
    // What is spelled is read, unless memory runs out.
    ensures only { (message : Message) → IsMessage message → bytes.now ≡ message_spelling message → Gives (λ x. x) result (Ok message) }
    // Which refusal it is.
    ensures exact { Gives (λ x. x) result (message_of bytes.now) }
    // Only the entry of a Copy and the votes of a Promised take memory.
    ensures memory { result ≡ Err Refusal.Memory → TakesMemory (slice_index bytes.now 0) }
{
    read_all(alloc, bytes)
}
