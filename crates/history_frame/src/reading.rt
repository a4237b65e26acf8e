//! Reading what happened.

ghost use Rattle.std.specs.Prelude.{◌≡◌, ℕ, ◌≤◌, length, Ok, IfOk};
ghost use Rattle.record_frame.specs.Fields.{Gives};
ghost use Rattle.history_frame.specs.Reading.{submit_at, ask_at, read_at, request_at, settled_at, call_fields_at, deliver_at, call_at, input_fields_at, input_at, mark_of, mark_at, sent_behind, outputs_at};

use crate::events::Sent;
use crate::inputs::{Call, Input, Mark};
use crate::reply_reading::{read_bytes_end, read_plain_entry};
use log_base::{Client, List, NodeId, Number, Position};
use message_frame::decode;
use record_frame::{Refusal, read_u8, read_u16, read_u32, read_u64, read_value_at};
use std::alloc::Global;
use std::mem;

/// The greatest length of a message, which is that of a frame.
const LONGEST: u32 = 2_097_152;

#[tactic(auto, unfolding(crate::specs::Reading::submit_at))]
fn read_submit(alloc: Global, bytes: &[u8], at: usize) -> Result<(Call, usize), Refusal>
    requires { at ≤ length bytes.now }
    ensures read { Gives (λ x. x) result (submit_at bytes.now at) }
    ensures within { IfOk result (λ x. x.1 ≤ length bytes.now) }
{
    let (entry, next) = read_plain_entry(alloc, bytes, at)?;
    let call = Call::Submit {
        client: entry.client,
        number: entry.number,
        bytes: entry.bytes,
    };
    Ok((call, next))
}

#[tactic(auto, unfolding(crate::specs::Reading::ask_at))]
fn read_ask(bytes: &[u8], at: usize) -> Result<(Call, usize), Refusal>
    requires { at ≤ length bytes.now }
    ensures read { result ≡ ask_at bytes.now at }
    ensures within { IfOk result (λ x. x.1 ≤ length bytes.now) }
{
    let (client, next) = read_u16(bytes, at)?;
    let (number, next) = read_u64(bytes, next)?;
    let call = Call::Ask {
        client: Client(client),
        number: Number(number),
    };
    Ok((call, next))
}

#[tactic(auto, unfolding(crate::specs::Reading::read_at))]
fn read_read(bytes: &[u8], at: usize) -> Result<(Call, usize), Refusal>
    requires { at ≤ length bytes.now }
    ensures read { result ≡ read_at bytes.now at }
    ensures within { IfOk result (λ x. x.1 ≤ length bytes.now) }
{
    let (client, next) = read_u16(bytes, at)?;
    let (position, next) = read_u64(bytes, next)?;
    let call = Call::Read {
        client: Client(client),
        position: Position(position),
    };
    Ok((call, next))
}

#[tactic(auto, unfolding(crate::specs::Reading::request_at))]
fn read_request(bytes: &[u8], at: usize) -> Result<(Call, usize), Refusal>
    requires { at ≤ length bytes.now }
    ensures read { result ≡ request_at bytes.now at }
    ensures within { IfOk result (λ x. x.1 ≤ length bytes.now) }
{
    let (client, next) = read_u16(bytes, at)?;
    let (value, next) = read_value_at(bytes, next)?;
    let call = Call::Request {
        client: Client(client),
        value,
    };
    Ok((call, next))
}

#[tactic(auto, unfolding(crate::specs::Reading::settled_at))]
fn read_settled(bytes: &[u8], at: usize) -> Result<(Call, usize), Refusal>
    requires { at ≤ length bytes.now }
    ensures read { result ≡ settled_at bytes.now at }
    ensures within { IfOk result (λ x. x.1 ≤ length bytes.now) }
{
    let (client, next) = read_u16(bytes, at)?;
    let (value, next) = read_value_at(bytes, next)?;
    let (from, next) = read_u32(bytes, next)?;
    let call = Call::Settled {
        client: Client(client),
        value,
        from,
    };
    Ok((call, next))
}

/// Reads the fields of a call of some kind.
#[tactic(auto, unfolding(crate::specs::Reading::call_fields_at))]
fn read_call_fields(
    alloc: Global,
    bytes: &[u8],
    at: usize,
    kind: u8,
) -> Result<(Call, usize), Refusal>
    requires { at ≤ length bytes.now }
    ensures read { Gives (λ x. x) result (call_fields_at kind bytes.now at) }
    ensures within { IfOk result (λ x. x.1 ≤ length bytes.now) }
{
    match kind {
        1 => read_submit(alloc, bytes, at),
        2 => read_ask(bytes, at),
        3 => read_read(bytes, at),
        4 => read_request(bytes, at),
        5 => read_settled(bytes, at),
        _ => Err(Refusal::BadKind { byte: kind }),
    }
}

#[tactic(auto, unfolding(crate::specs::Reading::deliver_at))]
fn read_deliver(bytes: &[u8], at: usize, input: &mut Input) -> Result<usize, Refusal>
    requires { at ≤ length bytes.now }
    ensures read { Gives (λ next. (input.new, next)) result (deliver_at bytes.now at) }
    ensures within { IfOk result (λ next. next ≤ length bytes.now) }
{
    let (place, next) = read_u32(bytes, at)?;
    let (index, next) = read_u8(bytes, next)?;
    *input = Input::Deliver {
        place,
        index,
        message: None,
    };
    Ok(next)
}

#[tactic(auto, unfolding(crate::specs::Reading::call_at))]
fn read_call(alloc: Global, bytes: &[u8], at: usize, input: &mut Input) -> Result<usize, Refusal>
    requires { at ≤ length bytes.now }
    ensures read { Gives (λ next. (input.new, next)) result (call_at bytes.now at) }
    ensures within { IfOk result (λ next. next ≤ length bytes.now) }
{
    let (kind, next) = read_u8(bytes, at)?;
    let (call, next) = read_call_fields(alloc, bytes, next, kind)?;
    *input = Input::Call(call);
    Ok(next)
}

/// Puts an input there that has no fields.
fn put_bare(bare: Input, at: usize, input: &mut Input) -> Result<usize, Refusal>
    ensures put { input.new ≡ bare }
    ensures end { result ≡ Ok at }
{
    *input = bare;
    Ok(at)
}

/// Reads the fields of an input of some kind into a place. A letter has no message.
#[tactic(auto, unfolding(crate::specs::Reading::input_fields_at))]
fn read_input_fields(
    alloc: Global,
    bytes: &[u8],
    at: usize,
    kind: u8,
    input: &mut Input,
) -> Result<usize, Refusal>
    requires { at ≤ length bytes.now }
    ensures read { Gives (λ next. (input.new, next)) result (input_fields_at kind bytes.now at) }
    ensures within { IfOk result (λ next. next ≤ length bytes.now) }
{
    match kind {
        1 => read_deliver(bytes, at, input),
        2 => read_call(alloc, bytes, at, input),
        3 => put_bare(Input::Tick, at, input),
        4 => put_bare(Input::Lead, at, input),
        5 => put_bare(Input::Stop, at, input),
        6 => put_bare(Input::Restart, at, input),
        _ => Err(Refusal::BadKind { byte: kind }),
    }
}

/// Reads an input into a place, and answers where it ends. After a refusal the place has some input.
#[tactic(auto, unfolding(crate::specs::Reading::input_at))]
pub fn read_input(
    alloc: Global,
    bytes: &[u8],
    at: usize,
    input: &mut Input,
) -> Result<usize, Refusal>
    requires { at ≤ length bytes.now }
    ensures read { Gives (λ next. (input.new, next)) result (input_at bytes.now at) }
    ensures within { IfOk result (λ next. next ≤ length bytes.now) }
{
    let (kind, next) = read_u8(bytes, at)?;
    read_input_fields(alloc, bytes, next, kind, input)
}

/// The mark of a byte.
#[tactic(auto, unfolding(crate::specs::Reading::mark_of))]
fn mark_of_byte(byte: u8) -> Result<Mark, Refusal>
    ensures { result ≡ mark_of byte }
{
    match byte {
        0 => Ok(Mark::Done),
        1 => Ok(Mark::Halted),
        2 => Ok(Mark::OpenedWithout),
        3 => Ok(Mark::OpenedWith),
        4 => Ok(Mark::StayedDown),
        _ => Err(Refusal::BadKind { byte }),
    }
}

#[tactic(auto, unfolding(crate::specs::Reading::mark_at))]
pub fn read_mark(bytes: &[u8], at: usize) -> Result<(Mark, usize), Refusal>
    requires { at ≤ length bytes.now }
    ensures read { result ≡ mark_at bytes.now at }
    ensures within { IfOk result (λ x. x.1 ≤ length bytes.now) }
{
    let (byte, next) = read_u8(bytes, at)?;
    let mark = mark_of_byte(byte)?;
    Ok((mark, next))
}

/// Reads an output behind those of a vector, and answers where it ends.
#[tactic(auto, unfolding(crate::specs::Reading::sent_at, crate::specs::ReplyReading::bytes_at))]
fn read_sent(
    alloc: Global,
    bytes: &[u8],
    at: usize,
    outputs: &mut Vec<Sent>,
) -> Result<usize, Refusal>
    requires { at ≤ length bytes.now }
    ensures read { Gives (λ next. (outputs.new.items, next)) result (sent_behind outputs.old.items bytes.now at) }
    ensures within { IfOk result (λ next. next ≤ length bytes.now) }
{
    let (to, start) = read_u16(bytes, at)?;
    let next = read_bytes_end(bytes, start, LONGEST)?;
    let message = decode(alloc, &bytes[start + 4..next])?;
    outputs.push(Sent {
        to: NodeId(to),
        message,
    })?;
    Ok(next)
}

/// Reads so many outputs in place of those that a vector had.
fn read_letters(
    alloc: Global,
    bytes: &[u8],
    at: usize,
    count: u8,
    outputs: &mut Vec<Sent>,
) -> Result<usize, Refusal>
    requires { at ≤ length bytes.now }
    ensures read { Gives (λ next. (outputs.new.items, next)) result (outputs_at count bytes.now at) }
    ensures within { IfOk result (λ next. next ≤ length bytes.now) }
{
    outputs.clear();
    let mut place = at;
    for i in 0..count {
        place = read_sent(alloc, bytes, place, outputs)?;
    }
    Ok(place)
}

/// Reads so many outputs in place of those of a list, and answers where they end. After a refusal nothing is said of the list.
pub fn read_outputs(
    alloc: Global,
    bytes: &[u8],
    at: usize,
    count: u8,
    outputs: &mut List<Sent>,
) -> Result<usize, Refusal>
    requires { at ≤ length bytes.now }
    ensures read { Gives (λ next. (outputs.new, next)) result (outputs_at count bytes.now at) }
    ensures within { IfOk result (λ next. next ≤ length bytes.now) }
{
    let none = List::of(Vec::new(alloc));
    let mut letters = mem::replace(outputs, none).into_inner();
    let next = read_letters(alloc, bytes, at, count, &mut letters)?;
    *outputs = List::of(letters);
    Ok(next)
}
