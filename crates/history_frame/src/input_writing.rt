//! Writing inputs and marks, for which there has to be room.

ghost use Rattle.std.specs.Prelude.{◌≡◌, ◌+◌, ◌≤◌, ◌++◌, length, vec_len, vec_capacity};
ghost use Rattle.record_frame.specs.Entries.{entry_of, entry_spelling};
ghost use Rattle.history_frame.specs.Spelling.{IsCall, IsInput, call_spelling, input_spelling, mark_byte};

use crate::inputs::{Call, Input, Mark};
use log_base::{Client, Number, put_bytes, put_u8, put_u16, put_u32, put_u64};
use record_frame::put_value;

/// The byte of a mark.
pub fn byte_of(mark: Mark) -> u8
    ensures { result ≡ mark_byte mark }
{
    match mark {
        Mark::Done => 0,
        Mark::Halted => 1,
        Mark::OpenedWithout => 2,
        Mark::OpenedWith => 3,
        Mark::StayedDown => 4,
    }
}

/// Appends the fields of a Submit behind its kind.
#[tactic(auto, unfolding(log_base::specs::Wide::be2, log_base::specs::Wide::be4, log_base::specs::Wide::be8))]
fn put_submit(client: Client, number: Number, bytes: &[u8], out: &mut Vec<u8>)
    requires size { length bytes.now ≤ 65535 }
    requires room { vec_len out.old + length (entry_spelling (entry_of client number bytes.now)) ≤ vec_capacity out.old }
    ensures items { out.new.items ≡ out.old.items ++ entry_spelling (entry_of client number bytes.now) }
    ensures len { vec_len out.new ≡ vec_len out.old + length (entry_spelling (entry_of client number bytes.now)) }
    ensures capacity { vec_capacity out.old ≤ vec_capacity out.new }
{
    put_u8(1, out);
    put_u16(client.0, out);
    put_u64(number.0, out);
    put_u32(bytes.len() as u32, out);
    put_bytes(bytes, out);
}

/// Appends a call.
#[tactic(auto, unfolding(log_base::specs::Wide::be2, log_base::specs::Wide::be4, log_base::specs::Wide::be8))]
fn put_call(call: &Call, out: &mut Vec<u8>)
    requires call { IsCall call.now }
    requires room { vec_len out.old + length (call_spelling call.now) ≤ vec_capacity out.old }
    ensures items { out.new.items ≡ out.old.items ++ call_spelling call.now }
    ensures len { vec_len out.new ≡ vec_len out.old + length (call_spelling call.now) }
    ensures capacity { vec_capacity out.old ≤ vec_capacity out.new }
{
    match call {
        Call::Submit {
            client,
            number,
            bytes,
        } => put_submit(*client, *number, bytes.get(), out),
        Call::Ask { client, number } => {
            put_u8(2, out);
            put_u16(client.0, out);
            put_u64(number.0, out);
        }
        Call::Read { client, position } => {
            put_u8(3, out);
            put_u16(client.0, out);
            put_u64(position.0, out);
        }
        Call::Request { client, value } => {
            put_u8(4, out);
            put_u16(client.0, out);
            put_value(value, out);
        }
        Call::Settled {
            client,
            value,
            from,
        } => {
            put_u8(5, out);
            put_u16(client.0, out);
            put_value(value, out);
            put_u32(*from, out);
        }
    }
}

/// Appends an input, but for the message of a letter.
#[tactic(auto, unfolding(log_base::specs::Wide::be4))]
pub fn put_input(input: &Input, out: &mut Vec<u8>)
    requires input { IsInput input.now }
    requires room { vec_len out.old + length (input_spelling input.now) ≤ vec_capacity out.old }
    ensures items { out.new.items ≡ out.old.items ++ input_spelling input.now }
    ensures len { vec_len out.new ≡ vec_len out.old + length (input_spelling input.now) }
    ensures capacity { vec_capacity out.old ≤ vec_capacity out.new }
{
    match input {
        Input::Deliver { place, index, .. } => {
            put_u8(1, out);
            put_u32(*place, out);
            put_u8(*index, out);
        }
        Input::Call(call) => {
            put_u8(2, out);
            put_call(call, out);
        }
        Input::Tick => put_u8(3, out),
        Input::Lead => put_u8(4, out),
        Input::Stop => put_u8(5, out),
        Input::Restart => put_u8(6, out),
    }
}
