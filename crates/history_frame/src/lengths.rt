//! How many bytes spell what happened.

ghost use Rattle.std.specs.Prelude.{◌≡◌, ◌≤◌, length};
ghost use Rattle.std.specs.List.{flat_map, AllByRecursion};
ghost use Rattle.history_frame.specs.Spelling.{IsCall, IsInput, IsSent, IsHappened, call_spelling, input_spelling, sent_spelling, event_size};

use crate::events::{Happened, Sent};
use crate::inputs::{Call, Input};
use message_frame::message_length;
use record_frame::value_length;
use reply_frame::reply_length;

/// How many bytes spell a call.
#[tactic(auto, unfolding(log_base::specs::Wide::be2, log_base::specs::Wide::be4, log_base::specs::Wide::be8))]
fn call_length(call: &Call) -> usize
    requires { IsCall call.now }
    ensures { result ≡ length (call_spelling call.now) }
{
    match call {
        Call::Submit { bytes, .. } => 15 + bytes.get().len(),
        Call::Ask { .. } => 11,
        Call::Read { .. } => 11,
        Call::Request { value, .. } => 3 + value_length(value),
        Call::Settled { value, .. } => 7 + value_length(value),
    }
}

/// How many bytes spell an input.
#[tactic(auto, unfolding(log_base::specs::Wide::be4))]
pub fn input_length(input: &Input) -> usize
    requires { IsInput input.now }
    ensures { result ≡ length (input_spelling input.now) }
{
    match input {
        Input::Deliver { .. } => 6,
        Input::Call(call) => 1 + call_length(call),
        Input::Tick => 1,
        Input::Lead => 1,
        Input::Stop => 1,
        Input::Restart => 1,
    }
}

/// How many bytes spell an output.
#[tactic(auto, unfolding(log_base::specs::Wide::be2, log_base::specs::Wide::be4))]
fn sent_length(sent: &Sent) -> usize
    requires sent { IsSent sent.now }
    requires fits { length (sent_spelling sent.now) ≤ 2097156 }
    ensures { result ≡ length (sent_spelling sent.now) }
{
    6 + message_length(&sent.message)
}

/// How many bytes spell outputs, without their count.
fn outputs_length(outputs: &[Sent]) -> usize
    requires outputs { AllByRecursion IsSent outputs.now }
    requires fits { length (flat_map sent_spelling outputs.now) ≤ 2097156 }
    ensures { result ≡ length (flat_map sent_spelling outputs.now) }
{
    let mut length = 0;
    for sent in outputs {
        length += sent_length(sent);
    }
    length
}

/// How many bytes the frame of an event has in which this happened, its length field among them.
pub fn event_length(happened: &Happened) -> u32
    requires { IsHappened happened.now }
    ensures { result ≡ event_size happened.now }
{
    let outputs = outputs_length(happened.outputs.get());
    let length = 9 + input_length(&happened.input) + outputs;
    length as u32 + reply_length(&happened.reply)
}
