//! Writing the frames of a history.

ghost use Rattle.std.specs.Prelude.{◌≡◌, ◌≤◌, ◌++◌, OnOk, OnErr};
ghost use Rattle.std.specs.List.{flat_map, AllByRecursion};
ghost use Rattle.log_base.specs.Shape.{shape};
ghost use Rattle.history_frame.specs.Spelling.{IsEvent, IsHistory, IsKept, IsSent, event_spelling, front_spelling, head_spelling, history_spelling, kept_spelling, sent_spelling};
ghost use Rattle.history_frame.specs.Writing.{Extends};

use crate::events::{Event, History, Kept, Sent};
use crate::input_writing::{byte_of, put_input};
use crate::lengths::{event_length, input_length};
use log_base::{Config, Memory, put_bytes, put_u8, put_u16, put_u32};
use message_frame::{encode, message_length};
use reply_frame::{put_reply, reply_length};

/// The kinds of the frames.
const HEAD: u8 = 0x60;

const KEPT: u8 = 0x61;

const EVENT: u8 = 0x62;

/// Appends the frame of a head.
#[tactic(auto, unfolding(log_base::specs::Wide::be4))]
pub fn write_head(config: &Config, run: u32, out: &mut Vec<u8>) -> Result<(), Memory>
    ensures ok { OnOk result (out.new.items ≡ out.old.items ++ head_spelling (shape config.now) run) }
    ensures err { OnErr result (out.new.items ≡ out.old.items) }
{
    out.reserve(13)?;
    put_u32(9, out);
    put_u8(HEAD, out);
    put_u8(config.replicas(), out);
    put_u8(config.shards(), out);
    put_u8(config.orderers(), out);
    put_u8(config.gatherers(), out);
    put_u32(run, out);
    Ok(())
}

/// Appends the frame of a kept payload.
#[tactic(auto, unfolding(log_base::specs::Wide::be4))]
pub fn write_kept(kept: &Kept, out: &mut Vec<u8>) -> Result<(), Memory>
    requires { IsKept kept.now }
    ensures ok { OnOk result (out.new.items ≡ out.old.items ++ kept_spelling kept.now) }
    ensures err { OnErr result (out.new.items ≡ out.old.items) }
{
    let payload = kept.payload.get();
    out.reserve(payload.len() + 9)?;
    put_u32(payload.len() as u32 + 5, out);
    put_u8(KEPT, out);
    put_u32(kept.disk, out);
    put_bytes(payload, out);
    Ok(())
}

/// Appends the frame of an event.
pub fn write_event(event: &Event, out: &mut Vec<u8>) -> Result<(), Memory>
    requires { IsEvent event.now }
    ensures ok { OnOk result (out.new.items ≡ out.old.items ++ event_spelling event.now) }
    ensures err { OnErr result (out.new.items ≡ out.old.items) }
{
    let start = out.len();
    match put_event(event, out) {
        Ok(()) => Ok(()),
        Err(memory) => {
            out.truncate(start);
            Err(memory)
        }
    }
}

/// Appends the frame of an event, or a part of it where memory runs out.
fn put_event(event: &Event, out: &mut Vec<u8>) -> Result<(), Memory>
    requires { IsEvent event.now }
    ensures ok { OnOk result (out.new.items ≡ out.old.items ++ event_spelling event.now) }
    ensures err { OnErr result (Extends out.old.items out.new.items) }
{
    put_front(event, out)?;
    put_outputs(event.happened.outputs.get(), out)?;
    out.reserve(reply_length(&event.happened.reply) as usize)?;
    put_reply(&event.happened.reply, out);
    Ok(())
}

/// Appends the frame of an event up to its outputs.
#[tactic(auto, unfolding(log_base::specs::Wide::be2, log_base::specs::Wide::be4))]
fn put_front(event: &Event, out: &mut Vec<u8>) -> Result<(), Memory>
    requires { IsEvent event.now }
    ensures ok { OnOk result (out.new.items ≡ out.old.items ++ front_spelling event.now) }
    ensures err { OnErr result (out.new.items ≡ out.old.items) }
{
    let happened = &event.happened;
    out.reserve(input_length(&happened.input) + 9)?;
    put_u32(event_length(happened) - 4, out);
    put_u8(EVENT, out);
    put_u16(event.node.0, out);
    put_input(&happened.input, out);
    put_u8(byte_of(happened.mark), out);
    put_u8(happened.outputs.get().len() as u8, out);
    Ok(())
}

/// Appends outputs, without their count, or a part of them where memory runs out.
fn put_outputs(outputs: &[Sent], out: &mut Vec<u8>) -> Result<(), Memory>
    requires outputs { AllByRecursion IsSent outputs.now }
    ensures ok { OnOk result (out.new.items ≡ out.old.items ++ flat_map sent_spelling outputs.now) }
    ensures err { OnErr result (Extends out.old.items out.new.items) }
{
    for sent in outputs {
        put_sent(sent, out)?;
    }
    Ok(())
}

/// Appends an output, or a part of it where memory runs out.
#[tactic(auto, unfolding(log_base::specs::Wide::be2, log_base::specs::Wide::be4))]
fn put_sent(sent: &Sent, out: &mut Vec<u8>) -> Result<(), Memory>
    requires sent { IsSent sent.now }
    ensures ok { OnOk result (out.new.items ≡ out.old.items ++ sent_spelling sent.now) }
    ensures err { OnErr result (Extends out.old.items out.new.items) }
{
    out.reserve(6)?;
    put_u16(sent.to.0, out);
    put_u32(message_length(&sent.message) as u32, out);
    encode(&sent.message, out)
}

/// Appends the one spelling of a history: its head, its kept payloads and its events.
pub fn write_history(history: &History, out: &mut Vec<u8>) -> Result<(), Memory>
    requires { IsHistory history.now }
    ensures ok { OnOk result (out.new.items ≡ out.old.items ++ history_spelling history.now) }
    ensures err { OnErr result (out.new.items ≡ out.old.items) }
{
    let start = out.len();
    match put_history(history, out) {
        Ok(()) => Ok(()),
        Err(memory) => {
            out.truncate(start);
            Err(memory)
        }
    }
}

/// Appends a history, or a part of it where memory runs out.
fn put_history(history: &History, out: &mut Vec<u8>) -> Result<(), Memory>
    requires { IsHistory history.now }
    ensures ok { OnOk result (out.new.items ≡ out.old.items ++ history_spelling history.now) }
    ensures err { OnErr result (Extends out.old.items out.new.items) }
{
    write_head(&history.config, history.run, out)?;
    put_kept(history.kept.get(), out)?;
    put_events(history.events.get(), out)
}

fn put_kept(kept: &[Kept], out: &mut Vec<u8>) -> Result<(), Memory>
    requires { AllByRecursion IsKept kept.now }
    ensures ok { OnOk result (out.new.items ≡ out.old.items ++ flat_map kept_spelling kept.now) }
    ensures err { OnErr result (Extends out.old.items out.new.items) }
{
    for payload in kept {
        write_kept(payload, out)?;
    }
    Ok(())
}

fn put_events(events: &[Event], out: &mut Vec<u8>) -> Result<(), Memory>
    requires { AllByRecursion IsEvent events.now }
    ensures ok { OnOk result (out.new.items ≡ out.old.items ++ flat_map event_spelling events.now) }
    ensures err { OnErr result (Extends out.old.items out.new.items) }
{
    for event in events {
        write_event(event, out)?;
    }
    Ok(())
}
