//! How many bytes an event counts with, part by part: its letters are measured in the outbox.

ghost use Rattle.std.specs.Prelude.{◌≡◌, ◌+◌, ◌≤◌, ◌++◌, ◌∷◌, length, take};
ghost use Rattle.history_frame.specs.Spelling.{IsInput, input_spelling};
ghost use Rattle.reply_frame.specs.Replies.{reply_bytes};
ghost use Rattle.schedule_model.specs.Streams.{IsSingle};
ghost use Rattle.cluster.specs.Sizing.{letters_size};

use history_frame::{Happened, Input, Mark, event_length};
use log_base::{List, Outbox};
use reply_frame::{Reply, reply_length};
use std::alloc::Global;

/// How many bytes come before the letters of an event with this input. The input is handed back.
pub(crate) fn front_of(alloc: Global, input: Input) -> (Input, u32)
    requires { IsInput input }
    ensures input { result.0 ≡ input }
    ensures front { result.1 ≡ 9 + length (input_spelling input) }
    ensures small { result.1 ≤ 70000 }
{
    let alone = Happened {
        input,
        mark: Mark::Done,
        outputs: List::of(Vec::new(alloc)),
        reply: Reply::Nothing,
    };
    let front = event_length(&alone) - 1;
    let Happened {
        input,
        mark: _,
        outputs: _,
        reply: _,
    } = alone;
    (input, front)
}

/// How many bytes the letters have in the frame of their event.
pub(crate) fn letters_size(out: &Outbox) -> u32
    requires { letters_size out.now.letters ≤ 2097152 }
    ensures { result ≡ letters_size out.now.letters }
{
    let mut size = 0u32;
    for index in 0..out.len() {
        size += 6 + out.bytes(index).len() as u32;
    }
    size
}

/// How many bytes a reply has.
pub(crate) fn reply_size(reply: &Reply) -> u32
    requires single { IsSingle reply.now }
    requires fits { length (reply_bytes reply.now) ≤ 2097152 }
    ensures { result ≡ length (reply_bytes reply.now) }
{
    match reply {
        Reply::Found { entry, .. } => 23 + entry.bytes.get().len() as u32,
        _ => reply_length(reply),
    }
}
