//! The frames of a history as they are written.

ghost use Rattle.std.specs.Prelude.{◌≤◌, length, IfOk};
ghost use Rattle.history_frame.specs.Spelling.{IsHistory, IsInput, input_spelling};

use crate::{
    Call, Event, Happened, History, Input, Kept, Mark, event_length, event_sized, one_history,
    write_event, write_head, write_history, write_kept,
};
use log_base::{Bytes, Client, Config, List, NodeId, Number, Position, Shard};
use record_frame::Value;
use reply_frame::Reply;
use std::alloc::{AllocError, Global};
use std::test::Fail;

/// The frames of events of node 258, one for each input below.
const EVENTS: [&str; 10] = [
    "0000000762010206000000",
    "0000000762010203000000",
    "0000000762010204000000",
    "0000000762010205000000",
    "0000000c620102010000000703000000",
    "000000176201020201000700000000000000090000000161000000",
    "00000012620102020200070000000000000009000000",
    "00000012620102020300070000000000000102000000",
    "0000000d62010202040007020001000000",
    "000000176201020205000704000000000000010200000005000000",
];

/// An input of each kind, and a call of each kind.
#[tactic(auto, unfolding(log_base::specs::Wide::be2, log_base::specs::Wide::be4, log_base::specs::Wide::be8))]
fn input_of(alloc: Global, kind: usize) -> Result<Input, AllocError>
    ensures is { IfOk result IsInput }
    ensures short { IfOk result (λ input. length (input_spelling input) ≤ 100) }
{
    let client = Client(7);
    let number = Number(9);
    match kind {
        0 => Ok(Input::Restart),
        1 => Ok(Input::Tick),
        2 => Ok(Input::Lead),
        3 => Ok(Input::Stop),
        4 => Ok(Input::Deliver {
            place: 7,
            index: 3,
            message: None,
        }),
        5 => Ok(Input::Call(Call::Submit {
            client,
            number,
            bytes: Bytes::of(Vec::from_slice(alloc, b"a")?),
        })),
        6 => Ok(Input::Call(Call::Ask { client, number })),
        7 => Ok(Input::Call(Call::Read {
            client,
            position: Position(258),
        })),
        8 => Ok(Input::Call(Call::Request {
            client,
            value: Value::Add(Shard(1)),
        })),
        _ => Ok(Input::Call(Call::Settled {
            client,
            value: Value::Trim(Position(258)),
            from: 5,
        })),
    }
}

/// The frame of an event in which a node takes an input, puts out nothing and answers nothing.
fn event_bytes(alloc: Global, input: Input) -> Result<(Vec<u8>, u32), Fail>
    requires is { IsInput input }
    requires short { length (input_spelling input) ≤ 100 }
{
    let event = Event {
        place: 0,
        node: NodeId(258),
        happened: Happened {
            input,
            mark: Mark::Done,
            outputs: List::of(Vec::new(alloc)),
            reply: Reply::Nothing,
        },
    };
    let mut out = Vec::new(alloc);
    write_event(&event, &mut out)?;
    Ok((out, event_length(&event.happened)))
}

#[test]
fn each_input_written(rt: HostRuntime) -> Result<(), Fail> {
    for (kind, row) in EVENTS.iter().enumerate() {
        let input = input_of(rt.alloc(), kind)?;
        let (bytes, size) = event_bytes(rt.alloc(), input)?;
        let want = hex::decode(rt.alloc(), *row)?;
        assert_eq!(rt; bytes.as_slice(), want.as_slice(), "input {kind}");
        assert_eq!(rt; size as usize, want.len());
    }
    event_sized();
    one_history();
    Ok(())
}

/// A history without events: one payload of disk 8.
fn short_history(alloc: Global, config: Config) -> Result<History, Fail>
    ensures { IfOk result IsHistory }
{
    let mut kept = Vec::new(alloc);
    kept.push(Kept {
        disk: 8,
        payload: Bytes::of(Vec::from_slice(alloc, b"ab")?),
    })?;
    Ok(History {
        config,
        run: 1,
        kept: List::of(kept),
        events: List::of(Vec::new(alloc)),
    })
}

#[test]
fn history_written(rt: HostRuntime) -> Result<(), Fail> {
    let config = Config::new(2, 2, 3, 1).ok().ok_or("config")?;
    let history = short_history(rt.alloc(), config)?;
    let mut out = Vec::new(rt.alloc());
    write_history(&history, &mut out)?;
    let want = hex::decode(
        rt.alloc(),
        "000000096002020301000000010000000761000000086162",
    )?;
    assert_eq!(rt; out.as_slice(), want.as_slice());
    let kept = Kept {
        disk: 8,
        payload: Bytes::of(Vec::from_slice(rt.alloc(), b"ab")?),
    };
    let mut parts = Vec::new(rt.alloc());
    write_head(&config, 1, &mut parts)?;
    write_kept(&kept, &mut parts)?;
    assert_eq!(rt; parts.as_slice(), want.as_slice());
    Ok(())
}
