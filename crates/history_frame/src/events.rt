//! Events and histories.

use crate::inputs::{Input, Mark};
use log_base::{Bytes, Config, List, NodeId};
use message_frame::Message;
use reply_frame::Reply;

/// A letter that a node sends.
#[derive(Debug, Drop)]
pub struct Sent {
    pub to: NodeId,
    pub message: Message,
}

/// What happened in an event: what was taken, how it turned out, what was sent, and the reply.
#[derive(Debug, Drop)]
pub struct Happened {
    pub input: Input,
    pub mark: Mark,
    pub outputs: List<Sent>,
    pub reply: Reply,
}

/// What a node did with an input: how it turned out on its disks, what was sent, and the reply.
#[derive(Debug, Drop)]
pub struct Effect {
    pub mark: Mark,
    pub outputs: List<Sent>,
    pub reply: Reply,
}

impl Effect {
    ghost use Rattle.std.specs.Prelude.{◌≡◌};
    ghost use Rattle.history_frame.specs.Effects.{happened};

    /// What happened with the input that it was done with.
    pub fn on(self, input: Input) -> Happened
        ensures { result ≡ happened input self }
    {
        Happened {
            input,
            mark: self.mark,
            outputs: self.outputs,
            reply: self.reply,
        }
    }
}

/// An event: one node takes one input. Its place is its number among all events, from 0.
#[derive(Debug, Drop)]
pub struct Event {
    pub place: u32,
    pub node: NodeId,
    pub happened: Happened,
}

/// A payload that a disk held before the run.
#[derive(Debug, Drop)]
pub struct Kept {
    pub disk: u32,
    pub payload: Bytes,
}

/// A run: its config and number, what the disks held before it, and its events in order of place.
#[derive(Debug, Drop)]
pub struct History {
    pub config: Config,
    /// 1 to 1,000,000.
    pub run: u32,
    pub kept: List<Kept>,
    pub events: List<Event>,
}
