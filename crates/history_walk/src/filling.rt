//! The input that a written event stands for.

ghost use Rattle.std.specs.Prelude.{◌≡◌, ◌<◌, List as Items, map, IfOk, if◌then◌else◌};
ghost use Rattle.history_frame.specs.declared.events.Event.{Event};
ghost use Rattle.history_frame.specs.Frames.{TellsNoMessage};
ghost use Rattle.history_frame.specs.Spelling.{IsInput as IsSpelled};
ghost use Rattle.history_frame.specs.Widths.{InputFits};
ghost use Rattle.log_base.specs.Shape.{shape};
ghost use Rattle.node_model.specs.Histories.{letters_of};
ghost use Rattle.node_table.specs.Numbering.{nodes_of};
ghost use Rattle.history_walk.specs.Filling.{IsFilled, filling};
ghost use Rattle.history_walk.specs.declared.walker.Following.{Following};

use crate::inputs::is_input;
use crate::letters::letter_to;
use crate::walker::Following;
use history_frame::{Input, Sent};
use log_base::{Config, List, Memory, NodeId};
use node_table::role_of;
use std::alloc::Global;

/// Puts the input that a written one stands for in its place, where a node may take it after events that sent these
/// letters.
pub(crate) fn fill(
    alloc: Global,
    config: &Config,
    node: NodeId,
    sent: &[List<Sent>],
    input: &mut Input,
) -> Result<Following, Memory>
    requires node { node.0 < nodes_of (shape config.now) }
    requires fits { InputFits input.old }
    requires spelled { IsSpelled input.old }
    requires untold { TellsNoMessage input.old }
    ensures { IfOk result (λ following. (events : Items Event) → sent.now ≡ map letters_of events
        → IsFilled (shape config.now) node.0 events input.old (filling following input.new)) }
{
    match input {
        Input::Deliver {
            place,
            index,
            message,
        } => {
            letter_to(alloc, node, sent, *place, *index, message)?;
            return Ok(following_of(message.is_some()));
        }
        other => return Ok(following_of(is_input(config, role_of(config, node), other))),
    }
}

// Whether an event follows, by whether its node may take its input.
fn following_of(may: bool) -> Following
    ensures { result ≡ (if may then Following.Follows else Following.Breaks) }
{
    if may {
        return Following::Follows;
    }
    Following::Breaks
}
