//! One step of a node under its turn.

ghost use Rattle.std.specs.Prelude.{◌≡◌, ◌+◌, ◌≤◌, [], length, map, IfOk, OnErr};
ghost use Rattle.counted_node.specs.Counted.{counted_meanings, counted_node};
ghost use Rattle.history_frame.specs.Spelling.{IsInput, event_size};
ghost use Rattle.node_model.specs.Machine.{posted};
ghost use Rattle.cluster.specs.Stepping.{Acts};

use crate::sizing::{front_of, letters_size, reply_size};
use counted_node::CountedNode;
use cut_chain::Places;
use history_frame::{Happened, Input};
use log_base::{Machine, Memory, Outbox};
use segment_journal::Journal;
use std::alloc::Global;

/// What happened in a step, and the bytes that its event counts with.
#[derive(Debug, Drop)]
pub(crate) struct Stepped {
    pub happened: Happened,
    pub bytes: u32,
}

/// One step of a node. Its letters go into the outbox.
fn step_node<J: Journal + Drop, P: Places>(
    node: &mut CountedNode<J, P>,
    input: Input,
    out: &mut Outbox,
) -> Result<Happened, Memory>
    requires fits { counted_meanings.fits (counted_node J.state node.old) input }
    requires empty { out.old.letters ≡ [] }
    ensures acts { IfOk result (λ happened. Acts (counted_node J.state node.old) (counted_node J.state node.new) input happened out.new.letters) }
    ensures err { OnErr result (counted_node J.state node.new ≡ counted_node J.state node.old) }
{
    node.ready(&input, out)?;
    Ok(node.step(input, out))
}

/// One step of a node, with the size of its event. The letters lie in the outbox.
pub(crate) fn act<J: Journal + Drop, P: Places>(
    alloc: Global,
    node: &mut CountedNode<J, P>,
    input: Input,
    out: &mut Outbox,
) -> Result<Stepped, Memory>
    requires fits { counted_meanings.fits (counted_node J.state node.old) input }
    requires spelled { IsInput input }
    ensures acts { IfOk result (λ stepped. Acts (counted_node J.state node.old) (counted_node J.state node.new) input stepped.happened out.new.letters) }
    ensures bytes { IfOk result (λ stepped. stepped.bytes ≡ event_size stepped.happened) }
    ensures err { OnErr result (counted_node J.state node.new ≡ counted_node J.state node.old) }
{
    let (input, front) = front_of(alloc, input);
    out.clear();
    let happened = step_node(node, input, out)?;
    let bytes = front + letters_size(out) + reply_size(&happened.reply);
    Ok(Stepped { happened, bytes })
}
