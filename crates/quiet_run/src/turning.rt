//! One event of one node among the others.

ghost use Rattle.std.specs.Prelude.{◌≡◌, ◌≤◌, ◌<◌, ◌++◌, length, map, IfOk, OnErr, Some, slice_get};
ghost use Rattle.node_model.specs.Machine.{node_meanings, posted};
ghost use Rattle.node_model.specs.NodeState.{IsRow};
ghost use Rattle.core_step.specs.Standing.{Standing, cluster_node};
ghost use Rattle.storage_node.specs.Counting.{CountsOn};
ghost use Rattle.counted_node.specs.Causes.{AllCountOn, HasCause, journals_at, node_media};
ghost use Rattle.quiet_run.specs.Turns.{IsAt, ShowsMark, TakesTurn};

use core_step::Node;
use cut_chain::Places;
use history_frame::{Happened, Input};
use log_base::{Machine, Memory, Outbox};
use segment_journal::Journal;

/// One event of a node. Its letters go into the outbox.
fn take_input<J: Journal + Drop, P: Places>(
    node: &mut Node<J, P>,
    input: Input,
    out: &mut Outbox,
) -> Result<Happened, Memory>
    requires { node_meanings.fits (cluster_node J.state node.old) input }
    ensures input { IfOk result (λ happened. happened.input ≡ input) }
    ensures row { IfOk result (λ happened. node_meanings.is_row (cluster_node J.state node.old) happened) }
    ensures after { IfOk result (λ happened. cluster_node J.state node.new ≡ node_meanings.after (cluster_node J.state node.old) happened) }
    ensures letters { IfOk result (λ happened. out.new.letters ≡ out.old.letters ++ map posted happened.outputs) }
    ensures few { IfOk result (λ happened. length happened.outputs ≤ 255) }
    ensures size { IfOk result (λ happened. node_meanings.size happened ≤ 2097152) }
    ensures err { OnErr result (cluster_node J.state node.new ≡ cluster_node J.state node.old) }
    ensures counts { CountsOn (node_media J.state J.faults J.keeps_synced J.turns node.old) (node_media J.state J.faults J.keeps_synced J.turns node.new) }
    ensures cause { IfOk result (λ happened. HasCause (journals_at node.old.config node.old.number) happened.mark
        (node_media J.state J.faults J.keeps_synced J.turns node.old) (node_media J.state J.faults J.keeps_synced J.turns node.new)) }
{
    node.tell();
    node.ready(&input, out)?;
    let happened = node.step(input, out);
    node.tell();
    Ok(happened)
}

/// One event of the node of this number. Its letters go into the outbox.
pub(crate) fn take_turn<J: Journal + Drop, P: Places>(
    nodes: &mut [Node<J, P>],
    number: usize,
    input: Input,
    out: &mut Outbox,
) -> Result<Happened, Memory>
    requires within { number < length nodes.old }
    requires fits { IsAt (map (cluster_node J.state) nodes.old) number input }
    ensures turn { IfOk result (λ happened. TakesTurn number input happened (map (cluster_node J.state) nodes.old) (map (cluster_node J.state) nodes.new)) }
    ensures letters { IfOk result (λ happened. out.new.letters ≡ out.old.letters ++ map posted happened.outputs) }
    ensures err { OnErr result (map (cluster_node J.state) nodes.new ≡ map (cluster_node J.state) nodes.old) }
    ensures counts { AllCountOn (map (node_media J.state J.faults J.keeps_synced J.turns) nodes.old) (map (node_media J.state J.faults J.keeps_synced J.turns) nodes.new) }
    ensures shows { IfOk result (λ happened. ShowsMark number happened.mark (map (cluster_node J.state) nodes.old)
        (map (node_media J.state J.faults J.keeps_synced J.turns) nodes.old) (map (node_media J.state J.faults J.keeps_synced J.turns) nodes.new)) }
{
    take_input(&mut nodes[number], input, out)
}
