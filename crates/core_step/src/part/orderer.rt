//! An orderer as a part.

ghost use Rattle.std.specs.Prelude.{◌≡◌, ◌≢◌, ℕ, ◌≤◌, ◌++◌, length, map, Some, OnOk};
ghost use Rattle.history_frame.specs.declared.inputs.Input.TheVariants.{Restart};
ghost use Rattle.history_frame.specs.declared.inputs.Mark.{Mark};
ghost use Rattle.history_frame.specs.declared.inputs.Mark.TheVariants.{Halted, StayedDown};
ghost use Rattle.history_frame.specs.Effects.{happened};
ghost use Rattle.history_frame.specs.Spelling.{event_size};
ghost use Rattle.node_model.specs.Fits.{Fits};
ghost use Rattle.node_model.specs.Machine.{posted};
ghost use Rattle.node_model.specs.NodeState.{Ordering, outcome_as};
ghost use Rattle.node_table.specs.declared.role.Role.TheVariants.{Orderer as OrdererRole};
ghost use Rattle.shard_replica.specs.Lists.{medium_at};
ghost use Rattle.orderer_node.specs.Ordering.{IsReady, node_of};
ghost use Rattle.storage_node.specs.Counting.{CountsOn};
ghost use Rattle.storage_node.specs.Opening.{RoseIn};
ghost use Rattle.core_step.specs.Disks.{IsStarting, media_of_orderer, orderer_start, segment_put, told_mark};

use cut_chain::Places;
use history_frame::{Effect, Input};
use log_base::{Memory, Outbox};
use orderer_node::OrdererNode;
use segment_journal::Journal;

/// An orderer makes the memory for an event.
pub(super) fn ready_orderer<J: Journal, P: Places>(
    node: &mut OrdererNode<J, P>,
    input: &Input,
    out: &mut Outbox,
) -> Result<(), Memory>
    ensures cluster { node.new.memory.config ≡ node.old.memory.config }
    ensures role { node.new.index ≡ node.old.index }
    ensures same { node_of J.state node.new ≡ node_of J.state node.old }
    ensures letters { out.new.letters ≡ out.old.letters }
    ensures ready { OnOk result (IsReady J.state node.new input.now out.new) }
    ensures counts { CountsOn (media_of_orderer J.state J.faults J.keeps_synced J.turns node.old) (media_of_orderer J.state J.faults J.keeps_synced J.turns node.new) }
    ensures turns { input.now ≢ Restart → (k : ℕ) → (medium_at (media_of_orderer J.state J.faults J.keeps_synced J.turns node.new) k).turns
        ≡ (medium_at (media_of_orderer J.state J.faults J.keeps_synced J.turns node.old) k).turns }
    ensures opening { input.now ≡ Restart → OnOk result (IsStarting
        (media_of_orderer J.state J.faults J.keeps_synced J.turns node.old) (media_of_orderer J.state J.faults J.keeps_synced J.turns node.new) (orderer_start J.state node.new)) }
{
    node.ready(input, out)
}

/// What an orderer does with an input.
pub(super) fn act_orderer<J: Journal, P: Places>(
    node: &mut OrdererNode<J, P>,
    input: &Input,
    out: &mut Outbox,
) -> Effect
    requires fits { Fits node.old.memory.config (OrdererRole node.old.index) (Ordering (node_of J.state node.old)) input.now }
    requires ready { IsReady J.state node.old input.now out.old }
    ensures cluster { node.new.memory.config ≡ node.old.memory.config }
    ensures role { node.new.index ≡ node.old.index }
    ensures row { outcome_as node.old.memory.config (OrdererRole node.old.index) (Ordering (node_of J.state node.old)) input.now result.mark
        ≡ Some (record { state = Ordering (node_of J.state node.new); outputs = result.outputs; reply = result.reply }) }
    ensures letters { out.new.letters ≡ out.old.letters ++ map posted result.outputs }
    ensures few { length result.outputs ≤ 255 }
    ensures size { event_size (happened input.now result) ≤ 2097152 }
    ensures halted { result.mark ≡ Halted → RoseIn (media_of_orderer J.state J.faults J.keeps_synced J.turns node.old) (media_of_orderer J.state J.faults J.keeps_synced J.turns node.new) }
    ensures counts { CountsOn (media_of_orderer J.state J.faults J.keeps_synced J.turns node.old) (media_of_orderer J.state J.faults J.keeps_synced J.turns node.new) }
    ensures told { input.now ≢ Restart → (mark : Mark)
        → told_mark (media_of_orderer J.state J.faults J.keeps_synced J.turns node.old) (segment_put node.old.memory.config (OrdererRole node.old.index) (Ordering (node_of J.state node.old)) input.now) ≡ Some mark
        → result.mark ≡ mark }
    ensures opened { input.now ≡ Restart → orderer_start J.state node.old ≡ Some result.mark }
    ensures stayed { result.mark ≡ StayedDown → input.now ≡ Restart }
{
    node.act(input, out)
}
