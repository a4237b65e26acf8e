//! A replica as a part.

ghost use Rattle.std.specs.Prelude.{◌≡◌, ◌≢◌, ℕ, ◌≤◌, ◌++◌, length, map, Some, OnOk};
ghost use Rattle.history_frame.specs.declared.inputs.Input.TheVariants.{Restart};
ghost use Rattle.history_frame.specs.declared.inputs.Mark.{Mark};
ghost use Rattle.history_frame.specs.declared.inputs.Mark.TheVariants.{Halted, StayedDown};
ghost use Rattle.history_frame.specs.Effects.{happened};
ghost use Rattle.history_frame.specs.Spelling.{event_size};
ghost use Rattle.node_model.specs.Fits.{Fits};
ghost use Rattle.node_model.specs.Machine.{posted};
ghost use Rattle.node_model.specs.NodeState.{Storing, outcome_as};
ghost use Rattle.shard_replica.specs.Lists.{medium_at};
ghost use Rattle.storage_node.specs.Counting.{CountsOn};
ghost use Rattle.storage_node.specs.Opening.{RoseIn, mark_after};
ghost use Rattle.storage_node.specs.Preparing.{IsReady};
ghost use Rattle.storage_node.specs.StorageState.{config_of, node_of};
ghost use Rattle.core_step.specs.Disks.{IsStarting, segment_put, told_mark};
ghost use Rattle.core_step.specs.Standing.{role_in};

use cut_chain::Places;
use history_frame::{Effect, Input};
use log_base::{Memory, Outbox};
use segment_journal::Journal;
use storage_node::StorageNode;

/// A replica makes the memory for an event.
pub(super) fn ready_replica<J: Journal, P: Places>(
    node: &mut StorageNode<J, P>,
    input: &Input,
    out: &mut Outbox,
) -> Result<(), Memory>
    requires { Fits (config_of node.old) (role_in node.old) (Storing (node_of node.old)) input.now }
    ensures cluster { config_of node.new ≡ config_of node.old }
    ensures role { role_in node.new ≡ role_in node.old }
    ensures same { node_of node.new ≡ node_of node.old }
    ensures letters { out.new.letters ≡ out.old.letters }
    ensures ready { OnOk result (IsReady node.new input.now out.new) }
    ensures counts { CountsOn node.old.replica.media node.new.replica.media }
    ensures turns { input.now ≢ Restart → (k : ℕ) → (medium_at node.new.replica.media k).turns ≡ (medium_at node.old.replica.media k).turns }
    ensures opening { input.now ≡ Restart → OnOk result (IsStarting node.old.replica.media node.new.replica.media
        (Some (mark_after node.new.replica.last_reload node.new.replica.media))) }
{
    node.ready(input, out)
}

/// What a replica does with an input.
pub(super) fn act_replica<J: Journal, P: Places>(
    node: &mut StorageNode<J, P>,
    input: &Input,
    out: &mut Outbox,
) -> Effect
    requires fits { Fits (config_of node.old) (role_in node.old) (Storing (node_of node.old)) input.now }
    requires ready { IsReady node.old input.now out.old }
    ensures cluster { config_of node.new ≡ config_of node.old }
    ensures role { role_in node.new ≡ role_in node.old }
    ensures row { outcome_as (config_of node.old) (role_in node.old) (Storing (node_of node.old)) input.now result.mark
        ≡ Some (record { state = Storing (node_of node.new); outputs = result.outputs; reply = result.reply }) }
    ensures letters { out.new.letters ≡ out.old.letters ++ map posted result.outputs }
    ensures few { length result.outputs ≤ 255 }
    ensures size { event_size (happened input.now result) ≤ 2097152 }
    ensures halted { result.mark ≡ Halted → RoseIn node.old.replica.media node.new.replica.media }
    ensures counts { CountsOn node.old.replica.media node.new.replica.media }
    ensures told { input.now ≢ Restart → (mark : Mark)
        → told_mark node.old.replica.media (segment_put (config_of node.old) (role_in node.old) (Storing (node_of node.old)) input.now) ≡ Some mark
        → result.mark ≡ mark }
    ensures opened { input.now ≡ Restart → Some (mark_after node.old.replica.last_reload node.old.replica.media) ≡ Some result.mark }
    ensures stayed { result.mark ≡ StayedDown → input.now ≡ Restart }
{
    node.act(input, out)
}
