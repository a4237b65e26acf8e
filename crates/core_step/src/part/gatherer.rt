//! A gatherer as a part. It has no journal, so only a start has another mark than that it is done.

ghost use Rattle.std.specs.Prelude.{◌≡◌, ◌≢◌, ◌≤◌, ◌++◌, length, map, Some, OnOk};
ghost use Rattle.history_frame.specs.declared.inputs.Input.TheVariants.{Restart};
ghost use Rattle.history_frame.specs.declared.inputs.Mark.TheVariants.{Done, Halted, OpenedWithout, StayedDown};
ghost use Rattle.history_frame.specs.Effects.{happened};
ghost use Rattle.history_frame.specs.Spelling.{event_size};
ghost use Rattle.node_model.specs.Fits.{Fits};
ghost use Rattle.node_model.specs.Machine.{posted};
ghost use Rattle.node_model.specs.NodeState.{Gathering, outcome_as};
ghost use Rattle.node_table.specs.declared.role.Role.TheVariants.{Gatherer as GathererRole};
ghost use Rattle.gatherer_node.specs.Gatherer.{IsReady};

use gatherer_node::GathererNode;
use history_frame::{Effect, Input};
use log_base::{Memory, Outbox};

/// A gatherer makes the memory for an event.
pub(super) fn ready_gatherer(
    node: &mut GathererNode,
    input: &Input,
    out: &mut Outbox,
) -> Result<(), Memory>
    ensures cluster { node.new.config ≡ node.old.config }
    ensures role { node.new.index ≡ node.old.index }
    ensures same { node.new.node ≡ node.old.node }
    ensures letters { out.new.letters ≡ out.old.letters }
    ensures ready { OnOk result (IsReady node.new out.new.rooms input.now) }
{
    node.ready(input, out)
}

/// What a gatherer does with an input.
pub(super) fn act_gatherer(node: &mut GathererNode, input: &Input, out: &mut Outbox) -> Effect
    requires fits { Fits node.old.config (GathererRole node.old.index) (Gathering node.old.node) input.now }
    requires ready { IsReady node.old out.old.rooms input.now }
    ensures cluster { node.new.config ≡ node.old.config }
    ensures role { node.new.index ≡ node.old.index }
    ensures row { outcome_as node.old.config (GathererRole node.old.index) (Gathering node.old.node) input.now result.mark
        ≡ Some (record { state = Gathering node.new.node; outputs = result.outputs; reply = result.reply }) }
    ensures letters { out.new.letters ≡ out.old.letters ++ map posted result.outputs }
    ensures few { length result.outputs ≤ 255 }
    ensures size { event_size (happened input.now result) ≤ 2097152 }
    ensures runs { (result.mark ≢ Halted) × (result.mark ≢ StayedDown) }
    ensures done { input.now ≢ Restart → result.mark ≡ Done }
    ensures opened { input.now ≡ Restart → result.mark ≡ OpenedWithout }
{
    node.act(input, out)
}
