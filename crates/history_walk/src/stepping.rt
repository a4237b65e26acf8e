//! One event of one node, which turns out as a mark says.

ghost use Rattle.std.specs.Prelude.{◌≡◌, ◌<◌, ℕ, List, map, Some, IfOk, OnOk};
ghost use Rattle.history_frame.specs.declared.events.Event.{Event};
ghost use Rattle.history_frame.specs.declared.inputs.Mark.{Mark};
ghost use Rattle.history_frame.specs.Effects.{happened};
ghost use Rattle.log_base.specs.ClusterShape.{InRange};
ghost use Rattle.node_model.specs.Fits.{Fits};
ghost use Rattle.node_model.specs.Machine.{posted};
ghost use Rattle.log_base.specs.Shape.{shape};
ghost use Rattle.node_model.specs.NodeState.{IsRow, KeptLists, NodeOutcome, node_outcome, state_after};
ghost use Rattle.node_table.specs.Numbering.{nodes_of, role_at};
ghost use Rattle.history_walk.specs.Beginning.{state_in};
ghost use Rattle.history_walk.specs.Planning.{IsFlown, mark_plan};
ghost use Rattle.history_walk.specs.Stepped.{HasStepped, MayStep};

use crate::beginning::MemoryNode;
use disk_base::Plan;
use history_frame::{Effect, Input, Mark};
use log_base::{Config, Machine, Memory, NodeId, Outbox};

/// What a node does with an input, where its disks turn out as the mark says. Where no row of the rules has that
/// mark, another one comes.
pub(crate) fn step(
    node: &mut MemoryNode,
    input: &Input,
    mark: Mark,
    out: &mut Outbox,
) -> Result<Effect, Memory>
    requires in_range { InRange node.old.config }
    requires number { node.old.number < nodes_of node.old.config }
    requires flown { IsFlown node.old.config (state_in node.old) }
    requires fits { Fits node.old.config (role_at node.old.config node.old.number) (state_in node.old) input.now }
    ensures config { OnOk result (node.new.config ≡ node.old.config) }
    ensures number { OnOk result (node.new.number ≡ node.old.number) }
    ensures row { IfOk result (λ effect. IsRow node.old.config node.old.number (state_in node.old) (happened input.now effect)) }
    ensures state { IfOk result (λ effect. state_in node.new ≡ state_after node.old.config node.old.number (state_in node.old) (happened input.now effect)) }
    ensures letters { IfOk result (λ effect. out.new.letters ≡ map posted effect.outputs) }
    ensures mark { IfOk result (λ effect. (other : NodeOutcome) → node_outcome node.old.config node.old.number (state_in node.old) input.now mark ≡ Some other → effect.mark ≡ mark) }
{
    out.clear();
    node.plan(plan_of(mark));
    node.tell();
    node.ready(input, out)?;
    Ok(node.act(input, out))
}

/// What one of the nodes does with an input.
pub(crate) fn step_at(
    config: &Config,
    nodes: &mut Vec<MemoryNode>,
    node: NodeId,
    input: &Input,
    mark: Mark,
    out: &mut Outbox,
) -> Result<Effect, Memory>
    requires node { node.0 < nodes_of (shape config.now) }
    requires stand { (run : ℕ) × (kept : KeptLists) × (events : List Event) × MayStep (shape config.now) run kept events nodes.old.items node.0 input.now }
    ensures { IfOk result (λ effect. (run : ℕ) (kept : KeptLists) (events : List Event) → MayStep (shape config.now) run kept events nodes.old.items node.0 input.now
        → HasStepped (shape config.now) kept events node.0 input.now mark (happened input.now effect) out.new.letters nodes.new.items) }
{
    let _ = config;
    let effect = step(&mut nodes[usize::from(node.0)], input, mark, out)?;
    Ok(effect)
}

// The plan by which disks turn out as a mark says.
fn plan_of(mark: Mark) -> Plan
    ensures { result ≡ mark_plan mark }
{
    match mark {
        Mark::Done | Mark::OpenedWithout => Plan {
            after: 1,
            keep: 0,
            lose: false,
        },
        Mark::Halted => Plan {
            after: 0,
            keep: 0,
            lose: false,
        },
        Mark::OpenedWith => Plan {
            after: 1,
            keep: 1,
            lose: false,
        },
        Mark::StayedDown => Plan {
            after: 1,
            keep: 0,
            lose: true,
        },
    }
}
