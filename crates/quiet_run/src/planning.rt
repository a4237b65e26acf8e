//! Handing plans of failures to disks.

ghost use Rattle.std.specs.Prelude.{◌≡◌, ◌<◌, length, map};
ghost use Rattle.std.specs.List.{AllByRecursion};
ghost use Rattle.core_step.specs.Standing.{cluster_node};
ghost use Rattle.counted_node.specs.Causes.{node_media};
ghost use Rattle.quiet_run.specs.Planning.{AreHandedOver, IsHandedTo};

use core_step::Node;
use cut_chain::Places;
use disk_base::Plan;
use schedule_model::Planned;
use segment_journal::Journal;

/// Hands plans to the nodes that they are for, one after another. The nodes stay as they are.
pub fn hand_over<J: Journal, P: Places>(nodes: &mut [Node<J, P>], plans: &[Planned])
    requires { AllByRecursion (λ planned. planned.node.0 < length nodes.old) plans.now }
    ensures same { map (cluster_node J.state) nodes.new ≡ map (cluster_node J.state) nodes.old }
    ensures told { AreHandedOver plans.now (map (cluster_node J.state) nodes.old)
        (map (node_media J.state J.faults J.keeps_synced J.turns) nodes.old) (map (node_media J.state J.faults J.keeps_synced J.turns) nodes.new) }
{
    for at in 0..plans.len() {
        hand_to(nodes, usize::from(plans[at].node.0), plans[at].plan);
    }
}

/// Hands a plan to each disk of the node of this number.
fn hand_to<J: Journal, P: Places>(nodes: &mut [Node<J, P>], number: usize, plan: Plan)
    requires { number < length nodes.old }
    ensures same { map (cluster_node J.state) nodes.new ≡ map (cluster_node J.state) nodes.old }
    ensures told { IsHandedTo number plan (map (cluster_node J.state) nodes.old)
        (map (node_media J.state J.faults J.keeps_synced J.turns) nodes.old) (map (node_media J.state J.faults J.keeps_synced J.turns) nodes.new) }
{
    nodes[number].plan(plan);
}
