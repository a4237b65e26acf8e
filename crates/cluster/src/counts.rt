//! Nodes that count, out of nodes, and the nodes out of them.

ghost use Rattle.std.specs.Prelude.{◌≡◌, ◌≤◌, [], map, vec_len, vec_capacity};
ghost use Rattle.std.specs.List.{AllByRecursion};
ghost use Rattle.cluster.specs.Counting.{HasCounted, fresh_node};

use core_step::Node;
use counted_node::CountedNode;
use cut_chain::Places;
use segment_journal::Journal;

/// Puts each node into one that counts, in order. It goes from the last to the first, so that each is moved once.
pub(crate) fn count_all<J: Journal + Drop, P: Places>(
    nodes: &mut Vec<Node<J, P>>,
    counted: &mut Vec<CountedNode<J, P>>,
)
    requires empty { counted.old.items ≡ [] }
    requires room { vec_len nodes.old ≤ vec_capacity counted.old }
    ensures counted { counted.new.items ≡ map (fresh_node J.state J.faults J.keeps_synced J.turns) nodes.old.items }
    ensures nodes { (nodes.new.items ≡ []) × (vec_capacity nodes.new ≡ vec_capacity nodes.old) }
    ensures capacity { vec_capacity counted.new ≡ vec_capacity counted.old }
    ensures len { vec_len counted.new ≡ vec_len nodes.old }
{
    if let Some(node) = nodes.pop() {
        count_all(nodes, counted);
        counted.push_reserved(CountedNode::new(node));
    }
}

/// Takes the nodes out again, in order.
pub(crate) fn take_nodes<J: Journal + Drop, P: Places>(
    counted: &mut Vec<CountedNode<J, P>>,
    nodes: &mut Vec<Node<J, P>>,
)
    requires empty { nodes.old.items ≡ [] }
    requires room { vec_len counted.old ≤ vec_capacity nodes.old }
    ensures nodes { nodes.new.items ≡ map (λ c. c.node) counted.old.items }
    ensures told { AllByRecursion (HasCounted J.state J.faults J.keeps_synced J.turns) counted.old.items }
    ensures capacity { vec_capacity nodes.new ≡ vec_capacity nodes.old }
    ensures len { vec_len nodes.new ≡ vec_len counted.old }
{
    if let Some(one) = counted.pop() {
        take_nodes(counted, nodes);
        nodes.push_reserved(one.into_node());
    }
}
