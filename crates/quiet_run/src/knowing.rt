//! Which node knows the most.

ghost use Rattle.std.specs.Prelude.{◌≡◌, ◌<◌, ◌≤◌, ℕ, length, map, slice_index};
ghost use Rattle.core_step.specs.Known.{known_count};
ghost use Rattle.core_step.specs.Standing.{state_of};

use core_step::Node;
use cut_chain::Places;
use segment_journal::Journal;

/// The lowest of the nodes that know the most values.
pub fn first_to_know_most<J: Journal, P: Places>(nodes: &[Node<J, P>]) -> usize
    requires { 0 < length nodes.now }
    ensures within { result < length nodes.now }
    ensures most { (k : ℕ) → k < length nodes.now
        → slice_index (map (λ node. known_count (state_of J.state node.part)) nodes.now) k
        ≤ slice_index (map (λ node. known_count (state_of J.state node.part)) nodes.now) result }
    ensures first { (k : ℕ) → k < result
        → slice_index (map (λ node. known_count (state_of J.state node.part)) nodes.now) k
        < slice_index (map (λ node. known_count (state_of J.state node.part)) nodes.now) result }
{
    let mut most = 0;
    for i in 1..nodes.len() {
        if known_at(nodes, i) > known_at(nodes, most) {
            most = i;
        }
    }
    most
}

/// How many values the node of this number knows.
fn known_at<J: Journal, P: Places>(nodes: &[Node<J, P>], number: usize) -> u32
    requires { number < length nodes.now }
    ensures { result ≡ slice_index (map (λ node. known_count (state_of J.state node.part)) nodes.now) number }
{
    nodes[number].known()
}
