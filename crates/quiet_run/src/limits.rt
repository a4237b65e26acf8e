//! The limits of a run.

ghost use Rattle.std.specs.Prelude.{◌≡◌, nat_le};
ghost use Rattle.std.specs.List.{list_any};
ghost use Rattle.core_step.specs.Known.{known_count};
ghost use Rattle.core_step.specs.Standing.{state_of};
ghost use Rattle.quiet_run.specs.Limits.{limit_of};

use core_step::Node;
use cut_chain::Places;
use segment_journal::Journal;

/// How many events a run may have.
const EVENT_LIMIT: usize = 131_072;

/// A node may know fewer values than these.
const VALUE_LIMIT: u32 = 16_384;

/// How many bytes the frames of the events may have.
const BYTE_LIMIT: u32 = 536_870_912;

/// The limit that a run is at, if it is at one. `due` says whether one event more comes, and `full` whether a node
/// knows as many values as there may be.
pub fn limit_at(due: bool, events: usize, full: bool, bytes: u32) -> Option<u8>
    ensures { result ≡ limit_of due events full bytes }
{
    if due && events >= EVENT_LIMIT {
        return Some(3);
    }
    if full {
        return Some(4);
    }
    if bytes > BYTE_LIMIT {
        return Some(5);
    }
    None
}

/// Whether a node of these knows as many values as there may be.
pub fn is_one_full<J: Journal, P: Places>(nodes: &[Node<J, P>]) -> bool
    ensures { result ≡ list_any (λ node. nat_le 16384 (known_count (state_of J.state node.part))) nodes.now }
{
    for node in nodes {
        if is_full(node) {
            return true;
        }
    }
    false
}

/// Whether this node does.
fn is_full<J: Journal, P: Places>(node: &Node<J, P>) -> bool
    ensures { result ≡ nat_le 16384 (known_count (state_of J.state node.now.part)) }
{
    node.known() >= VALUE_LIMIT
}
