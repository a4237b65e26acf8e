//! What a part tells of itself.

ghost use Rattle.std.specs.Prelude.{◌≡◌};
ghost use Rattle.node_model.specs.NodeState.{Storing};
ghost use Rattle.storage_node.specs.StorageState.{node_of};
ghost use Rattle.core_step.specs.Known.{is_down as is_down_in, known_chain, known_count};
ghost use Rattle.core_step.specs.Standing.{cluster_of, state_of};

use super::Part;
use cut_chain::Places;
use log_base::Position;
use segment_journal::Journal;
use storage_node::StorageNode;

impl<J: Journal, P: Places> Part<J, P> {
    /// Whether it is down.
    pub(crate) fn is_down(&self) -> bool
        ensures { result ≡ is_down_in (state_of J.state self.now) }
    {
        match self {
            Part::Storage(node) => replica_is_down(node),
            Part::Gatherer(node) => node.is_down(),
            Part::Orderer(node) => node.is_down(),
        }
    }

    /// How many values it knows.
    pub(crate) fn known(&self) -> u32
        ensures { result ≡ known_count (state_of J.state self.now) }
    {
        match self {
            Part::Storage(node) => node.known(),
            Part::Gatherer(_) => 0,
            Part::Orderer(node) => node.known(),
        }
    }

    /// The end of the log by its known values.
    pub(crate) fn end(&self) -> Position
        ensures { result.0 ≡ (known_chain (cluster_of self.now) (state_of J.state self.now)).end }
    {
        match self {
            Part::Storage(node) => node.end(),
            Part::Gatherer(_) => Position(0),
            Part::Orderer(node) => node.end(),
        }
    }

    /// The mark below which positions are given up, by its known values.
    pub(crate) fn trim(&self) -> Position
        ensures { result.0 ≡ (known_chain (cluster_of self.now) (state_of J.state self.now)).mark }
    {
        match self {
            Part::Storage(node) => node.trim(),
            Part::Gatherer(_) => Position(0),
            Part::Orderer(node) => node.trim(),
        }
    }
}

// Whether a replica is down.
fn replica_is_down<J: Journal, P: Places>(node: &StorageNode<J, P>) -> bool
    ensures { result ≡ is_down_in (Storing (node_of node.now)) }
{
    node.is_down()
}
