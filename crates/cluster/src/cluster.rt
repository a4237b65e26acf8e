//! The cluster.

ghost use Rattle.std.specs.Prelude.{◌≡◌, ◌≤◌};
ghost use Rattle.log_base.specs.Shape.{shape};
ghost use Rattle.node_table.specs.Numbering.{nodes_of};
ghost use Rattle.cluster.specs.Counting.{NoneCounted};

use counted_node::CountedNode;
use cut_chain::Places;
use history_frame::Kept;
use log_base::{Config, List};
use segment_journal::Journal;
use std::alloc::Global;
use tied_cells::Cells;

/// A caller's token of a cluster.
pub type Pass<J, P> = tied_cells::Pass<CountedNode<J, P>>;

/// The nodes of a cluster, which threads share by a `&`, and what their run began with.
#[derive(Drop)]
pub struct Cluster<J: Journal + Drop, P: Places> {
    pub(crate) cells: Cells<CountedNode<J, P>>,
    pub(crate) alloc: Global,
    pub(crate) config: Config,
    pub(crate) run: u32,
    pub(crate) kept: List<Kept>,
    ghost none_counted: { NoneCounted cells.table.shared.key.starts.value.items },
    ghost sized: { cells.nodes ≡ nodes_of (shape config) },
    ghost numbered: { (1 ≤ run) × (run ≤ 1000000) },
}
