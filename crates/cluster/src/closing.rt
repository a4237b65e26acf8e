//! The end of a cluster.

ghost use Rattle.std.specs.Prelude.{◌≡◌, ◌<◌, ◌≤◌, [], ℕ, length, map, slice_get, Some, IfOk, IfErr, vec_capacity};
ghost use Rattle.std.specs.List.{AllByRecursion};
ghost use Rattle.core_step.specs.Standing.{cluster_node};
ghost use Rattle.counted_node.specs.Causes.{BeginWithStarts, HaveCauses, StartsAreClean, node_media};
ghost use Rattle.counted_node.specs.Counted.{counted_meanings, counted_node, first_in, node_in};
ghost use Rattle.history_frame.specs.Merging.{IsComplete, IsMerged, events_from};
ghost use Rattle.history_frame.specs.Spelling.{DisksRise, IsHistory, IsKept};
ghost use Rattle.log_base.specs.Shape.{shape};
ghost use Rattle.node_model.specs.Durable.{IsFounded};
ghost use Rattle.node_model.specs.Sound.{payloads_on};
ghost use Rattle.sequence_law.specs.Safe.{IsSafe};
ghost use Rattle.tied_cells.specs.Rule.{deal_of};
ghost use Rattle.tied_cells.specs.Sizes.{sizes_of};
ghost use Rattle.cluster.specs.Clusters.{IsBegun, IsPassOf};
ghost use Rattle.cluster.specs.History.{IsClosed};

use crate::cluster::{Cluster, Pass};
use crate::counts::take_nodes;
use core_step::{Node, founded_histories_are_safe};
use cut_chain::Places;
use history_frame::{Event, Happened, History, Kept, merge};
use log_base::{Committed, Config, List, Memory};
use node_table::nodes;
use segment_journal::Journal;
use tied_cells::Closed;

/// The most events that a cluster may have.
const EVENTS: usize = 131_072;

/// A history of the events of all nodes, which are put in order of place.
fn history_of(
    config: Config,
    run: u32,
    kept: List<Kept>,
    lists: List<List<Committed<Happened>>>,
    room: Vec<Event>,
) -> History
    requires few { length lists ≤ 43 }
    requires complete { IsComplete lists }
    requires empty { room.items ≡ [] }
    requires room { length (events_from 0 lists) ≤ vec_capacity room }
    ensures head { (result.config ≡ config) × (result.run ≡ run) × (result.kept ≡ kept) }
    ensures events { IsMerged lists result.events }
{
    let mut events = room;
    merge(lists, &mut events);
    History {
        config,
        run,
        kept,
        events: List::of(events),
    }
}

impl<J: Journal + Drop, P: Places> Cluster<J, P> {
    /// Closes a cluster to which all its passes are handed back. The history of its run is legal: each place
    /// stands there once, and no two passes submitted one pair. So it is safe, where what the disks kept before is
    /// empty or was left by such a run. All memory is made before anything is closed.
    pub fn close(
        self,
        passes: Vec<Pass<J, P>>,
    ) -> Result<(History, Vec<Node<J, P>>), (Memory, Cluster<J, P>, Vec<Pass<J, P>>)>
        requires begun { IsBegun (shape self.config) self.run (payloads_on self.kept) (map node_in (deal_of (counted_node J.state) self.cells.table.shared.key).starts) }
        requires all { (number : ℕ) → number < self.cells.table.shared.key.passes → (k : ℕ) × (pass : _) × (slice_get passes.items k ≡ Some pass) × (pass.account.number ≡ number) }
        requires passes { (k : ℕ) (pass : _) → slice_get passes.items k ≡ Some pass → IsPassOf (shape self.config) self.run (payloads_on self.kept) self.cells.table.shared.table_id pass.account.number pass.seat }
        ensures closed { IfOk result (λ left. IsClosed (shape self.config) self.run self.kept (map (λ p. (p.seat, p.account)) passes.items) (map (cluster_node J.state) left.1.items) left.0) }
        ensures safe { IfOk result (λ left. IsFounded (shape self.config) self.run (payloads_on self.kept) → IsSafe (shape self.config) (payloads_on self.kept) left.0.events) }
        ensures spelled { IfOk result (λ left. DisksRise 0 self.kept → AllByRecursion IsKept self.kept → IsHistory left.0) }
        ensures causes { IfOk result (λ left. HaveCauses (shape self.config) left.0.events (map first_in (deal_of (counted_node J.state) self.cells.table.shared.key).starts)
            (map (node_media J.state J.faults J.keeps_synced J.turns) left.1.items)) }
        ensures opened { IfOk result (λ left. BeginWithStarts (shape self.config) left.0.events → StartsAreClean (shape self.config) left.0.events
            (map first_in (deal_of (counted_node J.state) self.cells.table.shared.key).starts) (map (node_media J.state J.faults J.keeps_synced J.turns) left.1.items)) }
        ensures counted { (k : ℕ) (pass : _) → slice_get passes.items k ≡ Some pass → (length pass.seat.me.0.own ≡ pass.account.used) × (sizes_of counted_meanings pass.seat.me.0.own ≤ pass.account.bytes) }
        ensures err { IfErr result (λ r. (r.1.cells ≡ self.cells) × (r.1.config ≡ self.config) × (r.1.run ≡ self.run) × (r.1.kept ≡ self.kept) × (r.2.items ≡ passes.items)) }
    {
        founded_histories_are_safe();
        let Ok(room) = Vec::with_capacity(self.alloc, EVENTS) else {
            return Err((Memory, self, passes));
        };
        let Ok(back) = Vec::with_capacity(self.alloc, nodes(&self.config) as usize) else {
            return Err((Memory, self, passes));
        };
        let Cluster {
            cells,
            alloc,
            config,
            run,
            kept,
        } = self;
        match cells.close(passes) {
            Ok(closed) => {
                let Closed {
                    mut machines,
                    events,
                } = closed;
                let mut back = back;
                take_nodes(&mut machines, &mut back);
                return Ok((history_of(config, run, kept, events, room), back));
            }
            Err((memory, cells, passes)) => {
                let cluster = Cluster {
                    cells,
                    alloc,
                    config,
                    run,
                    kept,
                };
                return Err((memory, cluster, passes));
            }
        }
    }
}
