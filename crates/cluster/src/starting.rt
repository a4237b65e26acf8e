//! The beginning of a cluster.

ghost use Rattle.std.specs.Prelude.{◌≡◌, ◌<◌, ◌≤◌, ◌+◌, ◌/◌, ◌++◌, [], ◌∷◌, ℕ, length, map, slice_get, Some, IfOk, IfErr, vec_len, vec_capacity};
ghost use Rattle.core_step.specs.Standing.{cluster_node};
ghost use Rattle.counted_node.specs.Causes.{node_media};
ghost use Rattle.counted_node.specs.Counted.{counted_node, first_in, node_in};
ghost use Rattle.log_base.specs.Shape.{shape};
ghost use Rattle.node_model.specs.Machine.{node_meanings};
ghost use Rattle.node_model.specs.Sound.{payloads_on};
ghost use Rattle.node_table.specs.Numbering.{nodes_of};
ghost use Rattle.tied_cells.specs.Opening.{AreLeft};
ghost use Rattle.tied_cells.specs.Rule.{deal_of};
ghost use Rattle.cluster.specs.Clusters.{IsBegun, IsPassOf};
ghost use Rattle.cluster.specs.Counting.{AreLeftWithCauses, fresh_state};
ghost use Rattle.cluster.specs.Opening.{AreHandedOut, opening, restarts_from};

use crate::cluster::{Cluster, Pass};
use crate::counts::{count_all, take_nodes};
use core_step::Node;
use cut_chain::Places;
use history_frame::{Input, Kept};
use log_base::{Config, List, Memory, NodeId};
use node_table::{nodes, orderer};
use segment_journal::Journal;
use std::alloc::Global;
use tied_cells::Cells;

/// How many bytes the events of the opening count with.
const OPENING_ROOM: u32 = 10_000;

/// Puts the start of each node into a list.
fn put_restarts(count: u16, asked: &mut Vec<(NodeId, Input)>)
    requires empty { asked.old.items ≡ [] }
    requires room { count + 1 ≤ vec_capacity asked.old }
    ensures asked { asked.new.items ≡ restarts_from 0 count }
    ensures len { vec_len asked.new ≡ count }
    ensures capacity { vec_capacity asked.new ≡ vec_capacity asked.old }
{
    for node in 0..count {
        asked.push_reserved((NodeId(node), Input::Restart));
    }
}

/// The inputs of the opening, each with its node.
fn opening_of(alloc: Global, config: &Config) -> Result<Vec<(NodeId, Input)>, Memory>
    ensures { IfOk result (λ asked. asked.items ≡ opening (shape config.now)) }
{
    let count = nodes(config);
    let mut asked = Vec::with_capacity(alloc, count as usize + 1)?;
    put_restarts(count, &mut asked);
    asked.push_reserved((orderer(config, 0), Input::Lead));
    Ok(asked)
}

/// The memory of a start: the inputs of the opening, and room for the nodes that count.
fn prepare<M>(
    alloc: Global,
    config: &Config,
    count: usize,
) -> Result<(Vec<(NodeId, Input)>, Vec<M>), Memory>
    ensures asked { IfOk result (λ made. made.0.items ≡ opening (shape config.now)) }
    ensures room { IfOk result (λ made. (made.1.items ≡ []) × (count ≤ vec_capacity made.1)) }
{
    let asked = opening_of(alloc, config)?;
    let room = Vec::with_capacity(alloc, count)?;
    Ok((asked, room))
}

impl<J: Journal + Drop, P: Places> Cluster<J, P> {
    /// Begins a run of a cluster, whose nodes are down with what their disks kept. Each node starts, in order, and then
    /// orderer 0 is ordered to lead: these are the first events, and those of the last pass. The letters of
    /// that order are lost. After `Memory` the nodes stand where the events so far left them.
    pub fn start(
        alloc: Global,
        config: Config,
        run: u32,
        kept: Vec<Kept>,
        nodes: Vec<Node<J, P>>,
        passes: u16,
    ) -> Result<(Cluster<J, P>, Vec<Pass<J, P>>), (Memory, Vec<Node<J, P>>)>
        requires run { (1 ≤ run) × (run ≤ 1000000) }
        requires passes { (0 < passes) × (passes ≤ 73) }
        requires begun { IsBegun (shape config) run (payloads_on kept.items) (map (cluster_node J.state) nodes.items) }
        ensures cluster { IfOk result (λ made. (made.0.config ≡ config) × (made.0.run ≡ run) × (made.0.kept ≡ kept.items)) }
        ensures deal { IfOk result (λ made. deal_of (counted_node J.state) made.0.cells.table.shared.key
            ≡ record { starts = map (fresh_state J.state J.faults J.keeps_synced J.turns) nodes.items; passes = passes; quota = 131072 / passes }) }
        ensures begun { IfOk result (λ made. IsBegun (shape config) run (payloads_on kept.items) (map node_in (deal_of (counted_node J.state) made.0.cells.table.shared.key).starts)) }
        ensures told { IfOk result (λ made. map first_in (deal_of (counted_node J.state) made.0.cells.table.shared.key).starts
            ≡ map (node_media J.state J.faults J.keeps_synced J.turns) nodes.items) }
        ensures handed { IfOk result (λ made. AreHandedOut (shape config) (deal_of (counted_node J.state) made.0.cells.table.shared.key) made.0.cells.table.shared.table_id (536870912 / passes) (map (λ p. (p.seat, p.account)) made.1.items)) }
        ensures passes { IfOk result (λ made. (k : ℕ) (pass : _) → slice_get made.1.items k ≡ Some pass → IsPassOf (shape config) run (payloads_on kept.items) made.0.cells.table.shared.table_id k pass.seat) }
        ensures err { IfErr result (λ r. AreLeft (cluster_node J.state) node_meanings (map (cluster_node J.state) nodes.items) (opening (shape config)) r.1.items) }
        ensures causes { IfErr result (λ r. AreLeftWithCauses (shape config) (cluster_node J.state) (node_media J.state J.faults J.keeps_synced J.turns) nodes.items r.1.items) }
    {
        let Ok((asked, mut counted)) = prepare(alloc, &config, nodes.len()) else {
            return Err((Memory, nodes));
        };
        let mut nodes = nodes;
        count_all(&mut nodes, &mut counted);
        match Cells::start(alloc, counted, asked, OPENING_ROOM, passes) {
            Ok((cells, passes)) => {
                let cluster = Cluster {
                    cells,
                    alloc,
                    config,
                    run,
                    kept: List::of(kept),
                };
                return Ok((cluster, passes));
            }
            Err((memory, mut counted)) => {
                take_nodes(&mut counted, &mut nodes);
                return Err((memory, nodes));
            }
        }
    }
}
