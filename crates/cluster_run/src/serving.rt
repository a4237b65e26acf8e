//! Serving items on a cluster by threads.

ghost use Rattle.std.specs.Prelude.{◌≡◌, ◌≢◌, ◌⊎◌, ◌+◌, ◌≤◌, [], ℕ, length, map, slice_get, vec_capacity, IfErr, IfOk, IfSome, None, Ok, Some, false, nat_le, true};
ghost use Rattle.std.specs.List.{AllByRecursion, list_any};
ghost use Rattle.cluster.specs.Clusters.{IsBegun, IsPassOf};
ghost use Rattle.cluster.specs.History.{StandAfter};
ghost use Rattle.command_frame.specs.Items.{IsItem, IsNoFault};
ghost use Rattle.core_step.specs.Known.{known_count};
ghost use Rattle.counted_node.specs.Causes.{HaveCauses, StartsAreClean, node_media};
ghost use Rattle.counted_node.specs.Counted.{counted_node, first_in, node_in};
ghost use Rattle.core_step.specs.Standing.{cluster_node, state_of};
ghost use Rattle.history_frame.specs.Spelling.{DisksRise, IsHistory, IsKept};
ghost use Rattle.log_base.specs.Shape.{shape};
ghost use Rattle.node_model.specs.Sound.{payloads_on};
ghost use Rattle.quiet_run.specs.declared.outcomes.DriveStop.TheVariants.{Limit, Memory as Want};
ghost use Rattle.reply_frame.specs.Replies.{HasSpelling};
ghost use Rattle.tied_cells.specs.Rule.{deal_of};
ghost use Rattle.cluster_run.specs.Ordering.{AreLanes};
ghost use Rattle.cluster_run.specs.Passes.{AreNew};
ghost use Rattle.cluster_run.specs.Runs.{IsClusterRun, IsHalted, IsHaltedWith, lanes_in};

use crate::gathering::gather_all;
use crate::outcomes::{ServeStop, Served};
use crate::preparing::{Prepared, prepare};
use crate::running::run_all;
use cluster::{Cluster, Pass};
use command_frame::Item;
use core_step::Node;
use cut_chain::Places;
use history_frame::{History, Kept};
use log_base::{Config, List, Memory};
use node_threads::Gate;
use quiet_run::{DriveStop, is_one_full};
use reply_frame::Reply;
use segment_journal::Journal;
use std::alloc::Global;
use std::marker::Send;
use std::sync::Wait;
use std::thread::Threads;

/// A stop with the nodes as they stand.
fn stopped<J: Journal + Drop, P: Places>(stop: DriveStop, nodes: Vec<Node<J, P>>) -> ServeStop<J, P>
    ensures { (result.stop ≡ stop) × (result.nodes ≡ Some nodes) }
{
    ServeStop {
        stop,
        nodes: Some(nodes),
    }
}

/// A closed cluster's end: its replies, or why it stopped.
fn end<J: Journal + Drop, P: Places>(
    history: History,
    nodes: Vec<Node<J, P>>,
    replies: Result<Vec<Reply>, Memory>,
) -> Result<Served<J, P>, ServeStop<J, P>>
    ensures served { IfOk result (λ served. (served.history ≡ history) × (served.nodes.items ≡ nodes.items) × IfOk replies (λ list. served.replies ≡ list.items)) }
    ensures come { IfOk result (λ served. IfErr replies (λ memory. ⊥)) }
    ensures few { IfOk result (λ served. list_any (λ node. nat_le 16384 (known_count (state_of J.state node.part))) nodes.items ≡ false) }
    ensures stopped { IfErr result (λ stop. IfSome stop.nodes (λ left. left.items ≡ nodes.items) × (stop.nodes ≢ None)
        × ((stop.stop ≡ Want) ⊎ ((stop.stop ≡ Limit 4) × (list_any (λ node. nat_le 16384 (known_count (state_of J.state node.part))) nodes.items ≡ true)))) }
{
    let Ok(replies) = replies else {
        return Err(stopped(DriveStop::Memory, nodes));
    };
    if is_one_full(&nodes) {
        return Err(stopped(DriveStop::Limit { cause: 4 }, nodes));
    }
    Ok(Served {
        history,
        replies: List::of(replies),
        nodes,
    })
}

/// Runs the lanes and the workers on a cluster that has begun, and closes it.
fn serve_on<R: Threads + Wait + Sync, J: Journal + Drop + Send, P: Places + Send, G: Gate>(
    rt: &R,
    alloc: Global,
    cluster: Cluster<J, P>,
    items: Vec<Item>,
    passes: Vec<Pass<J, P>>,
    prepared: Prepared<Pass<J, P>>,
    workers: u8,
    gate: &G,
) -> Result<Served<J, P>, ServeStop<J, P>>
    requires few { length items.items ≤ 65536 }
    requires items { AllByRecursion (IsItem (shape cluster.config)) items.items }
    requires no_faults { AllByRecursion IsNoFault items.items }
    requires begun { IsBegun (shape cluster.config) cluster.run (payloads_on cluster.kept) (map node_in (deal_of (counted_node J.state) cluster.cells.table.shared.key).starts) }
    requires count { cluster.cells.table.shared.key.passes ≡ prepared.count + workers + 1 }
    requires new { AreNew (shape cluster.config) cluster.run (payloads_on cluster.kept) cluster.cells.table.shared.table_id (prepared.count + workers) (map (λ p. (p.seat, p.account)) passes.items) }
    requires lanes { (prepared.lanes.items ≡ lanes_in items.items) × AreLanes (lanes_in items.items) prepared.count }
    requires empty { (prepared.replies.items ≡ []) × (prepared.room.lanes.items ≡ []) × (prepared.room.others.items ≡ []) × (prepared.room.all.items ≡ []) }
    requires replies { length (lanes_in items.items) ≤ vec_capacity prepared.replies }
    requires passes { (prepared.count ≤ vec_capacity prepared.room.lanes) × (workers + 1 ≤ vec_capacity prepared.room.others) × (prepared.count + workers + 1 ≤ vec_capacity prepared.room.all) }
    ensures given { IfOk result (λ served. (served.history.config ≡ cluster.config) × (served.history.run ≡ cluster.run) × (served.history.kept ≡ cluster.kept)) }
    ensures run { IfOk result (λ served. IsClusterRun (shape cluster.config) cluster.run items.items workers cluster.kept served.history served.replies) }
    ensures stand { IfOk result (λ served. StandAfter (shape cluster.config) (payloads_on cluster.kept) served.history.events (map (cluster_node J.state) served.nodes.items)) }
    ensures spelled { IfOk result (λ served. DisksRise 0 cluster.kept → AllByRecursion IsKept cluster.kept → IsHistory served.history) }
    ensures replies_spelled { IfOk result (λ served. AllByRecursion HasSpelling served.replies) }
    ensures opened { IfOk result (λ served. StartsAreClean (shape cluster.config) served.history.events (map first_in (deal_of (counted_node J.state) cluster.cells.table.shared.key).starts) (map (node_media J.state J.faults J.keeps_synced J.turns) served.nodes.items)) }
    ensures causes { IfOk result (λ served. HaveCauses (shape cluster.config) served.history.events (map first_in (deal_of (counted_node J.state) cluster.cells.table.shared.key).starts) (map (node_media J.state J.faults J.keeps_synced J.turns) served.nodes.items)) }
    ensures stop_causes { IfErr result (λ stop. IfSome stop.nodes (λ left. IsHaltedWith (shape cluster.config) cluster.run (payloads_on cluster.kept) (map (cluster_node J.state) left.items)
        (map first_in (deal_of (counted_node J.state) cluster.cells.table.shared.key).starts) (map (node_media J.state J.faults J.keeps_synced J.turns) left.items) stop.stop)) }
    ensures gone { IfErr result (λ stop. stop.nodes ≡ None → stop.stop ≡ Want) }
{
    let Prepared {
        lanes,
        count,
        room,
        replies,
    } = prepared;
    let (cluster, passes, answers) = run_all(
        rt, alloc, cluster, items, passes, room, count, workers, gate,
    );
    let replies = gather_all(alloc, &lanes, answers, replies);
    match cluster.close(passes) {
        Ok((history, nodes)) => return end(history, nodes, replies),
        Err(_refused) => {
            return Err(ServeStop {
                stop: DriveStop::Memory,
                nodes: None,
            });
        }
    }
}

/// Serves items on a cluster by threads: a lane for each client from 0 to the greatest that an item names, and so many
/// workers. It may wait. The history has the events of the opening first.
///
/// After a stop the nodes stand where the events so far left them, and what was kept is dropped.
pub fn serve<R: Threads + Wait + Sync, J: Journal + Drop + Send, P: Places + Send, G: Gate>(
    rt: &R,
    alloc: Global,
    config: Config,
    run: u32,
    items: Vec<Item>,
    workers: u8,
    kept: Vec<Kept>,
    nodes: Vec<Node<J, P>>,
    gate: &G,
) -> Result<Served<J, P>, ServeStop<J, P>>
    requires run { (1 ≤ run) × (run ≤ 1000000) }
    requires workers { (1 ≤ workers) × (workers ≤ 8) }
    requires few { length items.items ≤ 65536 }
    requires items { AllByRecursion (IsItem (shape config)) items.items }
    requires no_faults { AllByRecursion IsNoFault items.items }
    requires begun { IsBegun (shape config) run (payloads_on kept.items) (map (cluster_node J.state) nodes.items) }
    ensures given { IfOk result (λ served. (served.history.config ≡ config) × (served.history.run ≡ run) × (served.history.kept ≡ kept.items)) }
    ensures run { IfOk result (λ served. IsClusterRun (shape config) run items.items workers kept.items served.history served.replies) }
    ensures stand { IfOk result (λ served. StandAfter (shape config) (payloads_on kept.items) served.history.events (map (cluster_node J.state) served.nodes.items)) }
    ensures spelled { IfOk result (λ served. DisksRise 0 kept.items → AllByRecursion IsKept kept.items → IsHistory served.history) }
    ensures replies_spelled { IfOk result (λ served. AllByRecursion HasSpelling served.replies) }
    ensures opened { IfOk result (λ served. StartsAreClean (shape config) served.history.events (map (node_media J.state J.faults J.keeps_synced J.turns) nodes.items) (map (node_media J.state J.faults J.keeps_synced J.turns) served.nodes.items)) }
    ensures causes { IfOk result (λ served. HaveCauses (shape config) served.history.events (map (node_media J.state J.faults J.keeps_synced J.turns) nodes.items) (map (node_media J.state J.faults J.keeps_synced J.turns) served.nodes.items)) }
    ensures stop { IfErr result (λ stop. IfSome stop.nodes (λ left. IsHalted (shape config) run (payloads_on kept.items) (map (cluster_node J.state) left.items) stop.stop)) }
    ensures stop_causes { IfErr result (λ stop. IfSome stop.nodes (λ left. IsHaltedWith (shape config) run (payloads_on kept.items) (map (cluster_node J.state) left.items)
        (map (node_media J.state J.faults J.keeps_synced J.turns) nodes.items) (map (node_media J.state J.faults J.keeps_synced J.turns) left.items) stop.stop)) }
    ensures gone { IfErr result (λ stop. stop.nodes ≡ None → stop.stop ≡ Want) }
{
    let Ok(prepared) = prepare(alloc, &items, workers) else {
        return Err(stopped(DriveStop::Memory, nodes));
    };
    let count = u16::from(prepared.count) + u16::from(workers) + 1;
    match Cluster::start(alloc, config, run, kept, nodes, count) {
        Ok((cluster, passes)) => {
            return serve_on(rt, alloc, cluster, items, passes, prepared, workers, gate);
        }
        Err((_memory, nodes)) => {
            return Err(stopped(DriveStop::Memory, nodes));
        }
    }
}
