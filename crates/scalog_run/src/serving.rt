//! Serving items by threads over the disks of a cluster, which a rack lends and takes back.

ghost use Rattle.std.specs.Prelude.{◌≡◌, ◌≤◌, length, false, None, IfOk, IfErr, Ok, Err};
ghost use Rattle.std.specs.List.{AllByRecursion};
ghost use Rattle.command_frame.specs.Items.{IsItem, IsNoFault};
ghost use Rattle.log_base.specs.Outside.{Rose};
ghost use Rattle.log_base.specs.Shape.{shape};
ghost use Rattle.reply_frame.specs.Replies.{HasSpelling};
ghost use Rattle.cluster_disks.specs.Lent.{IsDisk, StaysBut, disks, lain};
ghost use Rattle.cluster_run.specs.Runs.{lanes_in};
ghost use Rattle.item_input.specs.Plain.{IsReadPlain, RefusesPlain};
ghost use Rattle.scalog_run.specs.Complete.{ServesAll};
ghost use Rattle.scalog_run.specs.Output.{sinking};
ghost use Rattle.scalog_run.specs.Run.{world};
ghost use Rattle.scalog_run.specs.RunCluster.{ClusterComesTo, RanCluster};
ghost use Rattle.scalog_run.specs.Served.{IsNotServed, IsServedOutput, IsServedRun};

use crate::fault::RunFault;
use crate::sending::{send_bytes, send_fault};
use crate::status;
use crate::writing::write_output;
use cluster_disks::{Opened, close_nodes, open_cluster};
use cluster_run::{ServeStop, lanes_of, serve};
use command_frame::{Item, ItemFault, Reply};
use command_words::Options;
use disk_base::Rack;
use history_frame::History;
use item_input::read_plain_items;
use log_base::{Config, List, Sink, Source};
use node_threads::Gate;
use std::alloc::Global;
use std::sync::Wait;
use std::thread::Threads;

/// Serves the items of a source by threads over the disks of a rack, and sends the replies and the history to a
/// sink, or the frame of a fault. There is a thread for each lane from 0 to the greatest that an item names, and for
/// each worker. A line of the fault script is no item. All items are read before a disk is lent, and the disks are
/// handed back before anything is sent, unless memory runs out while the cluster is closed: then they are dropped
/// as they stand.
pub fn run_cluster<R: Threads + Wait + Sync, S: Source, K: Sink, Q: Rack, G: Gate>(
    rt: &R,
    alloc: Global,
    options: &Options,
    source: &mut S,
    sink: &mut K,
    rack: &mut Q,
    gate: &G,
) -> u8
where
    Q::D: Drop,
    requires run { (1 ≤ options.now.run) × (options.now.run ≤ 1000000) }
    requires workers { (1 ≤ options.now.workers) × (options.now.workers ≤ 8) }
    requires folder { options.now.folder ≡ None }
    requires full { options.now.brief ≡ false }
    ensures cluster { RanCluster (disks Q.D.reads Q.D.may_leave Q.D.keeps_synced Q.D.faults) (shape options.now.config) options.now.run options.now.workers
        (world (S.left source.old) (S.faults source.old) (lain Q.disk_at Q.disk_faults Q.faults rack.old))
        (world (S.left source.new) (S.faults source.new) (lain Q.disk_at Q.disk_faults Q.faults rack.new))
        (sinking (K.taken sink.old) (K.faults sink.old)) (sinking (K.taken sink.new) (K.faults sink.new)) result }
    ensures complete { ServesAll (disks Q.D.reads Q.D.may_leave Q.D.keeps_synced Q.D.faults) (shape options.now.config) options.now.run options.now.workers
        (world (S.left source.old) (S.faults source.old) (lain Q.disk_at Q.disk_faults Q.faults rack.old))
        (world (S.left source.new) (S.faults source.new) (lain Q.disk_at Q.disk_faults Q.faults rack.new))
        (sinking (K.taken sink.old) (K.faults sink.old)) (sinking (K.taken sink.new) (K.faults sink.new)) result }
    ensures others { StaysBut Q.lent_under Q.disk_faults Q.disk_at (IsDisk (shape options.now.config)) rack.old rack.new }
{
    match cluster_over(rt, alloc, options, source, rack, gate) {
        Ok(output) => send_bytes(sink, &output, status::DONE),
        Err(fault) => send_fault(sink, fault),
    }
}

/// What a run of a cluster comes to, before anything is sent: its output, or why it has none.
fn cluster_over<R: Threads + Wait + Sync, S: Source, Q: Rack, G: Gate>(
    rt: &R,
    alloc: Global,
    options: &Options,
    source: &mut S,
    rack: &mut Q,
    gate: &G,
) -> Result<Vec<u8>, RunFault>
where
    Q::D: Drop,
    requires run { (1 ≤ options.now.run) × (options.now.run ≤ 1000000) }
    requires workers { (1 ≤ options.now.workers) × (options.now.workers ≤ 8) }
    ensures output { IfOk result (λ output. ClusterComesTo (disks Q.D.reads Q.D.may_leave Q.D.keeps_synced Q.D.faults) (shape options.now.config) options.now.run options.now.workers
        (world (S.left source.old) (S.faults source.old) (lain Q.disk_at Q.disk_faults Q.faults rack.old))
        (world (S.left source.new) (S.faults source.new) (lain Q.disk_at Q.disk_faults Q.faults rack.new)) (Ok output.items)) }
    ensures fault { IfErr result (λ fault. ClusterComesTo (disks Q.D.reads Q.D.may_leave Q.D.keeps_synced Q.D.faults) (shape options.now.config) options.now.run options.now.workers
        (world (S.left source.old) (S.faults source.old) (lain Q.disk_at Q.disk_faults Q.faults rack.old))
        (world (S.left source.new) (S.faults source.new) (lain Q.disk_at Q.disk_faults Q.faults rack.new)) (Err fault)) }
    ensures others { StaysBut Q.lent_under Q.disk_faults Q.disk_at (IsDisk (shape options.now.config)) rack.old rack.new }
{
    let Input { items, lanes } = read_input(alloc, options.config, source)?;
    serve_items(rt, alloc, options, items, &lanes, rack, gate)
}

/// The items of an input, and their lanes.
#[derive(Drop)]
struct Input {
    items: Vec<Item>,
    lanes: Vec<u8>,
}

/// Reads all items of a source, none of which is a line of the fault script.
fn read_input<S: Source>(alloc: Global, config: Config, source: &mut S) -> Result<Input, ItemFault>
    ensures read { IfOk result (λ input. IsReadPlain (shape config) (S.left source.old) (S.left source.new) input.items.items) }
    ensures lanes { IfOk result (λ input. input.lanes.items ≡ lanes_in input.items.items) }
    ensures few { IfOk result (λ input. length input.items.items ≤ 65536) }
    ensures refused { IfErr result
        (RefusesPlain (shape config) (S.left source.old) (S.left source.new) (Rose (S.faults source.old) (S.faults source.new))) }
{
    let items = read_plain_items(alloc, config, source)?;
    match lanes_of(alloc, &items) {
        Ok(lanes) => return Ok(Input { items, lanes }),
        Err(_) => return Err(ItemFault::Memory),
    }
}

/// Serves items, whose lanes these are, and gives the output.
fn serve_items<R: Threads + Wait + Sync, Q: Rack, G: Gate>(
    rt: &R,
    alloc: Global,
    options: &Options,
    items: Vec<Item>,
    lanes: &[u8],
    rack: &mut Q,
    gate: &G,
) -> Result<Vec<u8>, RunFault>
where
    Q::D: Drop,
    requires run { (1 ≤ options.now.run) × (options.now.run ≤ 1000000) }
    requires workers { (1 ≤ options.now.workers) × (options.now.workers ≤ 8) }
    requires few { length items.items ≤ 65536 }
    requires items { AllByRecursion (IsItem (shape options.now.config)) items.items }
    requires no_faults { AllByRecursion IsNoFault items.items }
    requires lanes { lanes.now ≡ lanes_in items.items }
    ensures output { IfOk result (λ output. IsServedOutput (disks Q.D.reads Q.D.may_leave Q.D.keeps_synced Q.D.faults) (shape options.now.config) options.now.run
        items.items options.now.workers output.items
        (lain Q.disk_at Q.disk_faults Q.faults rack.old) (lain Q.disk_at Q.disk_faults Q.faults rack.new)) }
    ensures fault { IfErr result (λ fault. IsNotServed (disks Q.D.reads Q.D.may_leave Q.D.keeps_synced Q.D.faults) (shape options.now.config) options.now.run fault
        (lain Q.disk_at Q.disk_faults Q.faults rack.old) (lain Q.disk_at Q.disk_faults Q.faults rack.new)) }
    ensures others { StaysBut Q.lent_under Q.disk_faults Q.disk_at (IsDisk (shape options.now.config)) rack.old rack.new }
{
    let Answered { history, replies } = serve_over(rt, alloc, options, items, rack, gate)?;
    match write_output(alloc, lanes, replies.get(), &history) {
        Ok(output) => return Ok(output),
        Err(_) => return Err(RunFault::Memory),
    }
}

/// The history of a cluster that served all items, and a reply to each.
#[derive(Drop)]
struct Answered {
    history: History,
    replies: List<Reply>,
}

/// Serves items on a cluster over the disks that the rack lends.
fn serve_over<R: Threads + Wait + Sync, Q: Rack, G: Gate>(
    rt: &R,
    alloc: Global,
    options: &Options,
    items: Vec<Item>,
    rack: &mut Q,
    gate: &G,
) -> Result<Answered, RunFault>
where
    Q::D: Drop,
    requires run { (1 ≤ options.now.run) × (options.now.run ≤ 1000000) }
    requires workers { (1 ≤ options.now.workers) × (options.now.workers ≤ 8) }
    requires few { length items.items ≤ 65536 }
    requires items { AllByRecursion (IsItem (shape options.now.config)) items.items }
    requires no_faults { AllByRecursion IsNoFault items.items }
    ensures served { IfOk result (λ answered. IsServedRun (disks Q.D.reads Q.D.may_leave Q.D.keeps_synced Q.D.faults) (shape options.now.config) options.now.run
        items.items options.now.workers answered.history answered.replies
        (lain Q.disk_at Q.disk_faults Q.faults rack.old) (lain Q.disk_at Q.disk_faults Q.faults rack.new)) }
    ensures spelled { IfOk result (λ answered. AllByRecursion HasSpelling answered.replies) }
    ensures fault { IfErr result (λ fault. IsNotServed (disks Q.D.reads Q.D.may_leave Q.D.keeps_synced Q.D.faults) (shape options.now.config) options.now.run fault
        (lain Q.disk_at Q.disk_faults Q.faults rack.old) (lain Q.disk_at Q.disk_faults Q.faults rack.new)) }
    ensures others { StaysBut Q.lent_under Q.disk_faults Q.disk_at (IsDisk (shape options.now.config)) rack.old rack.new }
{
    let config = options.config;
    let Opened { nodes, kept } = open_cluster(alloc, config, options.run, rack)?;
    let ServeStop { stop, nodes } = match serve(
        rt,
        alloc,
        config,
        options.run,
        items,
        options.workers,
        kept,
        nodes,
        gate,
    ) {
        Ok(served) => {
            close_nodes(config, served.nodes, rack);
            return Ok(Answered {
                history: served.history,
                replies: served.replies,
            });
        }
        Err(stopped) => stopped,
    };
    match nodes {
        Some(nodes) => {
            close_nodes(config, nodes, rack);
            return Err(stop.into());
        }
        None => return Err(stop.into()),
    }
}
