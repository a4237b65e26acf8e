//! Serving items from the opening of the nodes to the last reply.

ghost use Rattle.std.specs.Prelude.{◌≡◌, ◌<◌, ◌≤◌, [], length, map, OnOk, IfOk, IfErr};
ghost use Rattle.std.specs.List.{AllByRecursion};
ghost use Rattle.command_frame.specs.Items.{IsItem, IsNoFault};
ghost use Rattle.core_step.specs.Standing.{cluster_node};
ghost use Rattle.history_frame.specs.Spelling.{IsHistory};
ghost use Rattle.log_base.specs.Shape.{shape};
ghost use Rattle.node_model.specs.Legal.{IsLawful};
ghost use Rattle.node_model.specs.Sound.{IsSound, payloads_on};
ghost use Rattle.plain_log.specs.Log.{log_of};
ghost use Rattle.reply_frame.specs.Replies.{HasSpelling};
ghost use Rattle.schedule_model.specs.Driven.{IsDriven, replies_of};
ghost use Rattle.command_frame.specs.Streams.{unplaced};
ghost use Rattle.counted_node.specs.Causes.{AllCountOn, BeginWithStarts, HaveCauses, StartsAreClean, node_media};
ghost use Rattle.quiet_run.specs.Running.{CausesGoOn, IsOver, IsUnderWay, StopsWith, job_of};
ghost use Rattle.quiet_run.specs.Runs.{IsKnownAtMost, IsStoppedRun, IsStoppedWith, IsWithinLimits, KnowsMost};
ghost use Rattle.quiet_run.specs.Spelled.{AreKept};
ghost use Rattle.quiet_run.specs.Standing.{StandAfter, job};
ghost use Rattle.quiet_run.specs.Unfailing.{AreUnfailing, ShowsNone};

use crate::knowing::first_to_know_most;
use crate::outcomes::{DriveStop, Driven};
use crate::running::{Running, begin};
use command_frame::{Item, Reply};
use core_step::Node;
use cut_chain::Places;
use history_frame::{Event, History, Kept};
use log_base::{Config, List};
use segment_journal::Journal;
use std::alloc::Global;

/// Serves items on the nodes of a cluster, from their opening to the last reply. The nodes are down and hold what
/// their disks kept, which is sound.
///
/// After a stop the nodes stand where the events so far left them, and what was kept is dropped.
pub fn drive<J: Journal + Drop, P: Places>(
    alloc: Global,
    config: Config,
    run: u32,
    items: &[Item],
    kept: Vec<Kept>,
    nodes: &mut Vec<Node<J, P>>,
) -> Result<Driven, DriveStop>
    requires run { (1 ≤ run) × (run ≤ 1000000) }
    requires few { length items.now ≤ 65536 }
    requires items { AllByRecursion (IsItem (shape config)) items.now }
    requires sound { IsSound (shape config) run (payloads_on kept.items) }
    requires nodes { StandAfter (job (shape config) run items.now kept.items) [] (map (cluster_node J.state) nodes.old.items) }
    ensures given { IfOk result (λ driven. (driven.history.config ≡ config) × (driven.history.run ≡ run) × (driven.history.kept ≡ kept.items)) }
    ensures lawful { IfOk result (λ driven. IsLawful driven.history) }
    ensures driven { IfOk result (λ driven. IsDriven (shape config) run items.now driven.history.events) }
    ensures replies { IfOk result (λ driven. map unplaced driven.replies ≡ replies_of (shape config) run items.now driven.history.events) }
    ensures each { IfOk result (λ driven. length driven.replies ≡ length items.now) }
    ensures nodes { IfOk result (λ driven.
        StandAfter (job (shape config) run items.now kept.items) driven.history.events (map (cluster_node J.state) nodes.new.items)) }
    ensures limits { IfOk result (λ driven. IsWithinLimits (job (shape config) run items.now kept.items) driven.history.events) }
    ensures known { IfOk result (λ driven.
        IsKnownAtMost (job (shape config) run items.now kept.items) driven.history.events driven.known driven.end.0 driven.trim.0) }
    ensures stopped { IfErr result (λ stop. IsStoppedRun (job (shape config) run items.now kept.items) (map (cluster_node J.state) nodes.new.items) stop) }
    ensures spelled { IfOk result (λ driven. AreKept driven.history.kept → IsHistory driven.history) }
    ensures replies_spelled { IfOk result (λ driven. AllByRecursion HasSpelling driven.replies) }
    ensures starts { IfOk result (λ driven. BeginWithStarts (shape config) driven.history.events) }
    ensures opened { IfOk result (λ driven. StartsAreClean (shape config) driven.history.events
        (map (node_media J.state J.faults J.keeps_synced J.turns) nodes.old.items) (map (node_media J.state J.faults J.keeps_synced J.turns) nodes.new.items)) }
    ensures causes { IfOk result (λ driven. HaveCauses (shape config) driven.history.events
        (map (node_media J.state J.faults J.keeps_synced J.turns) nodes.old.items) (map (node_media J.state J.faults J.keeps_synced J.turns) nodes.new.items)) }
    ensures counts { AllCountOn (map (node_media J.state J.faults J.keeps_synced J.turns) nodes.old.items) (map (node_media J.state J.faults J.keeps_synced J.turns) nodes.new.items) }
    ensures stopped_causes { IfErr result (λ stop. IsStoppedWith (job (shape config) run items.now kept.items) (map (cluster_node J.state) nodes.new.items)
        (map (node_media J.state J.faults J.keeps_synced J.turns) nodes.old.items) (map (node_media J.state J.faults J.keeps_synced J.turns) nodes.new.items) stop) }
    ensures quiet { IfOk result (λ driven. kept.items ≡ [] → AllByRecursion IsNoFault items.now → ShowsNone (shape config) driven.history.events
        → map unplaced driven.replies ≡ log_of (shape config) run items.now) }
    ensures unfailing { IfOk result (λ driven. kept.items ≡ [] → AllByRecursion IsNoFault items.now
        → AreUnfailing (shape config) (map (node_media J.state J.faults J.keeps_synced J.turns) nodes.old.items) (map (node_media J.state J.faults J.keeps_synced J.turns) nodes.new.items)
        → map unplaced driven.replies ≡ log_of (shape config) run items.now) }
{
    serve(alloc, config, run, items, kept, nodes)
}

/// The same for the nodes of a slice.
fn serve<J: Journal + Drop, P: Places>(
    alloc: Global,
    config: Config,
    run: u32,
    items: &[Item],
    kept: Vec<Kept>,
    nodes: &mut [Node<J, P>],
) -> Result<Driven, DriveStop>
    requires run { (1 ≤ run) × (run ≤ 1000000) }
    requires few { length items.now ≤ 65536 }
    requires items { AllByRecursion (IsItem (shape config)) items.now }
    requires sound { IsSound (shape config) run (payloads_on kept.items) }
    requires nodes { StandAfter (job (shape config) run items.now kept.items) [] (map (cluster_node J.state) nodes.old) }
    ensures given { IfOk result (λ driven. (driven.history.config ≡ config) × (driven.history.run ≡ run) × (driven.history.kept ≡ kept.items)) }
    ensures lawful { IfOk result (λ driven. IsLawful driven.history) }
    ensures driven { IfOk result (λ driven. IsDriven (shape config) run items.now driven.history.events) }
    ensures replies { IfOk result (λ driven. map unplaced driven.replies ≡ replies_of (shape config) run items.now driven.history.events) }
    ensures each { IfOk result (λ driven. length driven.replies ≡ length items.now) }
    ensures nodes { IfOk result (λ driven.
        StandAfter (job (shape config) run items.now kept.items) driven.history.events (map (cluster_node J.state) nodes.new)) }
    ensures limits { IfOk result (λ driven. IsWithinLimits (job (shape config) run items.now kept.items) driven.history.events) }
    ensures known { IfOk result (λ driven.
        IsKnownAtMost (job (shape config) run items.now kept.items) driven.history.events driven.known driven.end.0 driven.trim.0) }
    ensures stopped { IfErr result (λ stop. IsStoppedRun (job (shape config) run items.now kept.items) (map (cluster_node J.state) nodes.new) stop) }
    ensures spelled { IfOk result (λ driven. AreKept driven.history.kept → IsHistory driven.history) }
    ensures replies_spelled { IfOk result (λ driven. AllByRecursion HasSpelling driven.replies) }
    ensures starts { IfOk result (λ driven. BeginWithStarts (shape config) driven.history.events) }
    ensures opened { IfOk result (λ driven. StartsAreClean (shape config) driven.history.events
        (map (node_media J.state J.faults J.keeps_synced J.turns) nodes.old) (map (node_media J.state J.faults J.keeps_synced J.turns) nodes.new)) }
    ensures causes { IfOk result (λ driven. HaveCauses (shape config) driven.history.events
        (map (node_media J.state J.faults J.keeps_synced J.turns) nodes.old) (map (node_media J.state J.faults J.keeps_synced J.turns) nodes.new)) }
    ensures counts { AllCountOn (map (node_media J.state J.faults J.keeps_synced J.turns) nodes.old) (map (node_media J.state J.faults J.keeps_synced J.turns) nodes.new) }
    ensures stopped_causes { IfErr result (λ stop. IsStoppedWith (job (shape config) run items.now kept.items) (map (cluster_node J.state) nodes.new)
        (map (node_media J.state J.faults J.keeps_synced J.turns) nodes.old) (map (node_media J.state J.faults J.keeps_synced J.turns) nodes.new) stop) }
{
    let mut running = begin(alloc, config, run, items, &kept)?;
    run_to_end(&mut running, nodes)?;
    let (replies, events) = take_apart(running);
    let history = History {
        config,
        run,
        kept: List::of(kept),
        events: List::of(events),
    };
    Ok(finish(history, replies, nodes))
}

/// The replies and the events of a run.
fn take_apart(running: Running) -> (Vec<Reply>, Vec<Event>)
    ensures replies { map unplaced result.0.items ≡ running.entry.schedule.replies }
    ensures events { result.1 ≡ running.entry.events }
{
    let Running {
        alloc: _,
        config: _,
        run: _,
        items: _,
        kept: _,
        schedule,
        events,
        bytes: _,
    } = running;
    (schedule.into_replies(), events)
}

/// Goes on until no turn comes.
fn run_to_end<J: Journal + Drop, P: Places>(
    running: &mut Running,
    nodes: &mut [Node<J, P>],
) -> Result<(), DriveStop>
    requires { IsUnderWay (job_of running.old) running.old (map (cluster_node J.state) nodes.old) }
    ensures over { OnOk result (IsOver (job_of running.new) running.new.events.items running.new.bytes running.new.schedule.replies
        (map (cluster_node J.state) nodes.new)) }
    ensures same { OnOk result (job_of running.new ≡ job_of running.old) }
    ensures err { IfErr result (λ stop. IsStoppedRun (job_of running.old) (map (cluster_node J.state) nodes.new) stop) }
    ensures causes { OnOk result (CausesGoOn (job_of running.old).config running.old.events.items running.new.events.items
        (map (node_media J.state J.faults J.keeps_synced J.turns) nodes.old) (map (node_media J.state J.faults J.keeps_synced J.turns) nodes.new)) }
    ensures err_causes { IfErr result (λ stop. StopsWith (job_of running.old) running.old.events.items (map (cluster_node J.state) nodes.new)
        (map (node_media J.state J.faults J.keeps_synced J.turns) nodes.old) (map (node_media J.state J.faults J.keeps_synced J.turns) nodes.new) stop) }
{
    'turns: while running.go_on(nodes)? {}
    Ok(())
}

/// The history of a run that is over, its replies, and what the lowest of the nodes with the most known values
/// knows.
fn finish<J: Journal, P: Places>(
    history: History,
    replies: Vec<Reply>,
    nodes: &[Node<J, P>],
) -> Driven
    requires { 0 < length nodes.now }
    ensures history { result.history ≡ history }
    ensures replies { result.replies ≡ replies.items }
    ensures known { KnowsMost (map (cluster_node J.state) nodes.now) result.known result.end.0 result.trim.0 }
{
    let node = &nodes[first_to_know_most(nodes)];
    Driven {
        history,
        replies: List::of(replies),
        known: node.known(),
        end: node.end(),
        trim: node.trim(),
    }
}
