//! Answering items over the disks of a cluster, which a rack lends and takes back.

ghost use Rattle.std.specs.Prelude.{◌≡◌, ◌≤◌, length, map, IfOk, IfErr};
ghost use Rattle.std.specs.List.{AllByRecursion};
ghost use Rattle.command_frame.specs.Items.{IsItem};
ghost use Rattle.command_frame.specs.Streams.{unplaced};
ghost use Rattle.reply_frame.specs.Replies.{HasSpelling};
ghost use Rattle.log_base.specs.Shape.{shape};
ghost use Rattle.schedule_model.specs.Driven.{replies_of};
ghost use Rattle.cluster_disks.specs.Lent.{IsDisk, StaysBut, disks, lain};
ghost use Rattle.cluster_disks.specs.Opened.{AreLater};
ghost use Rattle.quiet_run.specs.Runs.{IsKnownAtMost};
ghost use Rattle.quiet_run.specs.Standing.{job};
ghost use Rattle.scalog_run.specs.Histories.{IsOutput, IsUnanswered, IsWholeRun};
ghost use Rattle.scalog_run.specs.Report.{report_for};

use crate::fault::RunFault;
use crate::report::Report;
use cluster_disks::{Opened, close_nodes, open_cluster};
use command_frame::Item;
use command_words::Options;
use disk_base::Rack;
use quiet_run::{Driven, drive};
use std::alloc::Global;

/// Answers items over the disks that the rack lends, and gives the report that the options ask for. The disks lie
/// in the rack again before it is written.
pub fn answer_items<Q: Rack>(
    alloc: Global,
    options: &Options,
    items: &[Item],
    rack: &mut Q,
) -> Result<Vec<u8>, RunFault>
where
    Q::D: Drop,
    requires run { (1 ≤ options.now.run) × (options.now.run ≤ 1000000) }
    requires few { length items.now ≤ 65536 }
    requires items { AllByRecursion (IsItem (shape options.now.config)) items.now }
    ensures output { IfOk result (λ output. IsOutput (disks Q.D.reads Q.D.may_leave Q.D.keeps_synced Q.D.faults) (shape options.now.config) options.now.run
        (report_for options.now.brief) items.now output.items
        (lain Q.disk_at Q.disk_faults Q.faults rack.old) (lain Q.disk_at Q.disk_faults Q.faults rack.new)) }
    ensures fault { IfErr result (λ fault. IsUnanswered (disks Q.D.reads Q.D.may_leave Q.D.keeps_synced Q.D.faults) (shape options.now.config) options.now.run items.now fault
        (lain Q.disk_at Q.disk_faults Q.faults rack.old) (lain Q.disk_at Q.disk_faults Q.faults rack.new)) }
    ensures later { AreLater (disks Q.D.reads Q.D.may_leave Q.D.keeps_synced Q.D.faults) (shape options.now.config)
        (lain Q.disk_at Q.disk_faults Q.faults rack.old) (lain Q.disk_at Q.disk_faults Q.faults rack.new) }
    ensures others { StaysBut Q.lent_under Q.disk_faults Q.disk_at (IsDisk (shape options.now.config)) rack.old rack.new }
{
    let driven = drive_over(alloc, options, items, rack)?;
    Ok(Report::of(options).bytes(alloc, items, &driven)?)
}

/// Drives the nodes of a cluster through items, over the disks that the rack lends.
fn drive_over<Q: Rack>(
    alloc: Global,
    options: &Options,
    items: &[Item],
    rack: &mut Q,
) -> Result<Driven, RunFault>
where
    Q::D: Drop,
    requires run { (1 ≤ options.now.run) × (options.now.run ≤ 1000000) }
    requires few { length items.now ≤ 65536 }
    requires items { AllByRecursion (IsItem (shape options.now.config)) items.now }
    ensures whole { IfOk result (λ driven. IsWholeRun (disks Q.D.reads Q.D.may_leave Q.D.keeps_synced Q.D.faults) (shape options.now.config) options.now.run items.now driven.history
        (lain Q.disk_at Q.disk_faults Q.faults rack.old) (lain Q.disk_at Q.disk_faults Q.faults rack.new)) }
    ensures replies { IfOk result (λ driven. map unplaced driven.replies ≡ replies_of (shape options.now.config) options.now.run items.now driven.history.events) }
    ensures spelled { IfOk result (λ driven. AllByRecursion HasSpelling driven.replies) }
    ensures known { IfOk result (λ driven. IsKnownAtMost (job (shape options.now.config) options.now.run items.now driven.history.kept) driven.history.events
        driven.known driven.end.0 driven.trim.0) }
    ensures fault { IfErr result (λ fault. IsUnanswered (disks Q.D.reads Q.D.may_leave Q.D.keeps_synced Q.D.faults) (shape options.now.config) options.now.run items.now fault
        (lain Q.disk_at Q.disk_faults Q.faults rack.old) (lain Q.disk_at Q.disk_faults Q.faults rack.new)) }
    ensures later { AreLater (disks Q.D.reads Q.D.may_leave Q.D.keeps_synced Q.D.faults) (shape options.now.config)
        (lain Q.disk_at Q.disk_faults Q.faults rack.old) (lain Q.disk_at Q.disk_faults Q.faults rack.new) }
    ensures others { StaysBut Q.lent_under Q.disk_faults Q.disk_at (IsDisk (shape options.now.config)) rack.old rack.new }
{
    let config = options.config;
    let Opened { mut nodes, kept } = open_cluster(alloc, config, options.run, rack)?;
    let driven = drive(alloc, config, options.run, items, kept, &mut nodes);
    close_nodes(config, nodes, rack);
    Ok(driven?)
}
