//! A run on its way.

ghost use Rattle.std.specs.Prelude.{◌≡◌, ◌≤◌, length, IfOk};
ghost use Rattle.std.specs.List.{AllByRecursion};
ghost use Rattle.command_frame.specs.Items.{IsItem};
ghost use Rattle.log_base.specs.Shape.{shape};
ghost use Rattle.quiet_run.specs.Running.{IsBeginning};
ghost use Rattle.quiet_run.specs.Standing.{job};

use command_frame::Item;
use history_frame::{Event, Kept};
use log_base::{Config, Memory};
use serial_schedule::Schedule;
use std::alloc::Global;

/// A run on its way: what it is given, the schedule, the events so far, and how many bytes their frames have.
#[derive(Debug, Drop)]
pub struct Running<'a> {
    pub alloc: Global,
    pub config: Config,
    pub run: u32,
    pub items: &'a [Item],
    pub kept: &'a [Kept],
    pub schedule: Schedule<'a>,
    pub events: Vec<Event>,
    pub bytes: u32,
}

/// A run that has not begun.
pub fn begin<'a>(
    alloc: Global,
    config: Config,
    run: u32,
    items: &'a [Item],
    kept: &'a [Kept],
) -> Result<Running<'a>, Memory>
    requires run { run ≤ 1000000 }
    requires few { length items.now ≤ 65536 }
    requires items { AllByRecursion (IsItem (shape config)) items.now }
    ensures { IfOk result (λ running. IsBeginning (job (shape config) run items.now kept.now) running) }
{
    let schedule = Schedule::new(alloc, config, run, items)?;
    Ok(Running {
        alloc,
        config,
        run,
        items,
        kept,
        schedule,
        events: Vec::new(alloc),
        bytes: 0,
    })
}
