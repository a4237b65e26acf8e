//! What is told of a run that came to its end.

ghost use Rattle.std.specs.Prelude.{◌≡◌, length, IfOk, string_bytes};
ghost use Rattle.std.specs.List.{AllByRecursion};
ghost use Rattle.reply_frame.specs.Replies.{HasSpelling};
ghost use Rattle.history_frame.specs.Spelling.{IsHistory};
ghost use Rattle.scalog_run.specs.Report.{report_bytes, report_for, summary_line, summary_of};

use crate::writing::write_output;
use cluster_run::lanes_of;
use command_frame::Item;
use command_words::Options;
use log_base::{Memory, Position};
use quiet_run::Driven;
use std::alloc::{AllocError, Global};

/// What is told of a run that came to its end.
#[derive(Clone, Copy, Debug, PartialEq, Eq)]
pub enum Report {
    /// The replies and the history.
    Full,
    /// One line.
    Brief,
}

impl Report {
    /// The report that the options ask for.
    pub fn of(options: &Options) -> Report
        ensures { result ≡ report_for options.now.brief }
    {
        if options.brief {
            return Report::Brief;
        }
        Report::Full
    }

    /// Its bytes.
    pub fn bytes(self, alloc: Global, items: &[Item], driven: &Driven) -> Result<Vec<u8>, Memory>
        requires each { length driven.now.replies ≡ length items.now }
        requires replies { AllByRecursion HasSpelling driven.now.replies }
        requires history { IsHistory driven.now.history }
        ensures { IfOk result (λ bytes. bytes.items ≡ report_bytes self items.now driven.now) }
    {
        match self {
            Report::Full => {
                let lanes = lanes_of(alloc, items)?;
                write_output(alloc, &lanes, driven.replies.get(), &driven.history)
            }
            Report::Brief => {
                let line = Summary::of(items, driven).line(alloc)?;
                Ok(line.into_bytes())
            }
        }
    }
}

/// A run in brief.
#[derive(Clone, Copy, Debug, PartialEq, Eq)]
pub struct Summary {
    /// How many items were read.
    pub items: usize,
    /// How many events its history has.
    pub events: usize,
    /// How many values are known to the lowest of the nodes that know the most.
    pub slots: u32,
    /// The end of the log, by these values.
    pub end: Position,
    /// The mark below which positions are given up, by these values.
    pub trim: Position,
}

impl Summary {
    fn of(items: &[Item], driven: &Driven) -> Summary
        ensures { result ≡ summary_of items.now driven.now }
    {
        Summary {
            items: items.len(),
            events: driven.history.events.get().len(),
            slots: driven.known,
            end: driven.end,
            trim: driven.trim,
        }
    }

    /// The line of a run in brief.
    fn line(&self, alloc: Global) -> Result<String, AllocError>
        ensures { IfOk result (λ line. string_bytes line ≡ summary_line self.now) }
    {
        let Summary {
            items,
            events,
            slots,
            end: Position(end),
            trim: Position(trim),
        } = *self;
        format!(in alloc; "items {items} events {events} slots {slots} end {end} trim {trim}\n")
    }
}
