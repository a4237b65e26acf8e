//! Passing over what is done.

ghost use Rattle.std.specs.Prelude.{◌≡◌, false};
ghost use Rattle.schedule_model.specs.Scheduling.{due, is_done, is_first_done};

use crate::letters::Letter;
use schedule_model::Duty;
use std::collections::VecDeque;

/// Drops the duties at the front that are done.
pub fn pass_over(queue: &VecDeque<Letter>, duties: &mut VecDeque<Duty>)
    ensures due { duties.new.items ≡ due queue.now.items duties.old.items }
    ensures stops { is_first_done queue.now.items duties.new.items ≡ false }
{
    'duties: while is_first_done(queue, duties) {
        let _ = duties.pop_front();
    }
}

/// Whether there is a duty at the front that is done.
fn is_first_done(queue: &VecDeque<Letter>, duties: &VecDeque<Duty>) -> bool
    ensures { result ≡ is_first_done queue.now.items duties.now.items }
{
    match duties.front() {
        None => false,
        Some(duty) => is_done(queue, duty),
    }
}

/// Whether a duty is done: each node was given its signal, or no letter waits, or none with its number.
fn is_done(queue: &VecDeque<Letter>, duty: &Duty) -> bool
    ensures { result ≡ is_done queue.now.items duty.now }
{
    match duty {
        Duty::Give { count, .. } => *count == 0,
        Duty::DeliverAll => queue.is_empty(),
        Duty::DeliverOne { letter, .. } => queue.len() <= *letter as usize,
        Duty::MakeCall { .. } => false,
    }
}
