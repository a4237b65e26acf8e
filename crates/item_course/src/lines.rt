//! What the lines of the fault script do.

ghost use Rattle.std.specs.Prelude.{◌≡◌, ◌<◌, ◌^◌, ◌∷◌, ◌++◌, [], ℕ, List as Items, IfOk, map};
ghost use Rattle.std.specs.List.{AllByRecursion};
ghost use Rattle.log_base.specs.Shape.{shape};
ghost use Rattle.fault_script.specs.Lines.{IsFault};
ghost use Rattle.schedule_model.specs.Courses.{asked_anew, line_course, signalled, with_letter};
ghost use Rattle.schedule_model.specs.Duties.{settling};
ghost use Rattle.item_course.specs.Asking.{IsPutOff};
ghost use Rattle.item_course.specs.Pairs.{sent_again};

use crate::calls::{asked_last, submission};
use crate::courses::goes_on;
use crate::rounds::settling;
use client_session::Pair;
use fault_script::Fault;
use log_base::{Config, List, Memory, NodeId};
use node_table::orderer;
use reply_frame::Reply;
use schedule_model::{Afterwards, Awaited, Course, Duty, PutOff, Signal};
use std::alloc::Global;

/// What a line does, while so many letters wait and these questions are put off, on a lane whose last append drew
/// this pair and has this record.
pub fn line_course(
    alloc: Global,
    config: &Config,
    put_off: &[PutOff],
    waiting: usize,
    last: &Option<Pair>,
    bytes: &[u8],
    fault: &Fault,
) -> Result<Course, Memory>
    requires fault { IsFault (shape config.now) fault.now }
    requires questions { AllByRecursion (IsPutOff (shape config.now)) put_off.now }
    ensures { (records : Items (Items ℕ)) → IfOk result (λ course. course
        ≡ line_course (shape config.now) (record { questions = put_off.now; waiting = waiting; records = records }) (sent_again last.now bytes.now) fault.now) }
{
    match fault {
        Fault::Hold | Fault::StopAfter { .. } | Fault::Lose { .. } => {
            Ok(Course::Replies(Reply::Done))
        }
        Fault::Settle => settle(alloc, config, put_off),
        Fault::Tick { node } => signal(alloc, Signal::Tick, *node),
        Fault::Stop { node } => signal(alloc, Signal::Stop, *node),
        Fault::Restart { node } => signal(alloc, Signal::Restart, *node),
        Fault::Lead { orderer: index } => signal(alloc, Signal::Lead, orderer(config, *index)),
        Fault::Deliver { letter } => deliver(alloc, waiting, *letter, Afterwards::TakenOut),
        Fault::Again { letter } => deliver(alloc, waiting, *letter, Afterwards::LeftIn),
        Fault::Drop { letter } => Ok(take_out(waiting, *letter)),
        Fault::Resubmit => send_again(alloc, last, bytes),
    }
}

/// A node is given a signal.
fn signal(alloc: Global, signal: Signal, node: NodeId) -> Result<Course, Memory>
    ensures { IfOk result (λ course. course ≡ signalled signal node.0) }
{
    let duty = Duty::Give {
        signal,
        first: node,
        count: 1,
    };
    does(alloc, duty)
}

/// A letter is delivered, if there is one with this number.
fn deliver(
    alloc: Global,
    waiting: usize,
    letter: u32,
    afterwards: Afterwards,
) -> Result<Course, Memory>
    ensures { IfOk result (λ course. course
        ≡ with_letter waiting letter (Course.Answers Reply.Done (Duty.DeliverOne letter afterwards ∷ []))) }
{
    if (letter as usize) < waiting {
        does(alloc, Duty::DeliverOne { letter, afterwards })
    } else {
        Ok(none_with(waiting))
    }
}

/// A letter is taken out, if there is one with this number.
fn take_out(waiting: usize, letter: u32) -> Course
    ensures { result ≡ with_letter waiting letter (Course.Replies Reply.Done) }
{
    if (letter as usize) < waiting {
        Course::Replies(Reply::Done)
    } else {
        none_with(waiting)
    }
}

/// No letter has the number that was asked for.
fn none_with(waiting: usize) -> Course
    requires { waiting < 2 ^ 32 }
    ensures { result ≡ Course.Replies (Reply.NoLetter waiting) }
{
    Course::Replies(Reply::NoLetter {
        waiting: waiting as u32,
    })
}

/// The cluster settles, and the questions are asked again.
fn settle(alloc: Global, config: &Config, put_off: &[PutOff]) -> Result<Course, Memory>
    requires { AllByRecursion (IsPutOff (shape config.now)) put_off.now }
    ensures { IfOk result (λ course. course
        ≡ Course.Answers Reply.Done (settling (shape config.now) ++ map (asked_anew (shape config.now)) put_off.now)) }
{
    let mut duties = settling(alloc, config)?;
    for late in put_off {
        duties.push(ask_anew(config, late))?;
    }
    Ok(Course::Answers {
        reply: Reply::Done,
        duties: List::of(duties),
    })
}

/// A question that was put off is asked again, and its answer takes the place of the item's reply.
fn ask_anew(config: &Config, late: &PutOff) -> Duty
    requires { IsPutOff (shape config.now) late.now }
    ensures { result ≡ asked_anew (shape config.now) late.now }
{
    asked_last(config, &late.question, Awaited::Again { item: late.item })
}

/// The record of a lane's last append is submitted again under its pair, to its node.
fn send_again(alloc: Global, last: &Option<Pair>, bytes: &[u8]) -> Result<Course, Memory>
    ensures { IfOk result (λ course. course ≡ sent_again last.now bytes.now) }
{
    match last {
        Some(pair) => goes_on(alloc, submission(pair, Vec::from_slice(alloc, bytes)?)),
        None => Ok(Course::Replies(Reply::NothingKept)),
    }
}

/// One duty, and the line is done.
fn does(alloc: Global, duty: Duty) -> Result<Course, Memory>
    ensures { IfOk result (λ course. course ≡ Course.Answers Reply.Done (duty ∷ [])) }
{
    let mut duties = Vec::new(alloc);
    duties.push(duty)?;
    Ok(Course::Answers {
        reply: Reply::Done,
        duties: List::of(duties),
    })
}
