//! What an answer makes of an item.

ghost use Rattle.std.specs.Prelude.{◌≡◌, ◌<◌, ◌^◌, [], ◌∷◌, IfOk};
ghost use Rattle.log_base.specs.Shape.{shape};
ghost use Rattle.node_table.specs.Numbering.{nodes_of};
ghost use Rattle.item_course.specs.Asking.{IsAwaited};
ghost use Rattle.serial_schedule.specs.Keeping.{IsMade};
ghost use Rattle.schedule_model.specs.Streams.{IsSingle};
ghost use Rattle.schedule_model.specs.Streams.{stream_of};
ghost use Rattle.subscriber.specs.Following.{after_offer};
ghost use Rattle.lane_work.specs.Stages.{after_answer, after_turn, asks, due_of, gone, is_pending, replied, unplaced_stage};
ghost use Rattle.lane_work.specs.declared.stages.Stage.TheVariants.{Replied as IsReplied};

use crate::stages::{Asking, Due, Stage};
use item_course::course_after;
use log_base::{Config, List, Memory, NodeId, Position};
use node_table::nodes;
use record_frame::Entry;
use reply_frame::Reply;
use schedule_model::{Course, Duty};
use std::alloc::Global;
use subscriber::Subscriber;

/// How often an item is asked again.
const ASKED_AGAIN: u16 = 256;

/// An item goes on after the answer to its call.
pub(crate) fn go_on(
    alloc: Global,
    config: &Config,
    asking: Asking,
    reply: &Reply,
) -> Result<Stage, Memory>
    requires awaited { IsAwaited (shape config.now) asking.due.awaited }
    requires single { IsSingle reply.now }
    ensures { IfOk result (λ stage. unplaced_stage stage ≡ after_answer (shape config.now) asking reply.now) }
{
    let course = course_after(alloc, config, &asking.due.awaited, reply)?;
    take(alloc, asking, course)
}

/// An item goes on, or is done.
fn take(alloc: Global, asking: Asking, course: Course) -> Result<Stage, Memory>
    requires { IsMade course }
    ensures { IfOk result (λ stage. unplaced_stage stage ≡ gone asking course) }
{
    match course {
        Course::Replies(reply) => Ok(replied(asking, reply)),
        Course::Answers { reply, .. } => Ok(replied(asking, reply)),
        Course::PutsOff { reply, .. } => Ok(replied(asking, reply)),
        Course::Replaces { reply, .. } => Ok(replied(asking, reply)),
        Course::GoesOn(duties) => Ok(asks(asking.taken, asking.again, due_of(duties))),
        Course::Takes {
            position,
            entry,
            next,
        } => {
            let taken = with_entry(asking.taken, position, entry)?;
            Ok(asks(taken, asking.again, due_in(next)))
        }
        Course::Completes { position, entry } => {
            let taken = with_entry(asking.taken, position, entry)?;
            stream(alloc, taken, Reply::Nothing)
        }
        Course::Ends(last) => stream(alloc, asking.taken, last),
    }
}

/// The reply, unless it is of a pending kind and the item may be asked again.
fn replied(asking: Asking, reply: Reply) -> Stage
    requires { IsSingle reply }
    ensures { unplaced_stage result ≡ replied asking reply }
{
    if is_pending(&reply) && asking.again < ASKED_AGAIN {
        Stage::Turns {
            next: NodeId(0),
            asking: Asking {
                due: asking.due,
                again: asking.again + 1,
                taken: asking.taken,
            },
        }
    } else {
        Stage::Replied(reply)
    }
}

/// A reply that may be another one later.
fn is_pending(reply: &Reply) -> bool
    ensures { result ≡ is_pending reply.now }
{
    match reply {
        Reply::PendingAsk { .. } | Reply::PendingRead { .. } | Reply::PendingWish { .. } => true,
        _ => false,
    }
}

/// The item goes on with a call.
fn asks(taken: Subscriber, again: u16, due: Option<Due>) -> Stage
    ensures { result ≡ asks taken again due }
{
    match due {
        Some(due) => Stage::Asks(Asking { due, again, taken }),
        None => Stage::Replied(Reply::Nothing),
    }
}

/// The call of a duty.
fn due_in(duty: Duty) -> Option<Due>
    ensures { result ≡ due_of (duty ∷ []) }
{
    match duty {
        Duty::MakeCall {
            node,
            call,
            awaited,
        } => Some(Due {
            node,
            call,
            awaited,
        }),
        Duty::Give { .. } | Duty::DeliverAll | Duty::DeliverOne { .. } => None,
    }
}

/// The first call among duties.
fn due_of(duties: List<Duty>) -> Option<Due>
    ensures { result ≡ due_of duties }
{
    for duty in duties.into_inner() {
        if let Some(due) = due_in(duty) {
            return Some(due);
        }
    }
    None
}

/// A subscription takes an entry, where it is the next.
fn with_entry(taken: Subscriber, position: Position, entry: Entry) -> Result<Subscriber, Memory>
    requires { position.0 < 2 ^ 31 }
    ensures { IfOk result (λ now. now ≡ after_offer taken position.0 entry) }
{
    let mut taken = taken;
    match taken.offer(position, entry) {
        Ok(_) => Ok(taken),
        Err(_) => Err(Memory),
    }
}

/// The stream of what was taken is the reply, with the answer that ended it.
fn stream(alloc: Global, taken: Subscriber, last: Reply) -> Result<Stage, Memory>
    ensures { IfOk result (λ stage. unplaced_stage stage ≡ IsReplied (stream_of taken last)) }
{
    let last = Box::new(alloc, last)?;
    let from = taken.from();
    Ok(Stage::Replied(Reply::Stream {
        from,
        entries: List::of(taken.into_delivered()),
        last,
    }))
}

/// A node was turned: the next one is, or the call is due again.
pub(crate) fn after_turn(config: &Config, node: NodeId, asking: Asking) -> Stage
    requires { node.0 < nodes_of (shape config.now) }
    ensures { result ≡ after_turn (shape config.now) node asking }
{
    let next = node.0 + 1;
    if next < nodes(config) {
        Stage::Turns {
            next: NodeId(next),
            asking,
        }
    } else {
        Stage::Asks(asking)
    }
}
