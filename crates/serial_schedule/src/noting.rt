//! What follows from what a node did.

ghost use Rattle.std.specs.Prelude.{◌≡◌, ◌+◌, ◌<◌, ◌≤◌, ◌^◌, ◌++◌, [], ◌∷◌, length, map, slice_set, Some, IfOk, OnOk, OnErr};
ghost use Rattle.std.specs.List.{AllByRecursion};
ghost use Rattle.std.specs.VecDeque.{deque_capacity, deque_len};
ghost use Rattle.std.specs.Vec.{vec_capacity, vec_len};
ghost use Rattle.log_base.specs.Shape.{shape};
ghost use Rattle.history_frame.specs.Spelling.{IsSent};
ghost use Rattle.event_letters.specs.Letters.{parcel};
ghost use Rattle.item_course.specs.Asking.{IsAwaited};
ghost use Rattle.schedule_model.specs.Courses.{course_in};
ghost use Rattle.serial_schedule.specs.Keeping.{IsAwaitedOr, IsMade};
ghost use Rattle.schedule_model.specs.Streams.{IsSingle, nothing_taken, stream_of};
ghost use Rattle.schedule_model.specs.Noting.{course_or_none, duties_with, hold_with, replies_with, stream_with};
ghost use Rattle.schedule_model.specs.Scheduling.{letters_from};
ghost use Rattle.command_frame.specs.Streams.{unplaced};
ghost use Rattle.subscriber.specs.Following.{after_offer};

use crate::hold::Hold;
use crate::letters::Letter;
use history_frame::Sent;
use item_course::{course_after, held_course};
use log_base::{Config, List, Memory, Outbox, Position};
use record_frame::Entry;
use reply_frame::Reply;
use schedule_model::{Awaited, Course, Duty};
use std::alloc::Global;
use std::collections::VecDeque;
use std::mem;
use subscriber::Subscriber;

/// Takes the letters of the event at a place out of the outbox, and puts them at the end of the queue, which
/// has room for them.
pub fn post(place: u32, outputs: &[Sent], queue: &mut VecDeque<Letter>, out: &mut Outbox)
    requires letters { out.old.letters ≡ map parcel outputs.now }
    requires spelled { AllByRecursion IsSent outputs.now }
    requires few { length outputs.now ≤ 255 }
    requires room { deque_len queue.old + length outputs.now ≤ deque_capacity queue.old }
    ensures queue { queue.new.items ≡ queue.old.items ++ letters_from place 0 outputs.now }
    ensures taken { out.new.letters ≡ [] }
{
    for (index, sent) in outputs.iter().enumerate() {
        let bytes = out.take(index);
        queue.push_back_reserved(Letter::of(place, index as u8, sent, bytes));
    }
    out.clear();
}

/// The reply is the awaited answer, if one is awaited: the item that it belongs to is done, or goes on.
pub fn follow(
    alloc: Global,
    config: &Config,
    awaited: &Option<Awaited>,
    reply: &Reply,
    subscriber: &mut Subscriber,
    duties: &mut VecDeque<Duty>,
    hold: &mut Hold,
    replies: &mut Vec<Reply>,
) -> Result<(), Memory>
    requires awaited { IsAwaitedOr (shape config.now) awaited.now }
    requires single { IsSingle reply.now }
    ensures stream { OnOk result (subscriber.new ≡ stream_with (course_or_none (shape config.now) hold.old awaited.now reply.now) subscriber.old) }
    ensures duties { OnOk result (duties.new.items ≡ duties_with (course_or_none (shape config.now) hold.old awaited.now reply.now) duties.old.items) }
    ensures replies { OnOk result (map unplaced replies.new.items
        ≡ replies_with (course_or_none (shape config.now) hold.old awaited.now reply.now) subscriber.old (map unplaced replies.old.items)) }
    ensures hold { OnOk result (hold.new ≡ hold_with (course_or_none (shape config.now) hold.old awaited.now reply.now) (length replies.old.items) hold.old) }
    ensures same_stream { OnErr result (subscriber.new ≡ subscriber.old) }
    ensures same_duties { OnErr result (duties.new.items ≡ duties.old.items) }
    ensures same_replies { OnErr result (replies.new.items ≡ replies.old.items) }
    ensures same_hold { OnErr result (hold.new ≡ hold.old) }
{
    let Some(awaited) = awaited else {
        return Ok(());
    };
    let course = course_in(alloc, config, hold, awaited, reply)?;
    go_on(alloc, course, subscriber, duties, hold, replies)
}

/// What an answer means for its item, whether items are held or not.
fn course_in(
    alloc: Global,
    config: &Config,
    hold: &Hold,
    awaited: &Awaited,
    reply: &Reply,
) -> Result<Course, Memory>
    requires awaited { IsAwaited (shape config.now) awaited.now }
    requires single { IsSingle reply.now }
    ensures { IfOk result (λ course. course ≡ course_in (shape config.now) hold.now awaited.now reply.now) }
{
    if hold.is_held() {
        held_course(alloc, config, awaited, reply)
    } else {
        course_after(alloc, config, awaited, reply)
    }
}

/// The item is done, or goes on.
pub fn go_on(
    alloc: Global,
    course: Course,
    subscriber: &mut Subscriber,
    duties: &mut VecDeque<Duty>,
    hold: &mut Hold,
    replies: &mut Vec<Reply>,
) -> Result<(), Memory>
    requires made { IsMade course }
    ensures stream { OnOk result (subscriber.new ≡ stream_with (Some course) subscriber.old) }
    ensures duties { OnOk result (duties.new.items ≡ duties_with (Some course) duties.old.items) }
    ensures replies { OnOk result (map unplaced replies.new.items ≡ replies_with (Some course) subscriber.old (map unplaced replies.old.items)) }
    ensures hold { OnOk result (hold.new ≡ hold_with (Some course) (length replies.old.items) hold.old) }
    ensures same_stream { OnErr result (subscriber.new ≡ subscriber.old) }
    ensures same_duties { OnErr result (duties.new.items ≡ duties.old.items) }
    ensures same_replies { OnErr result (replies.new.items ≡ replies.old.items) }
    ensures same_hold { OnErr result (hold.new ≡ hold.old) }
{
    match course {
        Course::Replies(reply) => {
            replies.push(reply)?;
            Ok(())
        }
        Course::GoesOn(first) => put_first(first.into_inner(), duties),
        Course::Takes {
            position,
            entry,
            next,
        } => {
            duties.reserve(1)?;
            take_entry(subscriber, position, entry)?;
            duties.push_front_reserved(next);
            Ok(())
        }
        Course::Completes { position, entry } => {
            let last = Box::new(alloc, Reply::Nothing)?;
            replies.reserve(1)?;
            take_entry(subscriber, position, entry)?;
            put_stream(alloc, subscriber, last, replies);
            Ok(())
        }
        Course::Ends(last) => {
            let last = Box::new(alloc, last)?;
            replies.reserve(1)?;
            put_stream(alloc, subscriber, last, replies);
            Ok(())
        }
        Course::Answers {
            reply,
            duties: first,
        } => {
            replies.reserve(1)?;
            put_first(first.into_inner(), duties)?;
            replies.push_reserved(reply);
            Ok(())
        }
        Course::PutsOff { reply, question } => {
            replies.reserve(1)?;
            hold.put_off(replies.len(), question)?;
            replies.push_reserved(reply);
            Ok(())
        }
        Course::Replaces { item, reply } => {
            replace(replies, item, reply);
            Ok(())
        }
    }
}

/// A reply takes the place of that of an item, if the item has one.
fn replace(replies: &mut Vec<Reply>, item: usize, reply: Reply)
    ensures { replies.new.items ≡ slice_set replies.old.items item reply }
{
    if let Some(place) = replies.get_mut(item) {
        *place = reply;
    }
}

/// An entry is taken, where it is the next.
fn take_entry(subscriber: &mut Subscriber, position: Position, entry: Entry) -> Result<(), Memory>
    requires { position.0 < 2 ^ 31 }
    ensures ok { OnOk result (subscriber.new ≡ after_offer subscriber.old position.0 entry) }
    ensures err { OnErr result (subscriber.new ≡ subscriber.old) }
{
    match subscriber.offer(position, entry) {
        Ok(_) => Ok(()),
        Err(_) => Err(Memory),
    }
}

/// The entries that were taken are handed over, with the answer that ended the stream.
fn put_stream(
    alloc: Global,
    subscriber: &mut Subscriber,
    last: Box<Reply>,
    replies: &mut Vec<Reply>,
)
    requires { vec_len replies.old < vec_capacity replies.old }
    ensures stream { subscriber.new ≡ nothing_taken }
    ensures replies { map unplaced replies.new.items ≡ map unplaced replies.old.items ++ stream_of subscriber.old last.value ∷ [] }
{
    let taken = mem::replace(subscriber, Subscriber::new(alloc, Position(0)));
    let from = taken.from();
    replies.push_reserved(Reply::Stream {
        from,
        entries: List::of(taken.into_delivered()),
        last,
    });
}

/// Puts duties before others.
fn put_first(mut first: Vec<Duty>, duties: &mut VecDeque<Duty>) -> Result<(), Memory>
    ensures ok { OnOk result (duties.new.items ≡ first.items ++ duties.old.items) }
    ensures err { OnErr result (duties.new.items ≡ duties.old.items) }
{
    duties.reserve(first.len())?;
    'first: while let Some(duty) = first.pop() {
        duties.push_front_reserved(duty);
    }
    Ok(())
}
