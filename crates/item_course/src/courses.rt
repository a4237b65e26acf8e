//! How an item goes on after an answer.

ghost use Rattle.std.specs.Prelude.{◌≡◌, ◌<◌, [], ◌∷◌, ◌++◌, IfOk};
ghost use Rattle.log_base.specs.ClusterShape.{Shape};
ghost use Rattle.log_base.specs.Shape.{shape};
ghost use Rattle.schedule_model.specs.Courses.{asked_held, course_of, held_course_of, is_put_off, requested};
ghost use Rattle.schedule_model.specs.Duties.{settling};
ghost use Rattle.item_course.specs.Asking.{IsAwaited, IsQuestion};
ghost use Rattle.schedule_model.specs.Streams.{IsSingle};

use crate::calls::{asked_last, confirmation, enquiry, reading, request};
use crate::replies::copy_reply;
use crate::rounds::settling;
use crate::streams::{after_position, after_told};
use log_base::{Client, Config, List, Memory, NodeId, Number, Position, Replica};
use record_frame::Value;
use reply_frame::Reply;
use schedule_model::{Awaited, Course, Duty, Question};
use std::alloc::Global;

/// What an answer means while items are held: what was stored or taken is asked for at once.
pub fn held_course(
    alloc: Global,
    config: &Config,
    awaited: &Awaited,
    reply: &Reply,
) -> Result<Course, Memory>
    requires awaited { IsAwaited (shape config.now) awaited.now }
    requires single { IsSingle reply.now }
    ensures { IfOk result (λ course. course ≡ held_course_of (shape config.now) awaited.now reply.now) }
{
    match awaited {
        Awaited::Storing {
            primary,
            client,
            number,
        } => held_submission(alloc, config, *primary, *client, *number, reply),
        Awaited::Requesting {
            orderer,
            client,
            value,
        } => held_request(alloc, config, *orderer, *client, value, reply),
        _ => course_after(alloc, config, awaited, reply),
    }
}

/// A stored append is asked for at once.
fn held_submission(
    alloc: Global,
    config: &Config,
    primary: NodeId,
    client: Client,
    number: Number,
    reply: &Reply,
) -> Result<Course, Memory>
    requires { IsSingle reply.now }
    ensures { IfOk result (λ course. course ≡ held_course_of (shape config.now) (Awaited.Storing primary client number) reply.now) }
{
    match reply {
        Reply::Stored { .. } => {
            let question = Question::Append {
                primary,
                client,
                number,
            };
            ask_held(alloc, config, question)
        }
        _ => replies(alloc, reply),
    }
}

/// A request that is taken is asked for at once.
fn held_request(
    alloc: Global,
    config: &Config,
    orderer: u8,
    client: Client,
    value: &Value,
    reply: &Reply,
) -> Result<Course, Memory>
    requires orderer { orderer < (shape config.now).orderers }
    requires single { IsSingle reply.now }
    ensures { IfOk result (λ course. course ≡ held_course_of (shape config.now) (Awaited.Requesting orderer client value.now) reply.now) }
{
    match reply {
        Reply::Taken { from } => {
            let question = Question::Wish {
                orderer,
                client,
                value: *value,
                from: *from,
            };
            ask_held(alloc, config, question)
        }
        _ => after_request(alloc, config, orderer, client, value, reply),
    }
}

/// A held item asks its last question.
fn ask_held(alloc: Global, config: &Config, question: Question) -> Result<Course, Memory>
    requires { IsQuestion (shape config.now) question }
    ensures { IfOk result (λ course. course ≡ asked_held (shape config.now) question) }
{
    goes_on(
        alloc,
        asked_last(config, &question, Awaited::Held(question)),
    )
}

/// The answer to a held item's last question is its reply. Where nothing is known yet, the question is put off.
fn after_question(alloc: Global, question: Question, reply: &Reply) -> Result<Course, Memory>
    requires { IsSingle reply.now }
    ensures { (config : Shape) → IfOk result (λ course. course ≡ course_of config (Awaited.Held question) reply.now) }
{
    let reply = copy_reply(alloc, reply)?;
    if is_put_off(&reply) {
        Ok(Course::PutsOff { reply, question })
    } else {
        Ok(Course::Replies(reply))
    }
}

/// Whether an answer says that nothing is known yet, or that the node is down.
fn is_put_off(reply: &Reply) -> bool
    ensures { result ≡ is_put_off reply.now }
{
    match reply {
        Reply::PendingAsk { .. }
        | Reply::PendingRead { .. }
        | Reply::PendingWish { .. }
        | Reply::Down => true,
        _ => false,
    }
}

/// What an answer means for its item, while none are held.
pub fn course_after(
    alloc: Global,
    config: &Config,
    awaited: &Awaited,
    reply: &Reply,
) -> Result<Course, Memory>
    requires awaited { IsAwaited (shape config.now) awaited.now }
    requires single { IsSingle reply.now }
    ensures { IfOk result (λ course. course ≡ course_of (shape config.now) awaited.now reply.now) }
{
    match awaited {
        Awaited::Storing {
            primary,
            client,
            number,
        } => after_submission(alloc, config, *primary, *client, *number, reply),
        Awaited::Requesting {
            orderer,
            client,
            value,
        } => after_request(alloc, config, *orderer, *client, value, reply),
        Awaited::Reading {
            replica,
            client,
            position,
        } => after_read(alloc, config, *replica, *client, *position, reply),
        Awaited::Streaming(subscription) => after_position(alloc, config, subscription, reply),
        Awaited::StreamingOn(subscription) => after_told(alloc, config, subscription, reply),
        Awaited::Last => replies(alloc, reply),
        Awaited::Held(question) => after_question(alloc, *question, reply),
        Awaited::Again { item } => {
            let reply = copy_reply(alloc, reply)?;
            Ok(Course::Replaces { item: *item, reply })
        }
    }
}

/// A stored append is asked for once the cluster has settled.
fn after_submission(
    alloc: Global,
    config: &Config,
    primary: NodeId,
    client: Client,
    number: Number,
    reply: &Reply,
) -> Result<Course, Memory>
    requires { IsSingle reply.now }
    ensures { IfOk result (λ course. course ≡ course_of (shape config.now) (Awaited.Storing primary client number) reply.now) }
{
    match reply {
        Reply::Stored { .. } => settles(alloc, config, enquiry(primary, client, number)),
        _ => replies(alloc, reply),
    }
}

/// A request goes on to the next orderer, or it is taken and asked for once the cluster has settled.
fn after_request(
    alloc: Global,
    config: &Config,
    orderer: u8,
    client: Client,
    value: &Value,
    reply: &Reply,
) -> Result<Course, Memory>
    requires orderer { orderer < (shape config.now).orderers }
    requires single { IsSingle reply.now }
    ensures { IfOk result (λ course. course ≡ course_of (shape config.now) (Awaited.Requesting orderer client value.now) reply.now) }
{
    match reply {
        Reply::NotLeading | Reply::Down => requested(alloc, config, orderer + 1, client, value),
        Reply::Taken { from } => {
            let duty = confirmation(config, orderer, client, value, *from);
            settles(alloc, config, duty)
        }
        _ => replies(alloc, reply),
    }
}

/// A read goes on to the shard that has the position.
fn after_read(
    alloc: Global,
    config: &Config,
    replica: Replica,
    client: Client,
    position: Position,
    reply: &Reply,
) -> Result<Course, Memory>
    requires replica { replica.0 < (shape config.now).replicas }
    requires single { IsSingle reply.now }
    ensures { IfOk result (λ course. course ≡ course_of (shape config.now) (Awaited.Reading replica client position) reply.now) }
{
    match reply {
        Reply::Elsewhere { shard } if shard.0 < u16::from(config.shards()) => {
            let duty = reading(config, *shard, replica, client, position, Awaited::Last);
            goes_on(alloc, duty)
        }
        _ => replies(alloc, reply),
    }
}

/// A value is requested of this orderer, if there is one.
fn requested(
    alloc: Global,
    config: &Config,
    orderer: u8,
    client: Client,
    value: &Value,
) -> Result<Course, Memory>
    ensures { IfOk result (λ course. course ≡ requested (shape config.now) orderer client value.now) }
{
    if orderer < config.orderers() {
        goes_on(alloc, request(config, orderer, client, value))
    } else {
        Ok(Course::Replies(Reply::NoLeader))
    }
}

/// The answer is the reply.
fn replies(alloc: Global, reply: &Reply) -> Result<Course, Memory>
    requires { IsSingle reply.now }
    ensures { IfOk result (λ course. course ≡ Course.Replies reply.now) }
{
    Ok(Course::Replies(copy_reply(alloc, reply)?))
}

/// One call is due.
pub fn goes_on(alloc: Global, duty: Duty) -> Result<Course, Memory>
    ensures { IfOk result (λ course. course ≡ Course.GoesOn (duty ∷ [])) }
{
    let mut duties = Vec::new(alloc);
    duties.push(duty)?;
    Ok(Course::GoesOn(List::of(duties)))
}

/// A call is due once the cluster has settled.
fn settles(alloc: Global, config: &Config, duty: Duty) -> Result<Course, Memory>
    ensures { IfOk result (λ course. course ≡ Course.GoesOn (settling (shape config.now) ++ duty ∷ [])) }
{
    let mut duties = settling(alloc, config)?;
    duties.push(duty)?;
    Ok(Course::GoesOn(List::of(duties)))
}
