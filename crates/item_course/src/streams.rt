//! How a subscription goes on.

ghost use Rattle.std.specs.Prelude.{◌≡◌, ◌<◌, length, true, IfOk};
ghost use Rattle.log_base.specs.Shape.{shape};
ghost use Rattle.reply_frame.specs.Replies.{entry_bytes};
ghost use Rattle.schedule_model.specs.Courses.{course_of, following, following_on, found, with_entry};
ghost use Rattle.schedule_model.specs.Streams.{is_taken, IsSingle, IsSubscription, moved_on, subscription_at, wants_more};

use crate::calls::reading;
use crate::courses::goes_on;
use crate::replies::{copy_entry, copy_reply};
use log_base::{Client, Config, Memory, Position, Replica, Shard};
use record_frame::Entry;
use reply_frame::Reply;
use schedule_model::{Awaited, Course, Duty, Subscription};
use std::alloc::Global;

/// How many bytes of entries a reply has room for, beside at most 22 others.
const ROOM: u32 = 2_097_130;

/// A subscription asks the replica that it names for its position.
pub fn following(config: &Config, subscription: Subscription) -> Duty
    requires { IsSubscription (shape config.now) subscription }
    ensures { result ≡ following (shape config.now) subscription }
{
    reading(
        config,
        subscription.shard,
        subscription.replica,
        subscription.client,
        subscription.position,
        Awaited::Streaming(subscription),
    )
}

/// A subscription at its first position.
pub fn subscription_at(
    shard: Shard,
    replica: Replica,
    client: Client,
    position: Position,
    count: u16,
) -> Subscription
    ensures { result ≡ subscription_at shard replica client position count }
{
    Subscription {
        shard,
        replica,
        client,
        position,
        count,
        room: ROOM,
    }
}

/// The answer of the replica that a subscription names.
pub fn after_position(
    alloc: Global,
    config: &Config,
    subscription: &Subscription,
    reply: &Reply,
) -> Result<Course, Memory>
    requires subscription { IsSubscription (shape config.now) subscription.now }
    requires single { IsSingle reply.now }
    ensures { IfOk result (λ course. course ≡ course_of (shape config.now) (Awaited.Streaming subscription.now) reply.now) }
{
    match reply {
        Reply::Found { entry, .. } => after_found(alloc, config, subscription, entry),
        Reply::Elsewhere { shard } if shard.0 < u16::from(config.shards()) => {
            goes_on(alloc, following_on(config, *shard, subscription))
        }
        _ => ends(alloc, reply),
    }
}

/// The answer of the replica of the told shard.
pub fn after_told(
    alloc: Global,
    config: &Config,
    subscription: &Subscription,
    reply: &Reply,
) -> Result<Course, Memory>
    requires subscription { IsSubscription (shape config.now) subscription.now }
    requires single { IsSingle reply.now }
    ensures { IfOk result (λ course. course ≡ course_of (shape config.now) (Awaited.StreamingOn subscription.now) reply.now) }
{
    match reply {
        Reply::Found { entry, .. } => after_found(alloc, config, subscription, entry),
        _ => ends(alloc, reply),
    }
}

/// The replica of the same number in another shard is asked for the position.
fn following_on(config: &Config, shard: Shard, subscription: &Subscription) -> Duty
    requires shard { shard.0 < (shape config.now).shards }
    requires subscription { IsSubscription (shape config.now) subscription.now }
    ensures { result ≡ following_on (shape config.now) shard.0 subscription.now }
{
    reading(
        config,
        shard,
        subscription.replica,
        subscription.client,
        subscription.position,
        Awaited::StreamingOn(*subscription),
    )
}

/// An entry is taken, or left out.
fn after_found(
    alloc: Global,
    config: &Config,
    subscription: &Subscription,
    entry: &Entry,
) -> Result<Course, Memory>
    requires { IsSubscription (shape config.now) subscription.now }
    ensures { IfOk result (λ course. course ≡ found (shape config.now) subscription.now entry.now) }
{
    if is_taken(subscription, entry) {
        with_entry(alloc, config, subscription, entry)
    } else {
        Ok(Course::Ends(Reply::Nothing))
    }
}

/// Whether an entry is taken.
fn is_taken(subscription: &Subscription, entry: &Entry) -> bool
    ensures { result ≡ is_taken subscription.now entry.now }
{
    subscription.position.0 < 2_147_483_648 && entry_size(entry) <= u64::from(subscription.room)
}

/// How many bytes spell an entry in a reply.
#[tactic(auto, unfolding(log_base::specs::Wide::be2, log_base::specs::Wide::be4, log_base::specs::Wide::be8))]
fn entry_size(entry: &Entry) -> u64
    ensures { result ≡ length (entry_bytes entry.now) }
{
    entry.bytes.get().len() as u64 + 14
}

/// An entry is taken, and the next position is asked for, or the count is reached. The entry is copied.
fn with_entry(
    alloc: Global,
    config: &Config,
    subscription: &Subscription,
    entry: &Entry,
) -> Result<Course, Memory>
    requires subscription { IsSubscription (shape config.now) subscription.now }
    requires taken { is_taken subscription.now entry.now ≡ true }
    ensures { IfOk result (λ course. course ≡ with_entry (shape config.now) subscription.now entry.now) }
{
    let position = subscription.position;
    let copy = copy_entry(alloc, entry)?;
    if subscription.count <= 1 {
        return Ok(Course::Completes {
            position,
            entry: copy,
        });
    }
    let next = following(config, moved_on(subscription, entry));
    Ok(Course::Takes {
        position,
        entry: copy,
        next,
    })
}

/// The subscription at the next position, once an entry is taken.
fn moved_on(subscription: &Subscription, entry: &Entry) -> Subscription
    requires taken { is_taken subscription.now entry.now ≡ true }
    requires more { wants_more subscription.now ≡ true }
    ensures { result ≡ moved_on subscription.now entry.now }
{
    Subscription {
        shard: subscription.shard,
        replica: subscription.replica,
        client: subscription.client,
        position: Position(subscription.position.0 + 1),
        count: subscription.count - 1,
        room: subscription.room - entry_size(entry) as u32,
    }
}

/// The stream ends with an answer.
fn ends(alloc: Global, reply: &Reply) -> Result<Course, Memory>
    requires { IsSingle reply.now }
    ensures { IfOk result (λ course. course ≡ Course.Ends reply.now) }
{
    Ok(Course::Ends(copy_reply(alloc, reply)?))
}
