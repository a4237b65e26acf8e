//! How items begin.

ghost use Rattle.std.specs.Prelude.{◌≡◌, ◌<◌, ◌∷◌, length, map, slice_set, Some, OnOk, OnErr};
ghost use Rattle.log_base.specs.Shape.{shape};
ghost use Rattle.client_session.specs.Sessions.{after_draw};
ghost use Rattle.command_frame.specs.Items.{IsItem, IsNoFault};
ghost use Rattle.command_frame.specs.Streams.{unplaced};
ghost use Rattle.subscriber.specs.Following.{Following};
ghost use Rattle.schedule_model.specs.Courses.{Scene, beginning, client_of, reading_at, request};
ghost use Rattle.serial_schedule.specs.Keeping.{HasRoom};
ghost use Rattle.serial_schedule.specs.Lanes.{AreLanes, draws_of, lane_at, primaries_of, run_of, submitted};
ghost use Rattle.item_course.specs.Pairs.{asked_of};
ghost use Rattle.schedule_model.specs.Noting.{duties_with, replies_with};
ghost use Rattle.schedule_model.specs.Scheduling.{drawn, primaries_after, stream_before};

use crate::lanes::{draw, last_pair};
use client_session::{Pair, Session};
use command_frame::{Item, Reply};
use item_course::{enquiry, following, reading, request, submission, subscription_at};
use log_base::{Bytes, Client, Config, Memory, NodeId, Position, Replica, Shard};
use node_table::storage;
use record_frame::Value;
use schedule_model::{Awaited, Duty};
use std::alloc::Global;
use std::collections::VecDeque;
use subscriber::Subscriber;

/// Begins an item that is no fault: what it calls for comes before all that is due, or it has its reply at once.
pub fn begin_item(
    alloc: Global,
    config: &Config,
    item: &Item,
    lanes: &mut Vec<Session>,
    duties: &mut VecDeque<Duty>,
    replies: &mut Vec<Reply>,
) -> Result<(), Memory>
    requires item { IsItem (shape config.now) item.now }
    requires no_fault { IsNoFault item.now }
    requires lanes { AreLanes lanes.old.items }
    requires room { HasRoom (draws_of lanes.old.items) item.now }
    ensures lanes { OnOk result (AreLanes lanes.new.items × (run_of lanes.new.items ≡ run_of lanes.old.items)) }
    ensures draws { OnOk result (draws_of lanes.new.items ≡ drawn item.now (draws_of lanes.old.items)) }
    ensures primaries { OnOk result (primaries_of lanes.new.items ≡ primaries_after (shape config.now) item.now (primaries_of lanes.old.items)) }
    ensures duties { OnOk result ((scene : Scene) → duties.new.items ≡ duties_with
        (Some (beginning (shape config.now) (run_of lanes.old.items) (draws_of lanes.old.items) (primaries_of lanes.old.items) scene item.now)) duties.old.items) }
    ensures replies { OnOk result ((taken : Following) (scene : Scene) → map unplaced replies.new.items ≡ replies_with
        (Some (beginning (shape config.now) (run_of lanes.old.items) (draws_of lanes.old.items) (primaries_of lanes.old.items) scene item.now)) taken
        (map unplaced replies.old.items)) }
    ensures same_lanes { OnErr result (lanes.new.items ≡ lanes.old.items) }
    ensures same_duties { OnErr result (duties.new.items ≡ duties.old.items) }
    ensures same_replies { OnErr result (replies.new.items ≡ replies.old.items) }
{
    match item {
        Item::Append {
            lane,
            shard,
            replica,
            bytes,
        } => {
            let primary = storage(config, *shard, *replica);
            submit(alloc, lanes, *lane, primary, bytes, duties)
        }
        Item::Read {
            lane,
            shard,
            replica,
            position,
        } => {
            let client = client_of(*lane);
            put_first(
                first_reading(config, *shard, *replica, client, *position),
                duties,
            )
        }
        Item::Subscribe {
            lane,
            shard,
            replica,
            from,
            count,
        } => {
            let first = subscription_at(*shard, *replica, client_of(*lane), *from, *count);
            put_first(following(config, first), duties)
        }
        Item::Trim { lane, position } => put_first(
            wish(config, *lane, Value::Trim(*position)),
            duties,
        ),
        Item::Add { lane, shard } => put_first(wish(config, *lane, Value::Add(*shard)), duties),
        Item::Finalise { lane, shard } => put_first(
            wish(config, *lane, Value::Finalise(*shard)),
            duties,
        ),
        Item::Ask { lane } => ask(&last_pair(lanes, *lane), duties, replies),
        Item::Fault { .. } => unreachable!(),
    }
}

/// A subscription takes the entries of the positions from its first on.
pub fn follow_from(alloc: Global, subscriber: &mut Subscriber, item: &Item)
    ensures { subscriber.new ≡ stream_before item.now subscriber.old }
{
    if let Item::Subscribe { from, .. } = item {
        *subscriber = Subscriber::new(alloc, *from);
    }
}

/// The client of a lane.
fn client_of(lane: u8) -> Client
    ensures { result.0 ≡ lane }
{
    Client(u16::from(lane))
}

/// The replica that an item names is asked for the entry at a position.
pub fn first_reading(
    config: &Config,
    shard: Shard,
    replica: Replica,
    client: Client,
    position: Position,
) -> Duty
    requires shard { shard.0 < (shape config.now).shards }
    requires replica { replica.0 < (shape config.now).replicas }
    ensures { result ≡ reading_at (shape config.now) shard.0 replica client position (Awaited.Reading replica client position) }
{
    let awaited = Awaited::Reading {
        replica,
        client,
        position,
    };
    reading(config, shard, replica, client, position, awaited)
}

/// A value is requested of orderer 0 on a lane.
pub fn wish(config: &Config, lane: u8, value: Value) -> Duty
    ensures { result ≡ request (shape config.now) 0 (client_of lane) value }
{
    request(config, 0, client_of(lane), &value)
}

/// The node of the pair that a lane drew last is asked where its append stands, if there is one.
fn ask(
    last: &Option<Pair>,
    duties: &mut VecDeque<Duty>,
    replies: &mut Vec<Reply>,
) -> Result<(), Memory>
    ensures duties { OnOk result (duties.new.items ≡ duties_with (Some (asked_of last.now)) duties.old.items) }
    ensures replies { OnOk result ((taken : Following)
        → map unplaced replies.new.items ≡ replies_with (Some (asked_of last.now)) taken (map unplaced replies.old.items)) }
    ensures same_duties { OnErr result (duties.new.items ≡ duties.old.items) }
    ensures same_replies { OnErr result (replies.new.items ≡ replies.old.items) }
{
    match last {
        Some(pair) => put_first(enquiry(pair.node, pair.client, pair.number), duties),
        None => {
            replies.push(Reply::NothingKept)?;
            Ok(())
        }
    }
}

/// A lane draws a pair, and its record is submitted to the primary. The bytes are copied.
fn submit(
    alloc: Global,
    lanes: &mut Vec<Session>,
    lane: u8,
    primary: NodeId,
    bytes: &Bytes,
    duties: &mut VecDeque<Duty>,
) -> Result<(), Memory>
    requires lane { lane < length lanes.old.items }
    requires room { (lane_at lanes.old.items lane).draws < 65536 }
    ensures drawn { OnOk result (lanes.new.items ≡ slice_set lanes.old.items lane (after_draw (lane_at lanes.old.items lane) primary.0)) }
    ensures due { OnOk result (duties.new.items ≡ submitted (lane_at lanes.old.items lane) primary bytes.now ∷ duties.old.items) }
    ensures same_lanes { OnErr result (lanes.new.items ≡ lanes.old.items) }
    ensures same_duties { OnErr result (duties.new.items ≡ duties.old.items) }
{
    let copy = Vec::from_slice(alloc, bytes.get())?;
    duties.reserve(1)?;
    let pair = draw(lanes, lane, primary);
    duties.push_front_reserved(submission(&pair, copy));
    Ok(())
}

/// Puts a duty before others.
fn put_first(duty: Duty, duties: &mut VecDeque<Duty>) -> Result<(), Memory>
    ensures ok { OnOk result (duties.new.items ≡ duty ∷ duties.old.items) }
    ensures err { OnErr result (duties.new.items ≡ duties.old.items) }
{
    duties.reserve(1)?;
    duties.push_front_reserved(duty);
    Ok(())
}
