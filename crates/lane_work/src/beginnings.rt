//! How items begin.

ghost use Rattle.std.specs.Prelude.{◌≡◌, ◌<◌, IfOk, OnOk};
ghost use Rattle.log_base.specs.Shape.{shape};
ghost use Rattle.client_session.specs.Sessions.{after_draw};
ghost use Rattle.command_frame.specs.Items.{IsItem};
ghost use Rattle.serial_schedule.specs.Lanes.{submitted};
ghost use Rattle.schedule_model.specs.Streams.{nothing_taken};
ghost use Rattle.lane_work.specs.Stages.{after_item, asks_first, asks_last, begun, unplaced_stage};

use crate::stages::{Asking, Due, Stage};
use client_session::{Pair, Session};
use command_frame::Item;
use item_course::{enquiry, following, submission, subscription_at};
use log_base::{Bytes, Client, Config, Memory, NodeId, Position};
use node_table::storage;
use record_frame::Value;
use reply_frame::Reply;
use schedule_model::Duty;
use serial_schedule::{first_reading, wish};
use std::alloc::Global;
use subscriber::Subscriber;

/// Begins an item. An append draws its lane's next pair.
pub(crate) fn begin(
    alloc: Global,
    config: &Config,
    session: &mut Session,
    item: &Item,
) -> Result<Stage, Memory>
    requires item { IsItem (shape config.now) item.now }
    requires room { session.old.draws < 65536 }
    ensures stage { IfOk result (λ stage. unplaced_stage stage ≡ begun (shape config.now) session.old item.now) }
    ensures session { OnOk result (session.new ≡ after_item (shape config.now) session.old item.now) }
{
    match item {
        Item::Append {
            shard,
            replica,
            bytes,
            ..
        } => append(alloc, session, storage(config, *shard, *replica), bytes),
        Item::Read {
            lane,
            shard,
            replica,
            position,
        } => Ok(asks_first(
            alloc,
            first_reading(config, *shard, *replica, client_of(*lane), *position),
        )),
        Item::Subscribe {
            lane,
            shard,
            replica,
            from,
            count,
        } => {
            let first = subscription_at(*shard, *replica, client_of(*lane), *from, *count);
            Ok(asks_taking(Subscriber::new(alloc, *from), following(config, first)))
        }
        Item::Trim { lane, position } => Ok(asks_first(
            alloc,
            wish(config, *lane, Value::Trim(*position)),
        )),
        Item::Add { lane, shard } => Ok(asks_first(alloc, wish(config, *lane, Value::Add(*shard)))),
        Item::Finalise { lane, shard } => Ok(asks_first(
            alloc,
            wish(config, *lane, Value::Finalise(*shard)),
        )),
        Item::Ask { .. } => Ok(asks_last(alloc, session.last())),
        Item::Fault { .. } => Ok(Stage::Replied(Reply::Nothing)),
    }
}

/// The client of a lane.
fn client_of(lane: u8) -> Client
    ensures { result.0 ≡ lane }
{
    Client(u16::from(lane))
}

/// A pair is drawn, and the record is submitted under it. The bytes are copied.
fn append(
    alloc: Global,
    session: &mut Session,
    primary: NodeId,
    bytes: &Bytes,
) -> Result<Stage, Memory>
    requires { session.old.draws < 65536 }
    ensures stage { IfOk result (λ stage. stage ≡ asks_first nothing_taken (submitted session.old primary bytes.now)) }
    ensures session { OnOk result (session.new ≡ after_draw session.old primary.0) }
{
    let copy = Vec::from_slice(alloc, bytes.get())?;
    let pair = session.draw(primary);
    Ok(asks_first(alloc, submission(&pair, copy)))
}

/// The primary of the last append is asked where it stands.
fn asks_last(alloc: Global, last: Option<Pair>) -> Stage
    ensures { result ≡ asks_last last }
{
    match last {
        Some(pair) => asks_first(alloc, enquiry(pair.node, pair.client, pair.number)),
        None => Stage::Replied(Reply::NothingKept),
    }
}

/// An item that subscribes to nothing begins with a call.
fn asks_first(alloc: Global, duty: Duty) -> Stage
    ensures { result ≡ asks_first nothing_taken duty }
{
    asks_taking(Subscriber::new(alloc, Position(0)), duty)
}

/// An item begins with a call.
fn asks_taking(taken: Subscriber, duty: Duty) -> Stage
    ensures { result ≡ asks_first taken duty }
{
    match duty {
        Duty::MakeCall {
            node,
            call,
            awaited,
        } => Stage::Asks(Asking {
            due: Due {
                node,
                call,
                awaited,
            },
            again: 0,
            taken,
        }),
        Duty::Give { .. } | Duty::DeliverAll | Duty::DeliverOne { .. } => Stage::Replied(
            Reply::Nothing,
        ),
    }
}
