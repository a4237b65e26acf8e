//! Reading an item from the body of its frame.

ghost use Rattle.std.specs.Prelude.{◌≡◌, ◌≢◌, ◌<◌, ◌≤◌, length, drop, slice_index, nat_lt, IfOk};
ghost use Rattle.log_base.specs.Shape.{shape};
ghost use Rattle.command_frame.specs.Items.{IsReading};
ghost use Rattle.command_frame.specs.Reading.{names_shard, names_replica, append_of, read_of, subscribe_of, trim_of, add_of, finalise_of, ask_of, item_of};

use crate::items::Item;
use fault_script::read_fault;
use log_base::{Bytes, Config, Position, Replica, Shard, number_u16, number_u64};
use std::alloc::{AllocError, Global};

/// The item that a kind and a body, as they stand in a frame, spell of the config, if they spell one.
pub fn read_item(alloc: Global, config: &Config, content: &[u8]) -> Result<Option<Item>, AllocError>
    requires { 0 < length content.now }
    ensures { IfOk result (λ item. IsReading (shape config.now) (slice_index content.now 0) (drop 1 content.now) item) }
{
    let (kind, body) = content.split_at(1);
    match kind[0] {
        8 => Ok(read_line(config, body)),
        kind => read_command(alloc, config, kind, body),
    }
}

/// The fault that a lane and a line spell.
fn read_line(config: &Config, body: &[u8]) -> Option<Item>
    ensures { IsReading (shape config.now) 8 body.now result }
{
    if body.is_empty() {
        return None;
    }
    let (lane, line) = body.split_at(1);
    let lane = lane[0];
    if lane >= 64 {
        return None;
    }
    match read_fault(config, line) {
        Ok(fault) => return Some(Item::Fault { lane, fault }),
        Err(_) => return None,
    }
}

/// The item of a kind other than a fault's.
fn read_command(
    alloc: Global,
    config: &Config,
    kind: u8,
    body: &[u8],
) -> Result<Option<Item>, AllocError>
    requires { kind ≢ 8 }
    ensures { IfOk result (λ item. IsReading (shape config.now) kind body.now item) }
{
    read_kind(alloc, config, kind, body)
}

#[tactic(auto, unfolding(crate::specs::Reading::item_of))]
fn read_kind(
    alloc: Global,
    config: &Config,
    kind: u8,
    body: &[u8],
) -> Result<Option<Item>, AllocError>
    ensures { IfOk result (λ item. item ≡ item_of (shape config.now) kind body.now) }
{
    match kind {
        1 => read_append(alloc, config, body),
        2 => Ok(read_read(config, body)),
        3 => Ok(read_subscribe(config, body)),
        4 => Ok(read_trim(body)),
        5 => Ok(read_add(config, body)),
        6 => Ok(read_finalise(config, body)),
        7 => Ok(read_ask(body)),
        _ => Ok(None),
    }
}

fn is_of_shard(config: &Config, body: &[u8]) -> bool
    requires { 3 ≤ length body.now }
    ensures { result ≡ names_shard (shape config.now) body.now }
{
    body[0] < 64 && number_u16(body, 1) < u16::from(config.shards())
}

fn is_of_replica(config: &Config, body: &[u8]) -> bool
    requires { 4 ≤ length body.now }
    ensures { result ≡ names_replica (shape config.now) body.now }
{
    is_of_shard(config, body) && body[3] < config.replicas()
}

#[tactic(auto, unfolding(crate::specs::Reading::append_of))]
fn read_append(alloc: Global, config: &Config, body: &[u8]) -> Result<Option<Item>, AllocError>
    ensures { IfOk result (λ item. item ≡ append_of (shape config.now) body.now) }
{
    if body.len() < 4 || body.len() > 65_539 || !is_of_replica(config, body) {
        return Ok(None);
    }
    Ok(Some(Item::Append {
        lane: body[0],
        shard: Shard(number_u16(body, 1)),
        replica: Replica(body[3]),
        bytes: Bytes::of(Vec::from_slice(alloc, &body[4..])?),
    }))
}

#[tactic(auto, unfolding(crate::specs::Reading::read_of))]
fn read_read(config: &Config, body: &[u8]) -> Option<Item>
    ensures { result ≡ read_of (shape config.now) body.now }
{
    if body.len() != 12 || !is_of_replica(config, body) {
        return None;
    }
    Some(Item::Read {
        lane: body[0],
        shard: Shard(number_u16(body, 1)),
        replica: Replica(body[3]),
        position: Position(number_u64(body, 4)),
    })
}

#[tactic(auto, unfolding(crate::specs::Reading::subscribe_of))]
fn read_subscribe(config: &Config, body: &[u8]) -> Option<Item>
    ensures { result ≡ subscribe_of (shape config.now) body.now }
{
    if body.len() != 14 || !is_of_replica(config, body) {
        return None;
    }
    let count = number_u16(body, 12);
    if count < 1 || count > 4_096 {
        return None;
    }
    Some(Item::Subscribe {
        lane: body[0],
        shard: Shard(number_u16(body, 1)),
        replica: Replica(body[3]),
        from: Position(number_u64(body, 4)),
        count,
    })
}

#[tactic(auto, unfolding(crate::specs::Reading::trim_of))]
fn read_trim(body: &[u8]) -> Option<Item>
    ensures { result ≡ trim_of body.now }
{
    if body.len() != 9 || body[0] >= 64 {
        return None;
    }
    Some(Item::Trim {
        lane: body[0],
        position: Position(number_u64(body, 1)),
    })
}

#[tactic(auto, unfolding(crate::specs::Reading::add_of))]
fn read_add(config: &Config, body: &[u8]) -> Option<Item>
    ensures { result ≡ add_of (shape config.now) body.now }
{
    if body.len() != 3 || !is_of_shard(config, body) {
        return None;
    }
    Some(Item::Add {
        lane: body[0],
        shard: Shard(number_u16(body, 1)),
    })
}

#[tactic(auto, unfolding(crate::specs::Reading::finalise_of))]
fn read_finalise(config: &Config, body: &[u8]) -> Option<Item>
    ensures { result ≡ finalise_of (shape config.now) body.now }
{
    if body.len() != 3 || !is_of_shard(config, body) {
        return None;
    }
    Some(Item::Finalise {
        lane: body[0],
        shard: Shard(number_u16(body, 1)),
    })
}

#[tactic(auto, unfolding(crate::specs::Reading::ask_of))]
fn read_ask(body: &[u8]) -> Option<Item>
    ensures { result ≡ ask_of body.now }
{
    if body.len() != 1 || body[0] >= 64 {
        return None;
    }
    Some(Item::Ask { lane: body[0] })
}
