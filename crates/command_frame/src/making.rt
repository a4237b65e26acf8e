//! Making items from a seed.

ghost use Rattle.std.specs.Prelude.{◌≡◌, ◌+◌, ◌*◌, ◌<◌, ◌≤◌, [], ◌∷◌, ◌++◌, map, vec_len, vec_capacity, IsOk, OnOk, OnErr};
ghost use Rattle.std.specs.List.{range_with_len};
ghost use Rattle.log_base.specs.Shape.{shape};
ghost use Rattle.log_base.specs.Wide.{be2};
ghost use Rattle.command_frame.specs.Items.{item_spelling};
ghost use Rattle.command_frame.specs.Making.{addition, additions, drawn_lane, drawn_replica, drawn_shard, letter, made_item, made_items, next_number};

use crate::items::Item;
use log_base::{Config, Memory, Position, Replica, Shard, put_u8, put_u16, put_u32, put_u64};

/// The most bytes of the addition of a shard, and of an item that is made.
const LONGEST_ADDITION: usize = 8;

const LONGEST_MADE: usize = 33;

/// Whom an item is for, and from which lane.
#[derive(Clone, Copy)]
struct Target {
    lane: u8,
    shard: Shard,
    replica: Replica,
}

/// Appends the additions of all shards, and as many items behind them as are counted, made from the seed.
pub fn make(config: &Config, seed: u32, count: u32, out: &mut Vec<u8>) -> Result<(), Memory>
    requires some { 1 ≤ count }
    requires most { count ≤ 60000 }
    ensures ok { OnOk result (out.new.items ≡ out.old.items ++ additions (shape config.now) ++ made_items (shape config.now) seed count) }
    ensures err { OnErr result (out.new.items ≡ out.old.items) }
    ensures room { vec_len out.old + 8 * (shape config.now).shards + 33 * count ≤ vec_capacity out.old → IsOk result }
{
    let additions = usize::from(config.shards()) * LONGEST_ADDITION;
    out.reserve(additions + count as usize * LONGEST_MADE)?;
    put_additions(config, out);
    put_made(config, seed, count, out);
    Ok(())
}

/// Appends the addition of each shard.
fn put_additions(config: &Config, out: &mut Vec<u8>)
    requires { vec_len out.old + 8 * (shape config.now).shards ≤ vec_capacity out.old }
    ensures items { out.new.items ≡ out.old.items ++ additions (shape config.now) }
    ensures len { vec_len out.new ≡ vec_len out.old + 8 * (shape config.now).shards }
    ensures capacity { vec_capacity out.old ≤ vec_capacity out.new }
{
    for shard in 0..config.shards() {
        put_addition(shard, out);
    }
}

/// Appends the addition of a shard.
fn put_addition(shard: u8, out: &mut Vec<u8>)
    requires { vec_len out.old + 8 ≤ vec_capacity out.old }
    ensures items { out.new.items ≡ out.old.items ++ addition shard }
    ensures len { vec_len out.new ≡ vec_len out.old + 8 }
    ensures capacity { vec_capacity out.old ≤ vec_capacity out.new }
{
    put_u32(4, out);
    put_u8(5, out);
    put_u8(0, out);
    put_u16(u16::from(shard), out);
}

/// Appends the items that are made, for which there has to be room.
fn put_made(config: &Config, seed: u32, count: u32, out: &mut Vec<u8>)
    requires most { count ≤ 60000 }
    requires room { vec_len out.old + 33 * count ≤ vec_capacity out.old }
    ensures { out.new.items ≡ out.old.items ++ made_items (shape config.now) seed count }
{
    let mut number = u64::from(seed);
    for place in 0..count {
        number = next(number);
        put_item(config, place, (number >> 33) as u32, out);
    }
}

/// The number after this one.
fn next(number: u64) -> u64
    ensures { result ≡ next_number number }
{
    number
        .wrapping_mul(6_364_136_223_846_793_005)
        .wrapping_add(1_442_695_040_888_963_407)
}

/// Appends the item in a place.
#[tactic(auto, unfolding(crate::specs::Making::made_item))]
fn put_item(config: &Config, place: u32, draw: u32, out: &mut Vec<u8>)
    requires places { place < 60000 }
    requires room { vec_len out.old + 33 ≤ vec_capacity out.old }
    ensures items { out.new.items ≡ out.old.items ++ made_item (shape config.now) place draw }
    ensures len { vec_len out.new ≤ vec_len out.old + 33 }
    ensures capacity { vec_capacity out.old ≤ vec_capacity out.new }
{
    let target = Target::drawn(config, draw);
    let position = Position(u64::from(draw / 8 % (place + 1)));
    match draw % 8 {
        0..6 => put_append(target, place, 1 + draw / 1024 % 24, out),
        6 => put_read(target, position, out),
        _ => put_subscription(target, position, 4, out),
    }
}

impl Target {
    fn drawn(config: &Config, draw: u32) -> Target
        ensures lane { result.lane ≡ drawn_lane draw }
        ensures shard { result.shard.0 ≡ drawn_shard (shape config.now) draw }
        ensures replica { result.replica.0 ≡ drawn_replica (shape config.now) draw }
    {
        Target {
            lane: (draw / 8 % 4) as u8,
            shard: Shard((draw / 32 % u32::from(config.shards())) as u16),
            replica: Replica((draw / 256 % u32::from(config.replicas())) as u8),
        }
    }
}

/// Appends an append of letters, which go on from that of the place.
fn put_append(target: Target, place: u32, count: u32, out: &mut Vec<u8>)
    requires places { place < 60000 }
    requires few { count ≤ 24 }
    requires room { vec_len out.old + count + 9 ≤ vec_capacity out.old }
    ensures items { out.new.items ≡ out.old.items
        ++ item_spelling (Item.Append target.lane target.shard target.replica (map (letter place) (range_with_len 0 count))) }
    ensures len { vec_len out.new ≡ vec_len out.old + count + 9 }
    ensures capacity { vec_capacity out.old ≤ vec_capacity out.new }
{
    put_u32(count + 5, out);
    put_target(1, target, out);
    put_letters(place, count, out);
}

/// Appends a read.
fn put_read(target: Target, position: Position, out: &mut Vec<u8>)
    requires { vec_len out.old + 17 ≤ vec_capacity out.old }
    ensures items { out.new.items ≡ out.old.items ++ item_spelling (Item.Read target.lane target.shard target.replica position) }
    ensures len { vec_len out.new ≡ vec_len out.old + 17 }
    ensures capacity { vec_capacity out.old ≤ vec_capacity out.new }
{
    put_u32(13, out);
    put_target(2, target, out);
    put_u64(position.0, out);
}

/// Appends a subscription.
fn put_subscription(target: Target, from: Position, count: u16, out: &mut Vec<u8>)
    requires { vec_len out.old + 19 ≤ vec_capacity out.old }
    ensures items { out.new.items ≡ out.old.items ++ item_spelling (Item.Subscribe target.lane target.shard target.replica from count) }
    ensures len { vec_len out.new ≡ vec_len out.old + 19 }
    ensures capacity { vec_capacity out.old ≤ vec_capacity out.new }
{
    put_u32(15, out);
    put_target(3, target, out);
    put_u64(from.0, out);
    put_u16(count, out);
}

/// Appends a kind, a lane, a shard and a replica.
fn put_target(kind: u8, target: Target, out: &mut Vec<u8>)
    requires { vec_len out.old + 5 ≤ vec_capacity out.old }
    ensures items { out.new.items ≡ out.old.items ++ (kind ∷ target.lane ∷ be2 target.shard.0 ++ target.replica.0 ∷ []) }
    ensures len { vec_len out.new ≡ vec_len out.old + 5 }
    ensures capacity { vec_capacity out.old ≤ vec_capacity out.new }
{
    put_u8(kind, out);
    put_u8(target.lane, out);
    put_u16(target.shard.0, out);
    put_u8(target.replica.0, out);
}

/// Appends letters, which go on from that of the place.
fn put_letters(place: u32, count: u32, out: &mut Vec<u8>)
    requires places { place < 60000 }
    requires few { count ≤ 24 }
    requires room { vec_len out.old + count ≤ vec_capacity out.old }
    ensures items { out.new.items ≡ out.old.items ++ map (letter place) (range_with_len 0 count) }
    ensures len { vec_len out.new ≡ vec_len out.old + count }
    ensures capacity { vec_capacity out.old ≤ vec_capacity out.new }
{
    for index in 0..count {
        put_u8(b'a' + ((place + index) % 26) as u8, out);
    }
}
