//! The lanes of a run, each a client with a session of its own.

ghost use Rattle.std.specs.Prelude.{◌≡◌, ◌-◌, ◌<◌, ◌≤◌, [], length, map, replicate, slice_set, IfOk, IfSome};
ghost use Rattle.client_session.specs.Sessions.{after_draw, pair_at};
ghost use Rattle.command_frame.specs.Items.{IsItem};
ghost use Rattle.log_base.specs.ClusterShape.{Shape};
ghost use Rattle.serial_schedule.specs.Lanes.{fresh_lanes, lane_at};
ghost use Rattle.schedule_model.specs.Scheduling.{records_after};

use client_session::{Pair, Session};
use command_frame::Item;
use log_base::{Client, Memory, NodeId};
use std::alloc::Global;

/// How many lanes there are.
const LANES: u16 = 64;

/// The sessions of all lanes, which have drawn nothing yet.
pub fn fresh_lanes(alloc: Global, run: u32) -> Result<Vec<Session>, Memory>
    requires { run ≤ 1000000 }
    ensures { IfOk result (λ lanes. lanes.items ≡ fresh_lanes run 64) }
{
    let mut lanes = Vec::with_capacity(alloc, usize::from(LANES))?;
    for lane in 0..LANES {
        lanes.push_reserved(Session::new(Client(lane), run));
    }
    Ok(lanes)
}

/// A lane draws the next pair, for an append at a node.
pub fn draw(lanes: &mut Vec<Session>, lane: u8, primary: NodeId) -> Pair
    requires lane { lane < length lanes.old.items }
    requires room { (lane_at lanes.old.items lane).draws < 65536 }
    ensures pair { result ≡ pair_at (lane_at lanes.old.items lane).client (lane_at lanes.old.items lane).run (lane_at lanes.old.items lane).draws primary.0 }
    ensures drawn { lanes.new.items ≡ slice_set lanes.old.items lane (after_draw (lane_at lanes.old.items lane) primary.0) }
{
    lanes[usize::from(lane)].draw(primary)
}

/// The pair that a lane drew last, if it drew one.
pub fn last_pair(lanes: &Vec<Session>, lane: u8) -> Option<Pair>
    requires { lane < length lanes.now.items }
    ensures last { result ≡ (lane_at lanes.now.items lane).last }
    ensures pair { IfSome result (λ pair. pair
        ≡ pair_at (lane_at lanes.now.items lane).client (lane_at lanes.now.items lane).run ((lane_at lanes.now.items lane).draws - 1) pair.node.0) }
{
    lanes[usize::from(lane)].last()
}

/// Keeps the record of an append as its lane's last.
pub fn keep_record<'a>(records: &mut Vec<&'a [u8]>, item: &'a Item)
    requires all { length records.old.items ≡ 64 }
    requires item { (config : Shape) × IsItem config item.now }
    ensures { map (λ r. r.now) records.new.items ≡ records_after item.now (map (λ r. r.now) records.old.items) }
{
    if let Item::Append { lane, bytes, .. } = item {
        records[usize::from(*lane)] = bytes.get();
    }
}

/// No lane has a record.
pub fn no_records<'a>(alloc: Global) -> Result<Vec<&'a [u8]>, Memory>
    ensures { IfOk result (λ records. map (λ r. r.now) records.items ≡ replicate 64 []) }
{
    let none: &'a [u8] = &[];
    Ok(vec![in alloc; none; usize::from(LANES)]?)
}
