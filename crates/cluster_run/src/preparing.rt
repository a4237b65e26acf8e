//! What a run takes memory for before it begins.

ghost use Rattle.std.specs.Prelude.{◌≡◌, ◌+◌, ◌≤◌, [], length, vec_capacity, IfOk};
ghost use Rattle.cluster_run.specs.Ordering.{AreLanes};
ghost use Rattle.cluster_run.specs.Runs.{lanes_in};
ghost use Rattle.lane_work.specs.OwnItems.{AreItems};
ghost use Rattle.log_base.specs.ClusterShape.{Shape};

use crate::lanes::{count_lanes, lanes_of};
use crate::running::{Room, room_for};
use command_frame::Item;
use log_base::Memory;
use reply_frame::Reply;
use std::alloc::Global;

/// The lanes of the items, how many there are, and room for their passes and for the replies.
#[derive(Drop)]
pub(crate) struct Prepared<T> {
    pub(crate) lanes: Vec<u8>,
    pub(crate) count: u8,
    pub(crate) room: Room<T>,
    pub(crate) replies: Vec<Reply>,
}

/// Makes all memory that is known before the run begins.
pub(crate) fn prepare<T: Drop>(
    alloc: Global,
    items: &[Item],
    workers: u8,
) -> Result<Prepared<T>, Memory>
    requires items { (config : Shape) × AreItems config items.now }
    ensures lanes { IfOk result (λ made. made.lanes.items ≡ lanes_in items.now) }
    ensures count { IfOk result (λ made. AreLanes (lanes_in items.now) made.count × (made.count ≤ 64)) }
    ensures empty { IfOk result (λ made. (made.replies.items ≡ []) × (made.room.lanes.items ≡ []) × (made.room.others.items ≡ []) × (made.room.all.items ≡ [])) }
    ensures replies { IfOk result (λ made. length (lanes_in items.now) ≤ vec_capacity made.replies) }
    ensures passes { IfOk result (λ made. (made.count ≤ vec_capacity made.room.lanes) × (workers + 1 ≤ vec_capacity made.room.others) × (made.count + workers + 1 ≤ vec_capacity made.room.all)) }
{
    let lanes = lanes_of(alloc, items)?;
    let count = count_lanes(&lanes);
    let room = room_for(alloc, count, workers)?;
    let replies = Vec::with_capacity(alloc, lanes.len())?;
    Ok(Prepared {
        lanes,
        count,
        room,
        replies,
    })
}
