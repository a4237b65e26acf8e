//! The lanes of items.

ghost use Rattle.std.specs.Prelude.{◌≡◌, ◌<◌, ◌≤◌, ℕ, slice_get, IfOk, Some};
ghost use Rattle.cluster_run.specs.Ordering.{AreLanes};
ghost use Rattle.cluster_run.specs.Runs.{lanes_in};

use command_frame::Item;
use lane_work::lane_of;
use log_base::Memory;
use std::alloc::Global;

/// The lanes of items, in the items' order.
pub fn lanes_of(alloc: Global, items: &[Item]) -> Result<Vec<u8>, Memory>
    ensures { IfOk result (λ lanes. lanes.items ≡ lanes_in items.now) }
{
    let mut lanes = Vec::with_capacity(alloc, items.len())?;
    for item in items {
        lanes.push_reserved(lane_of(item));
    }
    Ok(lanes)
}

/// How many lanes there are, from 0 to the greatest that is named.
pub(crate) fn count_lanes(lanes: &[u8]) -> u8
    requires few { (k lane : ℕ) → slice_get lanes.now k ≡ Some lane → lane < 64 }
    ensures lanes { AreLanes lanes.now result }
    ensures few { result ≤ 64 }
{
    let mut count = 0u8;
    for lane in lanes {
        if *lane >= count {
            count = *lane + 1;
        }
    }
    count
}
