//! The reports of two shards of two replicas.

use crate::*;
use log_base::{Config, Replica, Shard};
use record_frame::Lengths;
use std::test::Fail;

fn lengths(first: u32, second: u32) -> Lengths {
    let mut length = [0; 32];
    length[0] = first;
    length[1] = second;
    Lengths { count: 2, length }
}

// Shard 1 has the pairs below, and shard 0 nothing.
#[test]
fn the_least_of_all_replicas(rt: HostRuntime) -> Result<(), Fail> {
    let config = Config::new(2, 2, 1, 1)?;
    let mut reports = Reports::new(&config, 0);
    reports.note(Shard(1), Replica(0), &lengths(3, 1));
    assert_eq!(rt; reports.least(Shard(1)), None);
    reports.note(Shard(1), Replica(1), &lengths(2, 4));
    reports.note(Shard(1), Replica(1), &lengths(1, 5));
    assert_eq!(rt; reports.least(Shard(1)), Some(lengths(2, 1)));
    assert_eq!(rt; reports.least(Shard(0)), None);
    reports.reset();
    assert_eq!(rt; reports.least(Shard(1)), None);
    heard_rises();
    least_is_of_all();
    least_is_reached();
    merged_are_lengths();
    none_where_one_is_missing();
    Ok(())
}
