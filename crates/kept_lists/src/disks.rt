//! The disks of segments.

ghost use Rattle.std.specs.Prelude.{◌≡◌, ◌<◌};
ghost use Rattle.log_base.specs.Shape.{shape};
ghost use Rattle.node_model.specs.Sound.{segment_disk};

use log_base::{Config, Replica, Shard};
use node_table::{disk, storage};

/// The disk on which a replica of a shard keeps a segment.
pub fn segment_disk_of(config: &Config, shard: u8, replica: u8, segment: u8) -> u32
    requires shard { shard < (shape config.now).shards }
    requires replica { replica < (shape config.now).replicas }
    requires segment { segment < (shape config.now).replicas }
    ensures disk { result ≡ segment_disk (shape config.now) shard replica segment }
    ensures within { result < 344 }
{
    let node = storage(config, Shard(u16::from(shard)), Replica(replica));
    disk(node, segment)
}
