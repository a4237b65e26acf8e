//! Which replica a node is.

ghost use Rattle.std.specs.Prelude.{◌<◌};

use log_base::{Config, Replica, Shard};

/// A replica of a shard of a cluster.
#[derive(Clone, Copy, Debug)]
pub(crate) struct Seat {
    pub(crate) config: Config,
    pub(crate) shard: Shard,
    pub(crate) own: Replica,
    ghost shard_in: { shard.0 < config.shards },
    ghost own_in: { own.0 < config.replicas },
}
