//! How many replicas, shards, orderers and gatherers a cluster has.

ghost use Rattle.std.specs.Prelude.{◌≡◌, Some, None, MatchResult};
ghost use Rattle.log_base.specs.ClusterShape.{InRange, wrong_part};

/// The numbers of a cluster: 1 to 5 replicas a shard, 1 to 8 shards, 1, 3, 5 or 7 orderers and 1 to 4
/// gatherers, with at most 32 segments, which are the replicas times the shards.
#[derive(Clone, Copy, Debug, PartialEq, Eq)]
pub struct Config {
    replicas: u8,
    shards: u8,
    orderers: u8,
    gatherers: u8,
    pub ghost in_range: { InRange (record { replicas = replicas; shards = shards; orderers = orderers; gatherers = gatherers }) },
}

/// The first number of a config that is out of range: 0 the replicas, 1 the shards, 2 the orderers, 3
/// the gatherers, 4 the replicas times the shards.
#[derive(Clone, Copy, Debug, PartialEq, Eq)]
pub struct BadConfig {
    pub which: u8,
}

impl Config {
    ghost use Rattle.log_base.specs.Shape.{shape};

    /// The config of these numbers, or the first of them that is out of range.
    pub fn new(replicas: u8, shards: u8, orderers: u8, gatherers: u8) -> Result<Config, BadConfig>
        ensures numbers { MatchResult result
            (λ config. shape config ≡ record { replicas = replicas; shards = shards; orderers = orderers; gatherers = gatherers })
            (λ bad. wrong_part (record { replicas = replicas; shards = shards; orderers = orderers; gatherers = gatherers }) ≡ Some bad.which) }
        ensures in_range { MatchResult result
            (λ _. wrong_part (record { replicas = replicas; shards = shards; orderers = orderers; gatherers = gatherers }) ≡ None)
            (λ _. Unit {0}) }
    {
        if replicas < 1 || replicas > 5 {
            return Err(BadConfig { which: 0 });
        }
        if shards < 1 || shards > 8 {
            return Err(BadConfig { which: 1 });
        }
        if orderers > 7 || orderers % 2 == 0 {
            return Err(BadConfig { which: 2 });
        }
        if gatherers < 1 || gatherers > 4 {
            return Err(BadConfig { which: 3 });
        }
        if replicas * shards > 32 {
            return Err(BadConfig { which: 4 });
        }
        Ok(Config {
            replicas,
            shards,
            orderers,
            gatherers,
        })
    }

    /// How many replicas each shard has.
    pub fn replicas(&self) -> u8
        ensures { result ≡ (shape self.now).replicas }
    {
        self.replicas
    }

    /// How many shards there are.
    pub fn shards(&self) -> u8
        ensures { result ≡ (shape self.now).shards }
    {
        self.shards
    }

    /// How many orderers there are.
    pub fn orderers(&self) -> u8
        ensures { result ≡ (shape self.now).orderers }
    {
        self.orderers
    }

    /// How many gatherers there are.
    pub fn gatherers(&self) -> u8
        ensures { result ≡ (shape self.now).gatherers }
    {
        self.gatherers
    }
}
