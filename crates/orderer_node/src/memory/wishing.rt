//! What an orderer would like decided, as a leader.

ghost use Rattle.std.specs.Prelude.{◌≡◌, ◌<◌, not, List as Items};
ghost use Rattle.std.specs.List.{AllByRecursion};
ghost use Rattle.log_base.specs.Shape.{shape};
ghost use Rattle.log_model.specs.Chain.{covered_in_shards, state_in};
ghost use Rattle.cut_chain.specs.Known.{known_of};
ghost use Rattle.record_frame.specs.declared.values.Value.{Value as Decision};
ghost use Rattle.paxos_model.specs.Learner.{is_empty, wish_of};
ghost use Rattle.orderer_node.specs.Fine.{IsFine, IsFineOr};
ghost use Rattle.orderer_node.specs.Wishing.{Rises, covers_of};

use crate::memory::OrdererMemory;
use cut_chain::{Chain, Places};
use log_base::{Config, Replica, Shard};
use record_frame::Value;
use shard_registry::State;

impl<P: Places> OrdererMemory<P> {
    /// The oldest wish, or else a cut at what is held, where this covers something more.
    #[tactic(auto, unfolding(paxos_model::specs::Learner::cut_wish))]
    pub fn wish(&self) -> Option<Value>
        ensures value { result ≡ wish_of self.now.config.replicas self.now.orderer.known self.now.orderer.heard self.now.orderer.wishes }
        ensures fine { IsFineOr self.now.config result }
    {
        if let Some(value) = self.wishes.first() {
            return Some(value);
        }
        if covers_more(&self.config, &self.chain, &self.heard.length) {
            return Some(Value::Cut(self.heard));
        }
        None
    }
}

// Whether a cut at these lengths covers something more.
fn covers_more<P: Places>(config: &Config, chain: &Chain<P>, lengths: &[u32; 32]) -> bool
    requires { (values : Items Decision) × AllByRecursion (IsFine (shape config.now)) values × (chain.now.known ≡ known_of (shape config.now) values) }
    ensures { result ≡ not (is_empty (covered_in_shards (shape config.now).replicas lengths.now chain.now.known.chain.shards)) }
{
    for shard in 0..u16::from(config.shards()) {
        if raises(config, chain, Shard(shard), lengths) {
            return true;
        }
    }
    false
}

// Whether a cut at these lengths covers something more of a shard.
fn raises<P: Places>(config: &Config, chain: &Chain<P>, shard: Shard, lengths: &[u32; 32]) -> bool
    requires shard { shard.0 < (shape config.now).shards }
    requires values { (values : Items Decision) × (chain.now.known ≡ known_of (shape config.now) values) }
    ensures { result ≡ covers_of (shape config.now).replicas lengths.now (state_in chain.now.known.chain.shards shard.0) }
{
    match chain.state(shard) {
        Some(State::Live) => return raises_live(config, chain, shard, lengths),
        Some(State::Finalised) => return false,
        None => return false,
    }
}

// Whether one of these lengths is above what is covered of its segment.
fn raises_live<P: Places>(
    config: &Config,
    chain: &Chain<P>,
    shard: Shard,
    lengths: &[u32; 32],
) -> bool
    requires shard { shard.0 < (shape config.now).shards }
    requires config { chain.now.known.config ≡ shape config.now }
    ensures { Rises (shape config.now).replicas chain.now.known.chain lengths.now shard.0 result }
{
    for segment in 0..config.replicas() {
        let at = usize::from(shard.0) * usize::from(config.replicas()) + usize::from(segment);
        if lengths[at] > chain.covered(shard, Replica(segment)) {
            return true;
        }
    }
    false
}
