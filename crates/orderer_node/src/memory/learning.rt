//! What is learned of decided values, and heard of what the replicas hold.

ghost use Rattle.std.specs.Prelude.{◌≡◌, ◌+◌, ◌*◌, ◌<◌, ◌≤◌, length};
ghost use Rattle.record_frame.specs.Values.{IsLengths};
ghost use Rattle.cut_chain.specs.Known.{known_of};
ghost use Rattle.log_base.specs.ClusterShape.{Shape};
ghost use Rattle.node_model.specs.OrdererRow.{learned, on_least};
ghost use Rattle.paxos_model.specs.Learner.{learn, raised_from};
ghost use Rattle.orderer_node.specs.Fine.{IsFine};
ghost use Rattle.orderer_node.specs.Remembering.{HasRoom};

use crate::memory::OrdererMemory;
use cut_chain::{Chain, Places};
use log_base::{Shard, Slot};
use paxos_learner::{Known, Learned};
use record_frame::{Lengths, Value};

impl<P: Places> OrdererMemory<P> {
    /// Learns the value of a slot.
    #[tactic(auto, unfolding(node_model::specs::OrdererRow::learned))]
    pub fn learn(&mut self, slot: Slot, value: &Value)
        requires slot { slot.0 ≤ 16383 }
        requires value { IsFine self.old.config value.now }
        requires room { HasRoom self.old }
        ensures config { self.new.config ≡ self.old.config }
        ensures orderer { self.new.orderer ≡ learned self.old.orderer slot.0 value.now }
    {
        learn_next(&mut self.known, &mut self.chain, slot, value);
        self.wishes.seen(slot, value);
        self.leader.passed(self.known.len());
    }

    /// Hears how much all replicas of a shard hold of its segments.
    #[tactic(auto, unfolding(node_model::specs::OrdererRow::on_least, paxos_model::specs::Learner::raise))]
    pub fn hear(&mut self, shard: Shard, lengths: &Lengths)
        requires shard { shard.0 < self.old.config.shards }
        requires lengths { IsLengths 5 lengths.now }
        requires count { lengths.now.count ≡ self.old.config.replicas }
        ensures config { self.new.config ≡ self.old.config }
        ensures orderer { self.new.orderer ≡ (on_least self.old.config self.old.orderer shard.0 lengths.now.length).after }
    {
        let first = usize::from(shard.0) * usize::from(self.config.replicas());
        raise(
            &mut self.heard.length,
            first,
            self.config.replicas(),
            &lengths.length,
        );
    }
}

// Learns the value of a slot, where it is the next.
#[tactic(auto, unfolding(paxos_model::specs::Learner::learn))]
fn learn_next<P: Places>(known: &mut Known, chain: &mut Chain<P>, slot: Slot, value: &Value)
    requires slot { slot.0 ≤ 16383 }
    requires value { IsFine chain.old.known.config value.now }
    requires chain { chain.old.known ≡ known_of chain.old.known.config known.old.known }
    requires room { 0 < known.old.room }
    requires runs { chain.old.known.config.replicas * chain.old.known.config.shards ≤ chain.old.room }
    ensures known { known.new.known ≡ learn known.old.known slot.0 value.now }
    ensures chain { chain.new.known ≡ known_of chain.old.known.config (learn known.old.known slot.0 value.now) }
{
    match known.learn(slot, value) {
        Learned::Added => chain.apply(value),
        Learned::Have => {}
        Learned::Gap { .. } => {}
    }
}

// Raises so many lengths from a place on to the given ones, where these are greater.
fn raise(heard: &mut [u32; 32], first: usize, count: u8, given: &[u32; 32])
    requires { first + count ≤ 32 }
    ensures { heard.new ≡ raised_from 0 first count given.now heard.old }
{
    for segment in 0..usize::from(count) {
        heard[first + segment] = heard[first + segment].max(given[segment]);
    }
}
