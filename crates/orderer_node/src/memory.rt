//! What an orderer remembers while it runs.

ghost use Rattle.std.specs.Prelude.{◌≡◌, ◌<◌, ◌≤◌, [], length, take, drop, IfOk, OnOk, Option, Some, None, is_some, IsSome};
ghost use Rattle.std.specs.List.{AllByRecursion};
ghost use Rattle.log_base.specs.Shape.{shape};
ghost use Rattle.cut_chain.specs.Runs.{to_position};
ghost use Rattle.log_model.specs.Chain.{chain_of};
ghost use Rattle.node_model.specs.OrdererNode.{fresh};
ghost use Rattle.orderer_node.specs.Fine.{IsFine};
ghost use Rattle.orderer_node.specs.Remembering.{HasRoom, Remembered};

use cut_chain::{Chain, Places};
use finaliser::Wishes;
use log_base::{Config, Memory, Position, Slot};
use paxos_leader::Leader;
use paxos_learner::Known;
use record_frame::{Lengths, Value};
use std::alloc::Global;
use std::marker::Model;

mod calls;
mod leading;
mod learning;
mod ticking;
mod wishing;

/// What an orderer remembers: the known values with their chain, the lengths that it heard of, the wishes,
/// how many ticks it had, and what it knows as a leader.
#[derive(Drop)]
pub struct OrdererMemory<P: Places> {
    config: Config,
    known: Known,
    chain: Chain<P>,
    heard: Lengths,
    wishes: Wishes,
    ticks: u64,
    leader: Leader,
}

impl<P: Places> Model for OrdererMemory<P> {
    ghost use Rattle.log_base.specs.Shape.{shape};
    ghost use Rattle.orderer_node.specs.Remembering.{IsMemory, Remembered};

    ghost Value = { Remembered };

    ghost view = { λ m. record {
      config = shape m.config;
      orderer = record { known = m.known.known; heard = m.heard; wishes = m.wishes.wishes; ticks = m.ticks; leader = m.leader.leader };
      value_room = m.known.room;
      wish_room = m.wishes.room;
      run_room = m.chain.room;
    } };

    ghost invariant = { λ m. IsMemory (shape m.config)
        (record { known = m.known.known; heard = m.heard; wishes = m.wishes.wishes; ticks = m.ticks; leader = m.leader.leader })
        m.chain.known m.leader.orderers };
}

impl<P: Places> OrdererMemory<P> {
    /// That of an orderer that has just started, over empty places.
    pub fn new(alloc: Global, config: Config, places: P) -> Result<OrdererMemory<P>, Memory>
        requires { P.places places ≡ [] }
        ensures config { IfOk result (λ memory. memory.config ≡ shape config) }
        ensures orderer { IfOk result (λ memory. memory.orderer ≡ fresh (shape config)) }
    {
        let chain = Chain::new(alloc, config, places)?;
        let leader = Leader::new(alloc, config)?;
        Ok(OrdererMemory {
            config,
            known: Known::new(alloc),
            chain,
            heard: nothing_heard(&config),
            wishes: Wishes::new(alloc),
            ticks: 0,
            leader,
        })
    }

    /// Makes room for one event. `Memory` comes too after 18,446,744,073,709,551,615 ticks.
    pub fn ready(&mut self) -> Result<(), Memory>
        ensures config { self.new.config ≡ self.old.config }
        ensures orderer { self.new.orderer ≡ self.old.orderer }
        ensures room { OnOk result (HasRoom self.new) }
    {
        if self.ticks == u64::MAX {
            return Err(Memory);
        }
        self.known.ready()?;
        self.chain.ready()?;
        self.wishes.ready()?;
        Ok(())
    }

    /// Forgets all: the orderer has just started.
    pub fn clear(&mut self)
        ensures config { self.new.config ≡ self.old.config }
        ensures orderer { self.new.orderer ≡ fresh self.old.config }
    {
        self.known.clear();
        self.chain.clear();
        self.heard = nothing_heard(&self.config);
        self.wishes.clear();
        self.ticks = 0;
        self.leader.stop();
    }

    /// The cluster.
    pub fn config(&self) -> Config
        ensures { shape result ≡ self.now.config }
    {
        self.config
    }

    /// How many values are known.
    pub fn known(&self) -> u32
        ensures count { result ≡ length self.now.orderer.known }
        ensures most { result ≤ 16384 }
    {
        self.known.len()
    }

    /// The known values from a slot on, the first 16 where there are more.
    pub fn give(&self, from: Slot) -> &[Value]
        ensures given { result.now ≡ take 16 (drop from.0 self.now.orderer.known) }
        ensures fine { AllByRecursion (IsFine self.now.config) self.now.orderer.known }
        ensures few { length self.now.orderer.known ≤ 16384 }
    {
        self.known.give(from)
    }

    /// The end of the log by the known values.
    pub fn end(&self) -> Position
        ensures { result ≡ to_position (chain_of self.now.config.replicas self.now.orderer.known).end }
    {
        self.chain.end()
    }

    /// The mark below which positions are given up, by the known values.
    pub fn trim(&self) -> Position
        ensures { result ≡ to_position (chain_of self.now.config.replicas self.now.orderer.known).mark }
    {
        self.chain.trim()
    }

    /// Whether it leads.
    pub fn leads(&self) -> bool
        ensures { result ≡ is_some self.now.orderer.leader }
    {
        self.leader.ballot().is_some()
    }
}

// Lengths of nothing, of which there is one for each segment.
#[tactic(auto, unfolding(paxos_model::specs::Learner::nothing_heard))]
fn nothing_heard(config: &Config) -> Lengths
    ensures { result ≡ (fresh (shape config.now)).heard }
{
    Lengths {
        count: config.shards() * config.replicas(),
        length: [0; 32],
    }
}
