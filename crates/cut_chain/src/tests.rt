//! What no clause says: that the calls answer with ample memory, and that the clauses say what is meant.

ghost use Rattle.std.specs.Prelude.{◌≡◌, IsTrue, IfOk, OnOk};
ghost use Rattle.cut_chain.specs.Known.{IsFor};

use crate::*;
use log_base::{Config, Place, Position, Replica, Shard};
use record_frame::{Lengths, Value};
use shard_registry::State;
use std::alloc::Global;
use std::process::Abort;
use std::test::Fail;

fn place(shard: u16, segment: u8, offset: u32) -> Place {
    Place {
        shard: Shard(shard),
        segment: Replica(segment),
        offset,
    }
}

#[test]
fn runs_are_walked(rt: HostRuntime) -> Result<(), Fail> {
    let mut walk = WalkPlaces::new(rt.alloc());
    walk.ready(1)?;
    let run = Run {
        shard: Shard(1),
        segment: Replica(0),
        first: 3,
        count: 2,
    };
    walk.add(run);
    let last = walk.place(Position(1));
    assert_eq!(rt; last, Some(place(1, 0, 4)));
    assert_eq!(rt; walk.place(Position(2)), None);
    assert_eq!(rt; walk.position(place(1, 0, 4)), Some(Position(1)));
    assert_eq!(rt; walk.position(place(1, 0, 5)), None);
    assert_eq!(rt; walk.position(place(1, 1, 4)), None);
    walk.clear();
    assert_eq!(rt; walk.place(Position(0)), None);
    Ok(())
}

// The cut of the first four segments.
fn cut(first: u32, second: u32, third: u32, fourth: u32) -> Value {
    let mut length = [0; 32];
    length[0] = first;
    length[1] = second;
    length[2] = third;
    length[3] = fourth;
    Value::Cut(Lengths { count: 4, length })
}

// Whether it is a value of the chain's two shards.
fn is_for(chain: &Chain<WalkPlaces>, value: &Value) -> bool
    requires { chain.now.known.config.shards ≡ 2 }
    ensures { IsTrue result → IsFor chain.now.known.config value.now }
{
    let _ = chain.len();
    match value {
        Value::Cut(lengths) => lengths.length.iter().all(|length| *length <= 16_384),
        Value::Add(shard) | Value::Finalise(shard) => shard.0 < 2,
        Value::Noop | Value::Trim(_) => true,
    }
}

// Makes room for a value and applies it.
fn learn(rt: &impl Abort, chain: &mut Chain<WalkPlaces>, value: &Value) -> Result<(), Fail>
    requires { chain.old.known.config.shards ≡ 2 }
    ensures { OnOk result (chain.new.known.config ≡ chain.old.known.config) }
{
    chain.ready()?;
    assert!(rt; chain.len() < 16_384);
    assert!(rt; is_for(chain, value));
    chain.apply(value);
    Ok(())
}

// What is known after some values of two shards of two replicas.
fn learned(rt: &impl Abort, alloc: Global, values: &[Value]) -> Result<Chain<WalkPlaces>, Fail>
    ensures { IfOk result (λ chain. (chain.known.config.replicas ≡ 2) × (chain.known.config.shards ≡ 2)) }
{
    let config = Config::new(2, 2, 1, 1)?;
    let mut chain = Chain::new(alloc, config, WalkPlaces::new(alloc))?;
    for value in values {
        learn(rt, &mut chain, value)?;
    }
    Ok(chain)
}

#[test]
fn a_cut_goes_by_order_of_addition(rt: HostRuntime) -> Result<(), Fail> {
    let values = [
        Value::Finalise(Shard(1)),
        Value::Add(Shard(1)),
        Value::Add(Shard(0)),
        cut(1, 1, 1, 0),
        Value::Add(Shard(1)),
        cut(0, 1, 0, 0),
    ];
    let chain = learned(&rt, rt.alloc(), &values)?;
    assert_eq!(rt; chain.len(), 6);
    assert_eq!(rt; chain.end(), Position(3));
    assert_eq!(rt; chain.place(Position(0)), Some(place(1, 0, 0)));
    assert_eq!(rt; chain.place(Position(1)), Some(place(0, 0, 0)));
    assert_eq!(rt; chain.place(Position(2)), Some(place(0, 1, 0)));
    assert_eq!(rt; chain.place(Position(3)), None);
    assert_eq!(rt; chain.position(place(0, 1, 0)), Some(Position(2)));
    Ok(())
}

#[test]
fn a_finalised_shard_stays(rt: HostRuntime) -> Result<(), Fail> {
    let values = [
        Value::Add(Shard(1)),
        cut(0, 0, 2, 0),
        Value::Trim(Position(9)),
        Value::Trim(Position(1)),
        Value::Finalise(Shard(1)),
        cut(5, 5, 5, 5),
        Value::Noop,
    ];
    let mut chain = learned(&rt, rt.alloc(), &values)?;
    assert_eq!(rt; chain.end(), Position(2));
    assert_eq!(rt; chain.trim(), Position(2));
    assert_eq!(rt; chain.state(Shard(1)), Some(State::Finalised));
    assert_eq!(rt; chain.state(Shard(0)), None);
    assert_eq!(rt; chain.covered(Shard(1), Replica(0)), 2);
    assert_eq!(rt; chain.covered(Shard(1), Replica(1)), 0);
    chain.clear();
    assert_eq!(rt; chain.len(), 0);
    Ok(())
}
