//! The letters of a gatherer.

ghost use Rattle.std.specs.Prelude.{◌≡◌, ℕ, ◌<◌, List, ◌++◌, map, OnOk};
ghost use Rattle.event_letters.specs.Letters.{HasSpace, parcel};
ghost use Rattle.log_base.specs.Shape.{shape};
ghost use Rattle.message_frame.specs.Spelling.{IsMessage};
ghost use Rattle.node_model.specs.GathererRow.{leasts};
ghost use Rattle.node_model.specs.Messages.{least_message};
ghost use Rattle.node_model.specs.Nodes.{to_orderers};
ghost use Rattle.gatherer_node.specs.Gatherer.{IsOf, least_due, sizes_of, told_of};

use aggregator::Reports;
use event_letters::EventLetters;
use log_base::{Config, Memory, Outbox, Shard};
use message_frame::Message;
use node_table::orderer;
use record_frame::Lengths;

/// The least of a shard, where this gatherer is to tell it.
fn due(config: &Config, index: u8, reports: &Reports, shard: Shard) -> Option<Lengths>
    requires { shard.0 < reports.now.shards }
    ensures { result ≡ least_due (shape config.now) index reports.now shard.0 }
{
    if shard.0 % u16::from(config.gatherers()) == u16::from(index) {
        reports.least(shard)
    } else {
        None
    }
}

/// Makes room for the letters of a tick.
pub fn ready_leasts(
    config: &Config,
    index: u8,
    reports: &Reports,
    letters: &mut EventLetters,
    out: &mut Outbox,
) -> Result<(), Memory>
    requires { IsOf (shape config.now) index reports.now }
    ensures sent { letters.new.sent ≡ letters.old.sent }
    ensures letters { out.new.letters ≡ out.old.letters }
    ensures space { OnOk result (HasSpace letters.new out.new.rooms (sizes_of (leasts (shape config.now) index reports.now 0 (shape config.now).shards))) }
{
    for shard in 0..u16::from(config.shards()) {
        ready_least(config, index, reports, Shard(shard), letters, out)?;
    }
    Ok(())
}

/// Makes room for the letters of a shard.
fn ready_least(
    config: &Config,
    index: u8,
    reports: &Reports,
    shard: Shard,
    letters: &mut EventLetters,
    out: &mut Outbox,
) -> Result<(), Memory>
    requires shard { shard.0 < (shape config.now).shards }
    requires reports { IsOf (shape config.now) index reports.now }
    ensures sent { letters.new.sent ≡ letters.old.sent }
    ensures letters { out.new.letters ≡ out.old.letters }
    ensures space { OnOk result ((sizes : List ℕ) → HasSpace letters.old out.old.rooms sizes
        → HasSpace letters.new out.new.rooms (sizes ++ sizes_of (told_of (shape config.now) index reports.now shard.0))) }
{
    let bytes = 4 + 4 * u32::from(config.replicas());
    match due(config, index, reports, shard) {
        Some(_lengths) => letters.ready(config.orderers().into(), bytes, out),
        None => Ok(()),
    }
}

/// Tells every orderer the least of each shard of this gatherer.
pub fn send_leasts(
    config: &Config,
    index: u8,
    reports: &Reports,
    letters: &mut EventLetters,
    out: &mut Outbox,
)
    requires reports { IsOf (shape config.now) index reports.now }
    requires space { HasSpace letters.old out.old.rooms (sizes_of (leasts (shape config.now) index reports.now 0 (shape config.now).shards)) }
    ensures sent { letters.new.sent ≡ letters.old.sent ++ leasts (shape config.now) index reports.now 0 (shape config.now).shards }
    ensures letters { out.new.letters ≡ out.old.letters ++ map parcel (leasts (shape config.now) index reports.now 0 (shape config.now).shards) }
{
    for shard in 0..u16::from(config.shards()) {
        tell(config, index, reports, Shard(shard), letters, out);
    }
}

/// Tells every orderer the least of a shard, if it is to be told.
fn tell(
    config: &Config,
    index: u8,
    reports: &Reports,
    shard: Shard,
    letters: &mut EventLetters,
    out: &mut Outbox,
)
    requires shard { shard.0 < (shape config.now).shards }
    requires reports { IsOf (shape config.now) index reports.now }
    requires space { (sizes : List ℕ) × HasSpace letters.old out.old.rooms (sizes_of (told_of (shape config.now) index reports.now shard.0) ++ sizes) }
    ensures sent { letters.new.sent ≡ letters.old.sent ++ told_of (shape config.now) index reports.now shard.0 }
    ensures letters { out.new.letters ≡ out.old.letters ++ map parcel (told_of (shape config.now) index reports.now shard.0) }
    ensures space { (sizes : List ℕ) → HasSpace letters.old out.old.rooms (sizes_of (told_of (shape config.now) index reports.now shard.0) ++ sizes)
        → HasSpace letters.new out.new.rooms sizes }
{
    if let Some(lengths) = due(config, index, reports, shard) {
        send_least(config, shard, lengths, letters, out);
    }
}

/// Tells every orderer the least of a shard.
fn send_least(
    config: &Config,
    shard: Shard,
    lengths: Lengths,
    letters: &mut EventLetters,
    out: &mut Outbox,
)
    requires message { IsMessage (least_message shard.0 lengths) }
    requires space { (sizes : List ℕ) × HasSpace letters.old out.old.rooms (sizes_of (to_orderers (shape config.now) (least_message shard.0 lengths)) ++ sizes) }
    ensures sent { letters.new.sent ≡ letters.old.sent ++ to_orderers (shape config.now) (least_message shard.0 lengths) }
    ensures letters { out.new.letters ≡ out.old.letters ++ map parcel (to_orderers (shape config.now) (least_message shard.0 lengths)) }
    ensures space { (sizes : List ℕ) → HasSpace letters.old out.old.rooms (sizes_of (to_orderers (shape config.now) (least_message shard.0 lengths)) ++ sizes)
        → HasSpace letters.new out.new.rooms sizes }
{
    for index in 0..config.orderers() {
        letters.send(
            orderer(config, index),
            Message::Least { shard, lengths },
            out,
        );
    }
}
