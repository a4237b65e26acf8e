//! The calls that items make.

ghost use Rattle.std.specs.Prelude.{◌≡◌, ◌<◌};
ghost use Rattle.log_base.specs.Shape.{shape};
ghost use Rattle.schedule_model.specs.Courses.{asked_last, confirmation, enquiry, reading_at, request, submission};
ghost use Rattle.item_course.specs.Asking.{IsQuestion};

use client_session::Pair;
use history_frame::Call;
use log_base::{Bytes, Client, Config, NodeId, Number, Position, Replica, Shard};
use node_table::{orderer, storage};
use record_frame::Value;
use schedule_model::{Awaited, Duty, Question};

/// A record is submitted under a pair, to its node.
pub fn submission(pair: &Pair, bytes: Vec<u8>) -> Duty
    ensures { result ≡ submission pair.now.node pair.now.client pair.now.number bytes.items }
{
    Duty::MakeCall {
        node: pair.node,
        call: Call::Submit {
            client: pair.client,
            number: pair.number,
            bytes: Bytes::of(bytes),
        },
        awaited: Awaited::Storing {
            primary: pair.node,
            client: pair.client,
            number: pair.number,
        },
    }
}

/// The primary is asked where an append stands.
pub fn enquiry(primary: NodeId, client: Client, number: Number) -> Duty
    ensures { result ≡ enquiry primary client number }
{
    Duty::MakeCall {
        node: primary,
        call: Call::Ask { client, number },
        awaited: Awaited::Last,
    }
}

/// A value is requested of an orderer.
pub fn request(config: &Config, index: u8, client: Client, value: &Value) -> Duty
    requires { index < (shape config.now).orderers }
    ensures { result ≡ request (shape config.now) index client value.now }
{
    Duty::MakeCall {
        node: orderer(config, index),
        call: Call::Request {
            client,
            value: *value,
        },
        awaited: Awaited::Requesting {
            orderer: index,
            client,
            value: *value,
        },
    }
}

/// An orderer is asked whether a value is settled in a slot from this one on.
pub fn confirmation(config: &Config, index: u8, client: Client, value: &Value, slot: u32) -> Duty
    requires { index < (shape config.now).orderers }
    ensures { result ≡ confirmation (shape config.now) index client value.now slot }
{
    Duty::MakeCall {
        node: orderer(config, index),
        call: Call::Settled {
            client,
            value: *value,
            from: slot,
        },
        awaited: Awaited::Last,
    }
}

/// What a held item asks last.
pub fn asked_last(config: &Config, question: &Question, awaited: Awaited) -> Duty
    requires { IsQuestion (shape config.now) question.now }
    ensures { result ≡ asked_last (shape config.now) question.now awaited }
{
    match question {
        Question::Append {
            primary,
            client,
            number,
        } => Duty::MakeCall {
            node: *primary,
            call: Call::Ask {
                client: *client,
                number: *number,
            },
            awaited,
        },
        Question::Wish {
            orderer: index,
            client,
            value,
            from,
        } => Duty::MakeCall {
            node: orderer(config, *index),
            call: Call::Settled {
                client: *client,
                value: *value,
                from: *from,
            },
            awaited,
        },
    }
}

/// A replica of a shard is asked for the entry at a position.
pub fn reading(
    config: &Config,
    shard: Shard,
    replica: Replica,
    client: Client,
    position: Position,
    awaited: Awaited,
) -> Duty
    requires shard { shard.0 < (shape config.now).shards }
    requires replica { replica.0 < (shape config.now).replicas }
    ensures { result ≡ reading_at (shape config.now) shard.0 replica client position awaited }
{
    Duty::MakeCall {
        node: storage(config, shard, replica),
        call: Call::Read { client, position },
        awaited,
    }
}
