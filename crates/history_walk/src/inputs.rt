//! Whether a node may take an input, by its role and the numbers of its config.

ghost use Rattle.std.specs.Prelude.{◌≡◌, ◌<◌, IsTrue, ◌↔◌, true};
ghost use Rattle.log_base.specs.Shape.{shape};
ghost use Rattle.history_frame.specs.Frames.{TellsNoMessage};
ghost use Rattle.history_frame.specs.Spelling.{IsCall as IsSpelledCall, IsInput as IsSpelled};
ghost use Rattle.history_frame.specs.Widths.{CallFits, InputFits};
ghost use Rattle.node_model.specs.Fits.{IsCallOf, IsInput, IsRequested, IsValueOf, names_of};
ghost use Rattle.node_model.specs.StorageRow.{is_call as storage_call};
ghost use Rattle.log_base.specs.ClusterShape.{Shape};

use history_frame::{Call, Input};
use log_base::{Config, Shard};
use node_table::Role;
use record_frame::Value;

/// Whether an input is one of the role, with numbers of the config. A letter whose message is not told is
/// none.
pub(crate) fn is_input(config: &Config, role: Role, input: &Input) -> bool
    requires fits { InputFits input.now }
    requires spelled { IsSpelled input.now }
    requires untold { TellsNoMessage input.now }
    ensures { IsTrue result ↔ IsInput (shape config.now) role input.now }
{
    match input {
        Input::Deliver { .. } => return false,
        Input::Call(call) => return is_call(config, role, call),
        Input::Lead => return leads(role),
        Input::Tick | Input::Stop | Input::Restart => return true,
    }
}

// Whether a node of the role may be told to lead.
fn leads(role: Role) -> bool
    ensures { result ≡ (names_of role).lead }
{
    match role {
        Role::Storage { .. } | Role::Gatherer { .. } => false,
        Role::Orderer { .. } => true,
    }
}

// Whether a call is one of the role, with numbers of the config.
fn is_call(config: &Config, role: Role, call: &Call) -> bool
    requires fits { CallFits call.now }
    requires spelled { IsSpelledCall call.now }
    ensures { IsTrue result ↔ (((names_of role).call call.now ≡ true) × IsCallOf (shape config.now) call.now) }
{
    match role {
        Role::Storage { .. } => return is_storage_call(call),
        Role::Gatherer { .. } => return false,
        Role::Orderer { .. } => match call {
            Call::Request { value, .. } => return is_request(config, value),
            Call::Settled { .. } => return true,
            Call::Submit { .. } | Call::Ask { .. } | Call::Read { .. } => return false,
        },
    }
}

// Whether a call is one of a storage node.
fn is_storage_call(call: &Call) -> bool
    requires fits { CallFits call.now }
    requires spelled { IsSpelledCall call.now }
    ensures { IsTrue result ↔ ((storage_call call.now ≡ true) × ((config : Shape) → IsCallOf config call.now)) }
{
    match call {
        Call::Submit { .. } | Call::Ask { .. } | Call::Read { .. } => true,
        Call::Request { .. } | Call::Settled { .. } => false,
    }
}

// Whether a value may be asked for.
fn is_request(config: &Config, value: &Value) -> bool
    ensures { IsTrue result ↔ (IsRequested value.now × IsValueOf (shape config.now) value.now) }
{
    match value {
        Value::Add(shard) | Value::Finalise(shard) => is_shard(config, *shard),
        Value::Trim(_) => true,
        Value::Noop | Value::Cut(_) => false,
    }
}

fn is_shard(config: &Config, shard: Shard) -> bool
    ensures { IsTrue result ↔ (shard.0 < (shape config.now).shards) }
{
    shard.0 < u16::from(config.shards())
}
