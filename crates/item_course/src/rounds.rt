//! The rounds in which nodes are given signals.

ghost use Rattle.std.specs.Prelude.{◌≡◌, IfOk};
ghost use Rattle.log_base.specs.Shape.{shape};
ghost use Rattle.schedule_model.specs.Duties.{opening, settling, signal_input};

use history_frame::Input;
use log_base::{Config, Memory, NodeId};
use node_table::{nodes, orderer};
use schedule_model::{Duty, Signal};
use std::alloc::Global;

/// What is due before the first item.
pub fn opening(alloc: Global, config: &Config) -> Result<Vec<Duty>, Memory>
    ensures { IfOk result (λ duties. duties.items ≡ opening (shape config.now)) }
{
    let leader = orderer(config, 0);
    let duties = vec![in alloc;
        Duty::Give {
            signal: Signal::Restart,
            first: NodeId(0),
            count: nodes(config)
        },
        Duty::Give {
            signal: Signal::Lead,
            first: leader,
            count: 1
        },
        Duty::DeliverAll,
    ]?;
    Ok(duties)
}

/// What is due for a cluster to settle.
pub fn settling(alloc: Global, config: &Config) -> Result<Vec<Duty>, Memory>
    ensures { IfOk result (λ duties. duties.items ≡ settling (shape config.now)) }
{
    let stored = u16::from(config.replicas()) * u16::from(config.shards());
    let gatherers = u16::from(config.gatherers());
    let orderers = u16::from(config.orderers());
    let duties = vec![in alloc;
        ticks(NodeId(0), stored),
        Duty::DeliverAll,
        ticks(NodeId(stored), gatherers),
        Duty::DeliverAll,
        ticks(orderer(config, 0), orderers),
        Duty::DeliverAll,
        ticks(NodeId(0), stored),
        Duty::DeliverAll,
    ]?;
    Ok(duties)
}

/// So many nodes from one on tick.
fn ticks(first: NodeId, count: u16) -> Duty
    ensures { result ≡ Duty.Give Signal.Tick first count }
{
    Duty::Give {
        signal: Signal::Tick,
        first,
        count,
    }
}

/// A signal as an input.
pub fn signal_input(signal: Signal) -> Input
    ensures { result ≡ signal_input signal }
{
    match signal {
        Signal::Restart => Input::Restart,
        Signal::Lead => Input::Lead,
        Signal::Tick => Input::Tick,
        Signal::Stop => Input::Stop,
    }
}
