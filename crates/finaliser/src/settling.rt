//! Whether a value is decided.

ghost use Rattle.std.specs.Prelude.{◌≡◌, length};
ghost use Rattle.paxos_model.specs.Learner.{find_value};
ghost use Rattle.finaliser.specs.Wishing.{settling_of};

use log_base::Slot;
use paxos_learner::Known;
use record_frame::Value;

/// What is known of a value that is to be decided.
#[derive(Clone, Copy, Debug, PartialEq, Eq)]
pub enum Settling {
    /// It is the value of this slot.
    Settled { slot: Slot },
    /// It is none of the known values, of which there are so many.
    Pending { known: u32 },
}

/// The least known slot from one on that has the value, or how many values are known.
pub fn settled(known: &Known, value: &Value, from: Slot) -> Settling
    ensures { result ≡ settling_of (length known.now.known) (find_value known.now.known value.now from.0) }
{
    match known.find(value, from) {
        Some(slot) => Settling::Settled { slot },
        None => Settling::Pending { known: known.len() },
    }
}
