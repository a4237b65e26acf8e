//! What an orderer answers to clients.

ghost use Rattle.std.specs.Prelude.{◌≡◌, not, Option, Some, None};
ghost use Rattle.node_model.specs.Fits.{IsRequested};
ghost use Rattle.node_model.specs.OrdererRow.{answered, finalises_unknown, on_request, on_settled};
ghost use Rattle.finaliser.specs.Wishing.{finalises_none};
ghost use Rattle.orderer_node.specs.Fine.{IsFine};
ghost use Rattle.orderer_node.specs.Answering.{IsOwn};
ghost use Rattle.orderer_node.specs.Remembering.{HasRoom};

use crate::memory::OrdererMemory;
use cut_chain::Places;
use finaliser::{Requested, Settling, settled};
use log_base::Slot;
use record_frame::Value;
use reply_frame::Reply;

impl<P: Places> OrdererMemory<P> {
    /// A client asks for a value to be decided.
    #[tactic(auto, unfolding(node_model::specs::OrdererRow::on_request))]
    pub fn request(&mut self, value: &Value) -> Reply
        requires asked { IsRequested value.now }
        requires value { IsFine self.old.config value.now }
        requires room { HasRoom self.old }
        ensures config { self.new.config ≡ self.old.config }
        ensures row { on_request self.old.config self.old.orderer value.now ≡ answered self.new.orderer result }
        ensures own { IsOwn result }
    {
        if !self.leads() {
            return Reply::NotLeading;
        }
        let added = self.has_added(value);
        match self.wishes.request(value, added, self.known.len()) {
            Requested::Taken { from } => return Reply::Taken { from },
            Requested::NoSuchShard => return Reply::NoSuchShard,
        }
    }

    // Whether the shard that a value finalises was added, if it finalises one.
    fn has_added(&self, value: &Value) -> bool
        requires { IsFine self.now.config value.now }
        ensures { finalises_none value.now result ≡ finalises_unknown self.now.config self.now.orderer.known value.now }
    {
        match value {
            Value::Finalise(shard) => self.chain.state(*shard).is_some(),
            _ => true,
        }
    }

    /// A client asks whether a value is decided in a slot from one on.
    #[tactic(auto, unfolding(node_model::specs::OrdererRow::on_settled))]
    pub fn settled(&self, value: &Value, from: u32) -> Reply
        ensures row { on_settled self.now.orderer value.now from ≡ answered self.now.orderer result }
        ensures own { IsOwn result }
    {
        match settled(&self.known, value, Slot(from)) {
            Settling::Settled { slot } => Reply::Settled { slot },
            Settling::Pending { known } => Reply::PendingWish { known },
        }
    }
}
