//! What a node does in its cluster, by its role.

ghost use Rattle.std.specs.Prelude.{◌≡◌, ◌≢◌, ℕ, ◌≤◌, ◌++◌, length, map, Some, OnOk};
ghost use Rattle.history_frame.specs.declared.inputs.Input.TheVariants.{Restart};
ghost use Rattle.history_frame.specs.declared.inputs.Mark.{Mark};
ghost use Rattle.history_frame.specs.declared.inputs.Mark.TheVariants.{Halted, StayedDown};
ghost use Rattle.history_frame.specs.Effects.{happened};
ghost use Rattle.history_frame.specs.Spelling.{event_size};
ghost use Rattle.node_model.specs.Fits.{Fits};
ghost use Rattle.node_model.specs.Machine.{posted};
ghost use Rattle.node_model.specs.NodeState.{outcome_as};
ghost use Rattle.shard_replica.specs.Lists.{medium_at};
ghost use Rattle.storage_node.specs.Counting.{CountsOn};
ghost use Rattle.storage_node.specs.Opening.{RoseIn};
ghost use Rattle.core_step.specs.Disks.{IsStarting, media_in, segment_put, start_mark, told_mark};
ghost use Rattle.core_step.specs.Standing.{IsReadyFor, cluster_of, role_of, state_of};

use cut_chain::Places;
use gatherer_node::GathererNode;
use history_frame::{Effect, Input};
use log_base::{Memory, Outbox};
use orderer_node::OrdererNode;
use segment_journal::Journal;
use storage_node::StorageNode;

mod disks;
mod gatherer;
mod orderer;
mod replica;
mod telling;

use gatherer::{act_gatherer, ready_gatherer};
use orderer::{act_orderer, ready_orderer};
use replica::{act_replica, ready_replica};

/// A node of one of the three roles.
#[derive(Drop)]
pub(crate) enum Part<J: Journal, P: Places> {
    Storage(StorageNode<J, P>),
    Gatherer(GathererNode),
    Orderer(OrdererNode<J, P>),
}

impl<J: Journal, P: Places> Part<J, P> {
    /// Makes the memory for an event with this input.
    pub(crate) fn ready(&mut self, input: &Input, out: &mut Outbox) -> Result<(), Memory>
        requires { Fits (cluster_of self.old) (role_of self.old) (state_of J.state self.old) input.now }
        ensures cluster { cluster_of self.new ≡ cluster_of self.old }
        ensures role { role_of self.new ≡ role_of self.old }
        ensures same { state_of J.state self.new ≡ state_of J.state self.old }
        ensures letters { out.new.letters ≡ out.old.letters }
        ensures ready { OnOk result (IsReadyFor J.state self.new input.now out.new) }
        ensures counts { CountsOn (media_in J.state J.faults J.keeps_synced J.turns self.old) (media_in J.state J.faults J.keeps_synced J.turns self.new) }
        ensures turns { input.now ≢ Restart → (k : ℕ) → (medium_at (media_in J.state J.faults J.keeps_synced J.turns self.new) k).turns
            ≡ (medium_at (media_in J.state J.faults J.keeps_synced J.turns self.old) k).turns }
        ensures opening { input.now ≡ Restart → OnOk result (IsStarting
            (media_in J.state J.faults J.keeps_synced J.turns self.old) (media_in J.state J.faults J.keeps_synced J.turns self.new) (start_mark J.state self.new)) }
    {
        match self {
            Part::Storage(node) => ready_replica(node, input, out),
            Part::Gatherer(node) => ready_gatherer(node, input, out),
            Part::Orderer(node) => ready_orderer(node, input, out),
        }
    }

    /// What it does with an input.
    pub(crate) fn act(&mut self, input: &Input, out: &mut Outbox) -> Effect
        requires fits { Fits (cluster_of self.old) (role_of self.old) (state_of J.state self.old) input.now }
        requires ready { IsReadyFor J.state self.old input.now out.old }
        ensures cluster { cluster_of self.new ≡ cluster_of self.old }
        ensures role { role_of self.new ≡ role_of self.old }
        ensures row { outcome_as (cluster_of self.old) (role_of self.old) (state_of J.state self.old) input.now result.mark
            ≡ Some (record { state = state_of J.state self.new; outputs = result.outputs; reply = result.reply }) }
        ensures letters { out.new.letters ≡ out.old.letters ++ map posted result.outputs }
        ensures few { length result.outputs ≤ 255 }
        ensures size { event_size (happened input.now result) ≤ 2097152 }
        ensures halted { result.mark ≡ Halted → RoseIn (media_in J.state J.faults J.keeps_synced J.turns self.old) (media_in J.state J.faults J.keeps_synced J.turns self.new) }
        ensures counts { CountsOn (media_in J.state J.faults J.keeps_synced J.turns self.old) (media_in J.state J.faults J.keeps_synced J.turns self.new) }
        ensures told { input.now ≢ Restart → (mark : Mark)
            → told_mark (media_in J.state J.faults J.keeps_synced J.turns self.old) (segment_put (cluster_of self.old) (role_of self.old) (state_of J.state self.old) input.now) ≡ Some mark
            → result.mark ≡ mark }
        ensures opened { input.now ≡ Restart → start_mark J.state self.old ≡ Some result.mark }
        ensures stayed { result.mark ≡ StayedDown → input.now ≡ Restart }
    {
        match self {
            Part::Storage(node) => act_replica(node, input, out),
            Part::Gatherer(node) => act_gatherer(node, input, out),
            Part::Orderer(node) => act_orderer(node, input, out),
        }
    }
}
