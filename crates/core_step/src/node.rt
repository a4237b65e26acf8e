//! A node of any role.

ghost use Rattle.std.specs.Prelude.{◌≡◌, ◌≢◌, ℕ, ◌≤◌, ◌++◌, length, Some, IfOk, OnOk};
ghost use Rattle.history_frame.specs.declared.inputs.Input.TheVariants.{Restart};
ghost use Rattle.history_frame.specs.declared.inputs.Mark.{Mark};
ghost use Rattle.history_frame.specs.declared.inputs.Mark.TheVariants.{Halted, StayedDown};
ghost use Rattle.history_frame.specs.Effects.{happened};
ghost use Rattle.log_base.specs.Shape.{shape};
ghost use Rattle.node_model.specs.Machine.{node_meanings};
ghost use Rattle.node_table.specs.Numbering.{role_at};
ghost use Rattle.shard_replica.specs.Lists.{medium_at};
ghost use Rattle.storage_node.specs.Counting.{CountsOn};
ghost use Rattle.storage_node.specs.Opening.{RoseIn};
ghost use Rattle.core_step.specs.Disks.{IsStarting, media_in, segment_put, start_mark, told_mark};
ghost use Rattle.core_step.specs.Standing.{IsReadyFor, cluster_node, state_of};
ghost use Rattle.safety_law.proofs.MachineLaw.{deliveries_fit as letters_fit};

use crate::part::Part;
use cut_chain::Places;
use history_frame::{Effect, Happened, Input};
use log_base::{Config, Machine, Memory, NodeId, Outbox};
use node_model::RuleState;
use segment_journal::Journal;
use std::marker::Model;

mod disks;
mod starting;
mod telling;

/// A node of a cluster: it stores records, gathers what is stored, or orders.
#[derive(Drop)]
pub struct Node<J: Journal, P: Places> {
    config: Config,
    number: NodeId,
    part: Part<J, P>,
    spare: Vec<J>,
}

impl<J: Journal, P: Places> Model for Node<J, P> {
    ghost use Rattle.log_base.specs.Shape.{shape};
    ghost use Rattle.std.specs.Prelude.{vec_capacity};
    ghost use Rattle.core_step.specs.Handed.{IsNode};
    ghost use Rattle.core_step.specs.Standing.{Standing};

    ghost Value = { Standing J P };

    ghost view = { λ n. record { config = shape n.config; number = n.number.0; part = n.part } };

    ghost invariant = { λ n. IsNode (shape n.config) n.number.0 n.part n.spare.items (vec_capacity n.spare) };
}

impl<J: Journal, P: Places> Node<J, P> {
    /// What the row of an input does, by the rules of its role. The step of a machine is made of it.
    pub fn act(&mut self, input: &Input, out: &mut Outbox) -> Effect
        requires fits { node_meanings.fits (cluster_node J.state self.old) input.now }
        requires ready { IsReadyFor J.state self.old.part input.now out.old }
        ensures row { node_meanings.is_row (cluster_node J.state self.old) (happened input.now result) }
        ensures after { cluster_node J.state self.new ≡ node_meanings.after (cluster_node J.state self.old) (happened input.now result) }
        ensures letters { out.new.letters ≡ out.old.letters ++ node_meanings.outputs (happened input.now result) }
        ensures few { length result.outputs ≤ 255 }
        ensures size { node_meanings.size (happened input.now result) ≤ 2097152 }
        ensures halted { result.mark ≡ Halted → RoseIn (media_in J.state J.faults J.keeps_synced J.turns self.old.part) (media_in J.state J.faults J.keeps_synced J.turns self.new.part) }
        ensures counts { CountsOn (media_in J.state J.faults J.keeps_synced J.turns self.old.part) (media_in J.state J.faults J.keeps_synced J.turns self.new.part) }
        ensures told { input.now ≢ Restart → (mark : Mark)
            → told_mark (media_in J.state J.faults J.keeps_synced J.turns self.old.part) (segment_put self.old.config (role_at self.old.config self.old.number) (state_of J.state self.old.part) input.now) ≡ Some mark
            → result.mark ≡ mark }
        ensures opened { input.now ≡ Restart → start_mark J.state self.old.part ≡ Some result.mark }
        ensures stayed { result.mark ≡ StayedDown → input.now ≡ Restart }
    {
        self.part.act(input, out)
    }
}

impl<J: Journal + Drop, P: Places> Machine for Node<J, P> {
    type Input = Input;

    type Happened = Happened;

    type State = RuleState;

    ghost state = { cluster_node J.state };

    ghost meanings = { node_meanings };

    ghost is_ready = { λ node input out. IsReadyFor J.state node.part input out };

    /// For a start the journals are read. Where this fails the start shows it. No count of faults falls.
    fn ready(&mut self, input: &Input, out: &mut Outbox) -> Result<(), Memory>
        requires { node_meanings.fits (cluster_node J.state self.old) input.now }
        ensures same { cluster_node J.state self.new ≡ cluster_node J.state self.old }
        ensures letters { out.new.letters ≡ out.old.letters }
        ensures ready { IfOk result (λ _. IsReadyFor J.state self.new.part input.now out.new) }
        ensures counts { CountsOn (media_in J.state J.faults J.keeps_synced J.turns self.old.part) (media_in J.state J.faults J.keeps_synced J.turns self.new.part) }
        ensures turns { input.now ≢ Restart → (k : ℕ) → (medium_at (media_in J.state J.faults J.keeps_synced J.turns self.new.part) k).turns
            ≡ (medium_at (media_in J.state J.faults J.keeps_synced J.turns self.old.part) k).turns }
        ensures opening { input.now ≡ Restart → OnOk result (IsStarting
            (media_in J.state J.faults J.keeps_synced J.turns self.old.part) (media_in J.state J.faults J.keeps_synced J.turns self.new.part) (start_mark J.state self.new.part)) }
    {
        self.part.ready(input, out)
    }

    /// One row of the rules of its role. It halts only where a count of faults rose in this step. Where the
    /// journals tell how their next put turns out, the mark is the one that follows, and a start has the mark
    /// that the journals were read with.
    fn step(&mut self, input: Input, out: &mut Outbox) -> Happened
        requires fits { node_meanings.fits (cluster_node J.state self.old) input }
        requires ready { IsReadyFor J.state self.old.part input out.old }
        ensures input { result.input ≡ input }
        ensures row { node_meanings.is_row (cluster_node J.state self.old) result }
        ensures after { cluster_node J.state self.new ≡ node_meanings.after (cluster_node J.state self.old) result }
        ensures letters { out.new.letters ≡ out.old.letters ++ node_meanings.outputs result }
        ensures few { length result.outputs ≤ 255 }
        ensures size { node_meanings.size result ≤ 2097152 }
        ensures halted { result.mark ≡ Halted → RoseIn (media_in J.state J.faults J.keeps_synced J.turns self.old.part) (media_in J.state J.faults J.keeps_synced J.turns self.new.part) }
        ensures counts { CountsOn (media_in J.state J.faults J.keeps_synced J.turns self.old.part) (media_in J.state J.faults J.keeps_synced J.turns self.new.part) }
        ensures told { input ≢ Restart → (mark : Mark)
            → told_mark (media_in J.state J.faults J.keeps_synced J.turns self.old.part) (segment_put self.old.config (role_at self.old.config self.old.number) (state_of J.state self.old.part) input) ≡ Some mark
            → result.mark ≡ mark }
        ensures opened { input ≡ Restart → start_mark J.state self.old.part ≡ Some result.mark }
        ensures stayed { result.mark ≡ StayedDown → input ≡ Restart }
    {
        let effect = self.act(&input, out);
        effect.on(input)
    }

    ghost deliveries_fit = { letters_fit };
}
