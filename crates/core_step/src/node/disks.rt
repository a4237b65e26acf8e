//! The journals of a node.

ghost use Rattle.std.specs.Prelude.{◌≡◌, ℕ, map};
ghost use Rattle.node_model.specs.Durable.{payload_in_flight};
ghost use Rattle.segment_journal.specs.Journalled.{planned};
ghost use Rattle.shard_replica.specs.Journals.{states_of};
ghost use Rattle.shard_replica.specs.Lists.{but_turns, media_of, medium_at};
ghost use Rattle.node_table.specs.Numbering.{role_at};
ghost use Rattle.shard_replica.specs.Telling.{AreTold};
ghost use Rattle.core_step.specs.Disks.{journals_of, media_in};
ghost use Rattle.core_step.specs.Handed.{HoldsState};
ghost use Rattle.core_step.specs.Standing.{state_of};

use crate::node::Node;
use cut_chain::Places;
use disk_base::Plan;
use segment_journal::Journal;

impl<J: Journal, P: Places> Node<J, P> {
    /// Hands the plan to each journal. The state stays.
    pub fn plan(&mut self, plan: Plan)
        ensures config { self.new.config ≡ self.old.config }
        ensures number { self.new.number ≡ self.old.number }
        ensures state { state_of J.state self.new.part ≡ state_of J.state self.old.part }
        ensures media { map but_turns (media_in J.state J.faults J.keeps_synced J.turns self.new.part)
            ≡ map but_turns (media_in J.state J.faults J.keeps_synced J.turns self.old.part) }
        ensures turns { (k : ℕ) → (medium_at (media_in J.state J.faults J.keeps_synced J.turns self.new.part) k).turns
            ≡ planned (payload_in_flight (state_of J.state self.old.part) k) plan
            (medium_at (media_in J.state J.faults J.keeps_synced J.turns self.old.part) k).turns }
    {
        self.part.plan(plan);
    }

    /// What is told of the journals is what they tell: a storage node has one for each replica of its shard,
    /// an orderer one, and a gatherer none. It does nothing.
    pub fn tell(&self)
        ensures { AreTold J.state J.faults J.keeps_synced J.turns (journals_of self.now.config (role_at self.now.config self.now.number))
            (media_in J.state J.faults J.keeps_synced J.turns self.now.part) }
    {
        self.part.tell();
    }
}

impl<J: Journal + Drop, P: Places> Node<J, P> {
    /// Gives the journals back, in order of segment. A gatherer has none.
    pub fn into_journals(self) -> Vec<J>
        ensures holds { HoldsState (states_of J.state result.items) (state_of J.state self.part) }
        ensures media { media_of J.state J.faults J.keeps_synced J.turns result.items ≡ media_in J.state J.faults J.keeps_synced J.turns self.part }
    {
        let Node {
            config: _,
            number: _,
            part,
            spare,
        } = self;
        part.into_journals(spare)
    }
}
