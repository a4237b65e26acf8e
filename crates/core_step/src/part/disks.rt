//! The journals of a part.

ghost use Rattle.std.specs.Prelude.{◌≡◌, ℕ, ◌<◌, ◌≤◌, [], ◌∷◌, length, map, vec_capacity, vec_len};
ghost use Rattle.node_model.specs.Durable.{payload_in_flight};
ghost use Rattle.node_model.specs.NodeState.{Ordering, Storing};
ghost use Rattle.segment_journal.specs.Journalled.{planned};
ghost use Rattle.shard_replica.specs.Journals.{states_of};
ghost use Rattle.shard_replica.specs.Lists.{but_turns, media_of, medium_at, medium_of};
ghost use Rattle.orderer_node.specs.Ordering.{node_of as orderer_state};
ghost use Rattle.storage_node.specs.StorageState.{config_of, node_of};
ghost use Rattle.shard_replica.specs.Telling.{AreTold};
ghost use Rattle.core_step.specs.Disks.{journals_of, media_in};
ghost use Rattle.core_step.specs.Handed.{HasPlaceFor, HoldsState};
ghost use Rattle.core_step.specs.Standing.{cluster_of, role_in, role_of, state_of};

use super::Part;
use cut_chain::Places;
use disk_base::Plan;
use orderer_node::OrdererNode;
use segment_journal::Journal;
use storage_node::StorageNode;

impl<J: Journal, P: Places> Part<J, P> {
    /// Hands the plan to each journal.
    pub(crate) fn plan(&mut self, plan: Plan)
        ensures cluster { cluster_of self.new ≡ cluster_of self.old }
        ensures role { role_of self.new ≡ role_of self.old }
        ensures state { state_of J.state self.new ≡ state_of J.state self.old }
        ensures media { map but_turns (media_in J.state J.faults J.keeps_synced J.turns self.new)
            ≡ map but_turns (media_in J.state J.faults J.keeps_synced J.turns self.old) }
        ensures turns { (k : ℕ) → (medium_at (media_in J.state J.faults J.keeps_synced J.turns self.new) k).turns
            ≡ planned (payload_in_flight (state_of J.state self.old) k) plan (medium_at (media_in J.state J.faults J.keeps_synced J.turns self.old) k).turns }
    {
        match self {
            Part::Storage(node) => plan_replica(node, plan),
            Part::Gatherer(_) => {}
            Part::Orderer(node) => plan_orderer(node, plan),
        }
    }
}

impl<J: Journal, P: Places> Part<J, P> {
    /// What is told of the journals is what they tell. It does nothing.
    pub(crate) fn tell(&self)
        ensures { AreTold J.state J.faults J.keeps_synced J.turns (journals_of (cluster_of self.now) (role_of self.now)) (media_in J.state J.faults J.keeps_synced J.turns self.now) }
    {
        match self {
            Part::Storage(node) => return node.tell(),
            Part::Gatherer(_) => return,
            Part::Orderer(_) => return,
        }
    }
}

impl<J: Journal + Drop, P: Places> Part<J, P> {
    /// Gives the journals back, in order of segment. That of an orderer goes into the spare list, which has
    /// room for it.
    pub(crate) fn into_journals(self, spare: Vec<J>) -> Vec<J>
        requires none { spare.items ≡ [] }
        requires room { HasPlaceFor self (vec_capacity spare) }
        ensures holds { HoldsState (states_of J.state result.items) (state_of J.state self) }
        ensures media { media_of J.state J.faults J.keeps_synced J.turns result.items ≡ media_in J.state J.faults J.keeps_synced J.turns self }
    {
        match self {
            Part::Storage(node) => journals_of_replica(node),
            Part::Gatherer(_) => spare,
            Part::Orderer(node) => journal_of_orderer(node, spare),
        }
    }
}

// Hands the plan to the journals of a replica.
fn plan_replica<J: Journal, P: Places>(node: &mut StorageNode<J, P>, plan: Plan)
    ensures cluster { config_of node.new ≡ config_of node.old }
    ensures role { role_in node.new ≡ role_in node.old }
    ensures state { node_of node.new ≡ node_of node.old }
    ensures media { map but_turns node.new.replica.media ≡ map but_turns node.old.replica.media }
    ensures turns { (k : ℕ) → (medium_at node.new.replica.media k).turns
        ≡ planned (payload_in_flight (Storing (node_of node.old)) k) plan (medium_at node.old.replica.media k).turns }
{
    node.plan(plan);
}

// Hands the plan to the journal of an orderer.
fn plan_orderer<J: Journal, P: Places>(node: &mut OrdererNode<J, P>, plan: Plan)
    ensures cluster { node.new.memory.config ≡ node.old.memory.config }
    ensures role { node.new.index ≡ node.old.index }
    ensures state { orderer_state J.state node.new ≡ orderer_state J.state node.old }
    ensures media { but_turns (medium_of (J.state node.new.journal) (J.faults node.new.journal) (J.keeps_synced node.new.journal) (J.turns node.new.journal))
        ≡ but_turns (medium_of (J.state node.old.journal) (J.faults node.old.journal) (J.keeps_synced node.old.journal) (J.turns node.old.journal)) }
    ensures turns { J.turns node.new.journal
        ≡ planned (payload_in_flight (Ordering (orderer_state J.state node.old)) 0) plan (J.turns node.old.journal) }
{
    node.plan(plan);
}

// The journals of a replica.
fn journals_of_replica<J: Journal, P: Places>(node: StorageNode<J, P>) -> Vec<J>
    ensures holds { HoldsState (states_of J.state result.items) (Storing (node_of node)) }
    ensures media { media_of J.state J.faults J.keeps_synced J.turns result.items ≡ node.replica.media }
{
    node.into_journals()
}

// The journal of an orderer, in a list with room for it.
fn journal_of_orderer<J: Journal + Drop, P: Places>(
    node: OrdererNode<J, P>,
    mut spare: Vec<J>,
) -> Vec<J>
    requires none { spare.items ≡ [] }
    requires room { 1 ≤ vec_capacity spare }
    ensures holds { HoldsState (states_of J.state result.items) (Ordering (orderer_state J.state node)) }
    ensures items { result.items ≡ node.journal ∷ [] }
{
    let journal = node.into_journal();
    let _ = spare.push(journal);
    spare
}
