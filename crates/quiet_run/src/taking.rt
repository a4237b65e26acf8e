//! Taking the turns of a run, one by one.

ghost use Rattle.std.specs.Prelude.{◌≡◌, ◌≢◌, ◌+◌, ℕ, length, map, Ok, true, false, OnOk, OnErr, IfErr, IsSomeAnd};
ghost use Rattle.core_step.specs.Standing.{cluster_node};
ghost use Rattle.quiet_run.specs.declared.outcomes.DriveStop.TheVariants.{Memory as Want};
ghost use Rattle.counted_node.specs.Causes.{media_at, node_media};
ghost use Rattle.quiet_run.specs.Running.{CausesGoOn, HasGoneOn, IsOnItsWay, IsOver, IsTurnDue, StopsWith, TakesPlannedTurn, job_of, scheduled_in};
ghost use Rattle.quiet_run.specs.Planning.{AreHandedOver};
ghost use Rattle.quiet_run.specs.Runs.{IsStoppedRun};
ghost use Rattle.schedule_model.specs.Scheduling.{given, next_plans, next_turn};

use crate::limits::{is_one_full, limit_at};
use crate::outcomes::DriveStop;
use crate::planning::hand_over;
use crate::running::Running;
use crate::turning::take_turn;
use core_step::Node;
use cut_chain::Places;
use log_base::{Memory, Outbox};
use schedule_model::Turn;
use segment_journal::Journal;

impl<'a> Running<'a> {
    /// The next turn, if one comes. Whether one came is answered. Before it disks are told of failures to come.
    pub fn go_on<J: Journal + Drop, P: Places>(
        &mut self,
        nodes: &mut [Node<J, P>],
    ) -> Result<bool, DriveStop>
        requires way { IsOnItsWay (job_of self.old) self.old.events.items self.old.bytes (map (cluster_node J.state) nodes.old) }
        requires scheduled { self.old.schedule ≡ scheduled_in (job_of self.old) self.old.events.items }
        ensures more { result ≡ Ok true → HasGoneOn self.old self.new (map (cluster_node J.state) nodes.new) }
        ensures over { result ≡ Ok false → IsOver (job_of self.new) self.new.events.items self.new.bytes self.new.schedule.replies (map (cluster_node J.state) nodes.new) }
        ensures same { result ≡ Ok false → job_of self.new ≡ job_of self.old }
        ensures err { IfErr result (λ stop. IsStoppedRun (job_of self.old) (map (cluster_node J.state) nodes.new) stop) }
        ensures causes { OnOk result (CausesGoOn (job_of self.old).config self.old.events.items self.new.events.items
            (map (node_media J.state J.faults J.keeps_synced J.turns) nodes.old) (map (node_media J.state J.faults J.keeps_synced J.turns) nodes.new)) }
        ensures err_causes { IfErr result (λ stop. StopsWith (job_of self.old) self.old.events.items (map (cluster_node J.state) nodes.new)
            (map (node_media J.state J.faults J.keeps_synced J.turns) nodes.old) (map (node_media J.state J.faults J.keeps_synced J.turns) nodes.new) stop) }
        ensures plans { result ≡ Ok true → TakesPlannedTurn (job_of self.old) self.old.events.items (map (cluster_node J.state) nodes.old)
            (map (node_media J.state J.faults J.keeps_synced J.turns) nodes.old) (map (node_media J.state J.faults J.keeps_synced J.turns) nodes.new) }
        ensures last_plans { result ≡ Ok false → AreHandedOver (next_plans (scheduled_in (job_of self.old) self.old.events.items)) (map (cluster_node J.state) nodes.old)
            (map (node_media J.state J.faults J.keeps_synced J.turns) nodes.old) (map (node_media J.state J.faults J.keeps_synced J.turns) nodes.new) }
    {
        let next = self.schedule.next()?;
        hand_over(nodes, next.plans.get());
        self.go_on_with(next.turn, nodes)
    }

    /// Takes the turn that comes, if one does.
    fn go_on_with<J: Journal + Drop, P: Places>(
        &mut self,
        next: Option<Turn>,
        nodes: &mut [Node<J, P>],
    ) -> Result<bool, DriveStop>
        requires way { IsOnItsWay (job_of self.old) self.old.events.items self.old.bytes (map (cluster_node J.state) nodes.old) }
        requires coming { next ≡ next_turn (scheduled_in (job_of self.old) self.old.events.items) }
        requires given { self.old.schedule ≡ given (scheduled_in (job_of self.old) self.old.events.items) }
        ensures more { result ≡ Ok true → HasGoneOn self.old self.new (map (cluster_node J.state) nodes.new) }
        ensures over { result ≡ Ok false → IsOver (job_of self.new) self.new.events.items self.new.bytes self.new.schedule.replies (map (cluster_node J.state) nodes.new) }
        ensures same { result ≡ Ok false → job_of self.new ≡ job_of self.old }
        ensures err { IfErr result (λ stop. IsStoppedRun (job_of self.old) (map (cluster_node J.state) nodes.new) stop) }
        ensures causes { OnOk result (CausesGoOn (job_of self.old).config self.old.events.items self.new.events.items
            (map (node_media J.state J.faults J.keeps_synced J.turns) nodes.old) (map (node_media J.state J.faults J.keeps_synced J.turns) nodes.new)) }
        ensures err_causes { IfErr result (λ stop. StopsWith (job_of self.old) self.old.events.items (map (cluster_node J.state) nodes.new)
            (map (node_media J.state J.faults J.keeps_synced J.turns) nodes.old) (map (node_media J.state J.faults J.keeps_synced J.turns) nodes.new) stop) }
        ensures others { result ≡ Ok true → IsSomeAnd next (λ turn. (other : ℕ) → other ≢ turn.node.0
            → media_at (map (node_media J.state J.faults J.keeps_synced J.turns) nodes.new) other ≡ media_at (map (node_media J.state J.faults J.keeps_synced J.turns) nodes.old) other) }
        ensures still { result ≡ Ok false → map (node_media J.state J.faults J.keeps_synced J.turns) nodes.new ≡ map (node_media J.state J.faults J.keeps_synced J.turns) nodes.old }
    {
        let full = is_one_full(nodes);
        if let Some(cause) = limit_at(next.is_some(), self.events.len(), full, self.bytes) {
            return Err(DriveStop::Limit { cause });
        }
        match next {
            Some(turn) => {
                self.take(turn, nodes)?;
                return Ok(true);
            }
            None => return Ok(false),
        }
    }

    /// The node whose turn has come takes it, and what happened is kept.
    fn take<J: Journal + Drop, P: Places>(
        &mut self,
        turn: Turn,
        nodes: &mut [Node<J, P>],
    ) -> Result<(), Memory>
        requires way { IsOnItsWay (job_of self.old) self.old.events.items self.old.bytes (map (cluster_node J.state) nodes.old) }
        requires due { IsTurnDue (job_of self.old) self.old.events.items self.old.schedule turn }
        ensures ok { OnOk result (HasGoneOn self.old self.new (map (cluster_node J.state) nodes.new)) }
        ensures err { OnErr result (IsStoppedRun (job_of self.old) (map (cluster_node J.state) nodes.new) Want) }
        ensures causes { OnOk result (CausesGoOn (job_of self.old).config self.old.events.items self.new.events.items
            (map (node_media J.state J.faults J.keeps_synced J.turns) nodes.old) (map (node_media J.state J.faults J.keeps_synced J.turns) nodes.new)) }
        ensures err_causes { OnErr result (StopsWith (job_of self.old) self.old.events.items (map (cluster_node J.state) nodes.new)
            (map (node_media J.state J.faults J.keeps_synced J.turns) nodes.old) (map (node_media J.state J.faults J.keeps_synced J.turns) nodes.new) Want) }
        ensures others { OnOk result ((other : ℕ) → other ≢ turn.node.0
            → media_at (map (node_media J.state J.faults J.keeps_synced J.turns) nodes.new) other ≡ media_at (map (node_media J.state J.faults J.keeps_synced J.turns) nodes.old) other) }
    {
        let mut out = Outbox::new(self.alloc);
        let happened = take_turn(nodes, usize::from(turn.node.0), turn.input, &mut out)?;
        self.keep(turn.node, happened, &mut out)
    }
}
