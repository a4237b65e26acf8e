//! How an item is served, from its first call to its reply.

ghost use Rattle.std.specs.Prelude.{◌≡◌, ◌<◌};
ghost use Rattle.log_base.specs.Shape.{shape};
ghost use Rattle.node_model.specs.Sound.{payloads_on};
ghost use Rattle.node_table.specs.Numbering.{nodes_of};
ghost use Rattle.cluster.specs.Clusters.{IsPassOf};
ghost use Rattle.lane_work.specs.Keeping.{MayAsk, MayGo, Serves, Steps};
ghost use Rattle.lane_work.specs.Stages.{unplaced_stage};
ghost use Rattle.lane_work.specs.declared.stages.Stage.TheVariants.{Asks as Asking_, Turns as Turning_};

use crate::answers::{after_turn, go_on};
use crate::calling::{Asked, ask};
use crate::stages::{Asking, Stage};
use crate::turning::{Went, turn_node};
use cluster::{Cluster, Pass};
use cut_chain::Places;
use log_base::{Memory, NodeId};
use reply_frame::Reply;
use segment_journal::Journal;
use std::sync::Wait;

/// A step of an item.
#[derive(Debug, Drop)]
pub(crate) enum Step {
    /// It stands here then.
    Goes(Stage),
    /// It has its reply.
    Done(Reply),
}

/// Makes the call that is due, and goes on by its answer.
fn step_call<R: Wait, J: Journal + Drop, P: Places>(
    rt: &R,
    cluster: &Cluster<J, P>,
    pass: &mut Pass<J, P>,
    asking: Asking,
) -> Result<Step, Memory>
    requires pass { IsPassOf (shape cluster.now.config) cluster.now.run (payloads_on cluster.now.kept) cluster.now.cells.table.shared.table_id pass.old.account.number pass.old.seat }
    requires due { MayAsk (shape cluster.now.config) cluster.now.run pass.old.account.number pass.old.seat.me.0.own asking.due }
    ensures pass { IsPassOf (shape cluster.now.config) cluster.now.run (payloads_on cluster.now.kept) cluster.now.cells.table.shared.table_id pass.old.account.number pass.new.seat }
    ensures step { Steps (shape cluster.now.config) (Asking_ asking) pass.old.account pass.new.account pass.old.seat.me.0.own pass.new.seat.me.0.own result }
{
    match ask(rt, cluster, pass, &asking.due)? {
        Asked::Answered(reply) => {
            let next = go_on(cluster.alloc(), &cluster.config(), asking, &reply)?;
            Ok(Step::Goes(next))
        }
        Asked::Spent => Ok(Step::Done(Reply::Spent { used: pass.used() })),
    }
}

/// Turns a node ahead of the same call.
fn step_turn<R: Wait, J: Journal + Drop, P: Places>(
    rt: &R,
    cluster: &Cluster<J, P>,
    pass: &mut Pass<J, P>,
    node: NodeId,
    asking: Asking,
) -> Result<Step, Memory>
    requires pass { IsPassOf (shape cluster.now.config) cluster.now.run (payloads_on cluster.now.kept) cluster.now.cells.table.shared.table_id pass.old.account.number pass.old.seat }
    requires node { node.0 < nodes_of (shape cluster.now.config) }
    ensures pass { IsPassOf (shape cluster.now.config) cluster.now.run (payloads_on cluster.now.kept) cluster.now.cells.table.shared.table_id pass.old.account.number pass.new.seat }
    ensures step { Steps (shape cluster.now.config) (Turning_ node asking) pass.old.account pass.new.account pass.old.seat.me.0.own pass.new.seat.me.0.own result }
{
    match turn_node(rt, cluster, pass, node)? {
        Went::Made => Ok(Step::Goes(after_turn(&cluster.config(), node, asking))),
        Went::Spent => Ok(Step::Done(Reply::Spent { used: pass.used() })),
    }
}

/// Makes the event that is due, or ends with the reply.
fn take_step<R: Wait, J: Journal + Drop, P: Places>(
    rt: &R,
    cluster: &Cluster<J, P>,
    pass: &mut Pass<J, P>,
    stage: Stage,
) -> Result<Step, Memory>
    requires pass { IsPassOf (shape cluster.now.config) cluster.now.run (payloads_on cluster.now.kept) cluster.now.cells.table.shared.table_id pass.old.account.number pass.old.seat }
    requires stage { MayGo (shape cluster.now.config) cluster.now.run pass.old.account.number pass.old.seat.me.0.own (unplaced_stage stage) }
    ensures pass { IsPassOf (shape cluster.now.config) cluster.now.run (payloads_on cluster.now.kept) cluster.now.cells.table.shared.table_id pass.old.account.number pass.new.seat }
    ensures step { Steps (shape cluster.now.config) (unplaced_stage stage) pass.old.account pass.new.account pass.old.seat.me.0.own pass.new.seat.me.0.own result }
{
    match stage {
        Stage::Asks(asking) => step_call(rt, cluster, pass, asking),
        Stage::Turns { next, asking } => step_turn(rt, cluster, pass, next, asking),
        Stage::Replied(reply) => Ok(Step::Done(reply)),
    }
}

/// Goes on with an item to its reply.
pub(crate) fn serve<R: Wait, J: Journal + Drop, P: Places>(
    rt: &R,
    cluster: &Cluster<J, P>,
    pass: &mut Pass<J, P>,
    first: Stage,
) -> Result<Reply, Memory>
    requires pass { IsPassOf (shape cluster.now.config) cluster.now.run (payloads_on cluster.now.kept) cluster.now.cells.table.shared.table_id pass.old.account.number pass.old.seat }
    requires stage { MayGo (shape cluster.now.config) cluster.now.run pass.old.account.number pass.old.seat.me.0.own (unplaced_stage first) }
    ensures pass { IsPassOf (shape cluster.now.config) cluster.now.run (payloads_on cluster.now.kept) cluster.now.cells.table.shared.table_id pass.old.account.number pass.new.seat }
    ensures served { Serves (shape cluster.now.config) (unplaced_stage first) pass.old.account pass.new.account pass.old.seat.me.0.own pass.new.seat.me.0.own result }
{
    let mut stage = first;
    'steps: for _ in rt.forever() {
        match take_step(rt, cluster, pass, stage)? {
            Step::Goes(next) => stage = next,
            Step::Done(reply) => return Ok(reply),
        }
    }
    unreachable!()
}
