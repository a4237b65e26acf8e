//! Turns of nodes.

ghost use Rattle.std.specs.Prelude.{◌≡◌, ◌<◌, ◌%◌, length};
ghost use Rattle.log_base.specs.Shape.{shape};
ghost use Rattle.node_model.specs.Sound.{payloads_on};
ghost use Rattle.node_table.specs.Numbering.{nodes_of};
ghost use Rattle.cluster.specs.Clusters.{IsPassOf};
ghost use Rattle.lane_work.specs.Keeping.{Makes, TurnsAll};
ghost use Rattle.lane_work.specs.Stages.{IsTurnAt};
ghost use Rattle.lane_work.specs.Workers.{WorkerTurns};

use cluster::{Cluster, Pass, Turn};
use cut_chain::Places;
use log_base::{Memory, NodeId};
use node_table::nodes;
use segment_journal::Journal;
use std::sync::Wait;

/// How many rounds a worker makes.
const ROUNDS: u8 = 64;

/// What becomes of an event that is due.
#[derive(Clone, Copy, Debug, PartialEq, Eq)]
pub(crate) enum Went {
    /// It was made.
    Made,
    /// The pass may make none.
    Spent,
}

/// Turns a node. Where another pass has the turn there, it tries again.
pub(crate) fn turn_node<R: Wait, J: Journal + Drop, P: Places>(
    rt: &R,
    cluster: &Cluster<J, P>,
    pass: &mut Pass<J, P>,
    node: NodeId,
) -> Result<Went, Memory>
    requires pass { IsPassOf (shape cluster.now.config) cluster.now.run (payloads_on cluster.now.kept) cluster.now.cells.table.shared.table_id pass.old.account.number pass.old.seat }
    requires node { node.0 < nodes_of (shape cluster.now.config) }
    ensures pass { IsPassOf (shape cluster.now.config) cluster.now.run (payloads_on cluster.now.kept) cluster.now.cells.table.shared.table_id pass.old.account.number pass.new.seat }
    ensures went { Makes (IsTurnAt node.0) pass.old.account pass.new.account pass.old.seat.me.0.own pass.new.seat.me.0.own result }
{
    'tries: for _ in rt.forever() {
        match cluster.turn(pass, node)? {
            Turn::Handled { .. } => return Ok(Went::Made),
            Turn::Busy => {}
            Turn::Spent => return Ok(Went::Spent),
        }
    }
    unreachable!()
}

/// Turns every node once, in order.
fn turn_all<R: Wait, J: Journal + Drop, P: Places>(
    rt: &R,
    cluster: &Cluster<J, P>,
    pass: &mut Pass<J, P>,
) -> Result<Went, Memory>
    requires pass { IsPassOf (shape cluster.now.config) cluster.now.run (payloads_on cluster.now.kept) cluster.now.cells.table.shared.table_id pass.old.account.number pass.old.seat }
    ensures pass { IsPassOf (shape cluster.now.config) cluster.now.run (payloads_on cluster.now.kept) cluster.now.cells.table.shared.table_id pass.old.account.number pass.new.seat }
    ensures went { TurnsAll (nodes_of (shape cluster.now.config)) pass.new.account pass.old.seat.me.0.own pass.new.seat.me.0.own result }
{
    for node in 0..nodes(&cluster.config()) {
        match turn_node(rt, cluster, pass, NodeId(node))? {
            Went::Made => {}
            Went::Spent => return Ok(Went::Spent),
        }
    }
    Ok(Went::Made)
}

/// Turns all nodes in rounds.
pub(crate) fn turn_in_rounds<R: Wait, J: Journal + Drop, P: Places>(
    rt: &R,
    cluster: &Cluster<J, P>,
    pass: &mut Pass<J, P>,
) -> Result<(), Memory>
    requires pass { IsPassOf (shape cluster.now.config) cluster.now.run (payloads_on cluster.now.kept) cluster.now.cells.table.shared.table_id pass.old.account.number pass.old.seat }
    ensures pass { IsPassOf (shape cluster.now.config) cluster.now.run (payloads_on cluster.now.kept) cluster.now.cells.table.shared.table_id pass.old.account.number pass.new.seat }
    ensures went { WorkerTurns (nodes_of (shape cluster.now.config)) pass.new.account pass.old.seat.me.0.own pass.new.seat.me.0.own result }
{
    for round in 0..ROUNDS {
        let _ = round;
        match turn_all(rt, cluster, pass)? {
            Went::Made => {}
            Went::Spent => return Ok(()),
        }
    }
    Ok(())
}
