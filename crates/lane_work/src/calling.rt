//! Calls of nodes, and orders to lead.

ghost use Rattle.std.specs.Prelude.{◌≡◌, ◌<◌};
ghost use Rattle.history_frame.specs.declared.inputs.Input.TheVariants.{Call as ACall};
ghost use Rattle.log_base.specs.Shape.{shape};
ghost use Rattle.node_model.specs.Fits.{IsInput};
ghost use Rattle.node_model.specs.Sound.{payloads_on};
ghost use Rattle.node_table.specs.Numbering.{nodes_of, role_at};
ghost use Rattle.cluster.specs.Clusters.{IsPassOf};
ghost use Rattle.cluster.specs.Submitting.{MaySubmit};
ghost use Rattle.lane_work.specs.Items.{IsLeadOf};
ghost use Rattle.lane_work.specs.Keeping.{LeadsOn, Makes, MakesCall, MayAsk};

use crate::copies::copy_call;
use crate::stages::Due;
use crate::turning::Went;
use cluster::{Called, Cluster, Pass, Turn};
use cut_chain::Places;
use log_base::Memory;
use reply_frame::Reply;
use segment_journal::Journal;
use std::sync::Wait;

/// What becomes of a call that is due.
#[derive(Debug, Drop)]
pub(crate) enum Asked {
    /// This is the node's reply.
    Answered(Reply),
    /// The pass may make none.
    Spent,
}

/// Makes the call that is due. Where another pass has the turn there, it tries again with another copy.
pub(crate) fn ask<R: Wait, J: Journal + Drop, P: Places>(
    rt: &R,
    cluster: &Cluster<J, P>,
    pass: &mut Pass<J, P>,
    due: &Due,
) -> Result<Asked, Memory>
    requires pass { IsPassOf (shape cluster.now.config) cluster.now.run (payloads_on cluster.now.kept) cluster.now.cells.table.shared.table_id pass.old.account.number pass.old.seat }
    requires due { MayAsk (shape cluster.now.config) cluster.now.run pass.old.account.number pass.old.seat.me.0.own due.now }
    ensures pass { IsPassOf (shape cluster.now.config) cluster.now.run (payloads_on cluster.now.kept) cluster.now.cells.table.shared.table_id pass.old.account.number pass.new.seat }
    ensures asked { MakesCall due.now pass.old.account pass.new.account pass.old.seat.me.0.own pass.new.seat.me.0.own result }
{
    'tries: for _ in rt.forever() {
        let call = copy_call(cluster.alloc(), &due.call)?;
        match cluster.call(pass, due.node, call)? {
            Called::Answered { reply, .. } => return Ok(Asked::Answered(reply)),
            Called::Busy => {}
            Called::Spent => return Ok(Asked::Spent),
        }
    }
    unreachable!()
}

/// Orders the lane's orderer to lead. Where another pass has the turn there, it tries again.
fn lead<R: Wait, J: Journal + Drop, P: Places>(
    rt: &R,
    cluster: &Cluster<J, P>,
    pass: &mut Pass<J, P>,
    lane: u8,
) -> Result<Went, Memory>
    requires pass { IsPassOf (shape cluster.now.config) cluster.now.run (payloads_on cluster.now.kept) cluster.now.cells.table.shared.table_id pass.old.account.number pass.old.seat }
    ensures pass { IsPassOf (shape cluster.now.config) cluster.now.run (payloads_on cluster.now.kept) cluster.now.cells.table.shared.table_id pass.old.account.number pass.new.seat }
    ensures went { Makes (IsLeadOf (shape cluster.now.config) lane) pass.old.account pass.new.account pass.old.seat.me.0.own pass.new.seat.me.0.own result }
{
    let index = lane % cluster.config().orderers();
    'tries: for _ in rt.forever() {
        match cluster.lead(pass, index)? {
            Turn::Handled { .. } => return Ok(Went::Made),
            Turn::Busy => {}
            Turn::Spent => return Ok(Went::Spent),
        }
    }
    unreachable!()
}

/// After a reply that no orderer leads, the lane's own is ordered to.
pub(crate) fn lead_after<R: Wait, J: Journal + Drop, P: Places>(
    rt: &R,
    cluster: &Cluster<J, P>,
    pass: &mut Pass<J, P>,
    lane: u8,
    reply: &Reply,
) -> Result<(), Memory>
    requires pass { IsPassOf (shape cluster.now.config) cluster.now.run (payloads_on cluster.now.kept) cluster.now.cells.table.shared.table_id pass.old.account.number pass.old.seat }
    ensures pass { IsPassOf (shape cluster.now.config) cluster.now.run (payloads_on cluster.now.kept) cluster.now.cells.table.shared.table_id pass.old.account.number pass.new.seat }
    ensures led { LeadsOn (shape cluster.now.config) lane pass.old.account pass.new.account pass.old.seat.me.0.own pass.new.seat.me.0.own reply.now result }
{
    match reply {
        Reply::NoLeader => {
            lead(rt, cluster, pass, lane)?;
            Ok(())
        }
        _ => Ok(()),
    }
}
