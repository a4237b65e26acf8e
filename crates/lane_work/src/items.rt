//! How a lane serves an item.

ghost use Rattle.std.specs.Prelude.{◌≡◌, ◌<◌, OnOk};
ghost use Rattle.command_frame.specs.Items.{IsItem};
ghost use Rattle.log_base.specs.Shape.{shape};
ghost use Rattle.node_model.specs.Sound.{payloads_on};
ghost use Rattle.cluster.specs.Clusters.{IsPassOf};
ghost use Rattle.lane_work.specs.Items.{lane_of};
ghost use Rattle.lane_work.specs.Keeping.{AnswersItem, IsBetween};
ghost use Rattle.lane_work.specs.Stages.{after_item};

use crate::beginnings::begin;
use crate::calling::lead_after;
use crate::serving::serve;
use client_session::Session;
use cluster::{Cluster, Pass};
use command_frame::Item;
use cut_chain::Places;
use log_base::Memory;
use reply_frame::Reply;
use segment_journal::Journal;
use std::sync::Wait;

/// The lane of an item.
pub fn lane_of(item: &Item) -> u8
    ensures { result ≡ lane_of item.now }
{
    match item {
        Item::Append { lane, .. }
        | Item::Read { lane, .. }
        | Item::Subscribe { lane, .. }
        | Item::Trim { lane, .. }
        | Item::Add { lane, .. }
        | Item::Finalise { lane, .. }
        | Item::Ask { lane }
        | Item::Fault { lane, .. } => *lane,
    }
}

/// Serves an item, and orders an orderer to lead where none does.
pub(crate) fn serve_item<R: Wait, J: Journal + Drop, P: Places>(
    rt: &R,
    cluster: &Cluster<J, P>,
    pass: &mut Pass<J, P>,
    session: &mut Session,
    item: &Item,
    lane: u8,
) -> Result<Reply, Memory>
    requires number { pass.old.account.number ≡ lane }
    requires pass { IsPassOf (shape cluster.now.config) cluster.now.run (payloads_on cluster.now.kept) cluster.now.cells.table.shared.table_id pass.old.account.number pass.old.seat }
    requires item { IsItem (shape cluster.now.config) item.now }
    requires room { session.old.draws < 65536 }
    requires between { IsBetween (shape cluster.now.config) cluster.now.run pass.old.account.number session.old pass.old.seat.me.0.own }
    ensures pass { IsPassOf (shape cluster.now.config) cluster.now.run (payloads_on cluster.now.kept) cluster.now.cells.table.shared.table_id pass.old.account.number pass.new.seat }
    ensures session { OnOk result (session.new ≡ after_item (shape cluster.now.config) session.old item.now) }
    ensures between { OnOk result (IsBetween (shape cluster.now.config) cluster.now.run pass.old.account.number session.new pass.new.seat.me.0.own) }
    ensures answer { AnswersItem (shape cluster.now.config) lane session.old item.now pass.old.account pass.new.account pass.old.seat.me.0.own pass.new.seat.me.0.own result }
{
    let stage = begin(cluster.alloc(), &cluster.config(), session, item)?;
    let reply = serve(rt, cluster, pass, stage)?;
    lead_after(rt, cluster, pass, lane, &reply)?;
    Ok(reply)
}
