//! The work of lanes and workers on a cluster.

ghost use Rattle.std.specs.Prelude.{◌≡◌, ◌≤◌, length};
ghost use Rattle.std.specs.List.{AllByRecursion};
ghost use Rattle.command_frame.specs.Items.{IsNoFault};
ghost use Rattle.log_base.specs.Shape.{shape};
ghost use Rattle.node_model.specs.Sound.{payloads_on};
ghost use Rattle.cluster.specs.Clusters.{IsPassOf};
ghost use Rattle.lane_work.specs.Lanes.{FitsLane, LaneGoes};
ghost use Rattle.lane_work.specs.Workers.{WorkerGoes};
ghost use Rattle.lane_work.specs.OwnItems.{AreItems, items_prop};

use crate::items::{lane_of, serve_item};
use crate::turning::turn_in_rounds;
use client_session::Session;
use cluster::{Cluster, Pass};
use command_frame::Item;
use cut_chain::Places;
use log_base::{Client, List, Memory};
use node_threads::{Gate, Work};
use reply_frame::Reply;
use segment_journal::Journal;
use std::marker::Send;
use std::sync::Wait;

/// A cluster, and the items that lanes serve on it. A lane goes by a pass of its number, and each worker by another pass.
#[derive(Drop)]
pub struct LaneWork<J: Journal + Drop, P: Places> {
    pub(crate) cluster: Cluster<J, P>,
    pub(crate) items: List<Item>,
    ghost few: { length items ≤ 65536 },
    ghost each: { AreItems (shape cluster.config) items } by { items_prop (shape cluster.config) items },
}

impl<J: Journal + Drop, P: Places> LaneWork<J, P> {
    /// The work on a cluster for these items, which are its own. None is a line of the fault script.
    pub fn new(cluster: Cluster<J, P>, items: Vec<Item>) -> LaneWork<J, P>
        requires few { length items.items ≤ 65536 }
        requires each { AreItems (shape cluster.config) items.items }
        requires no_faults { AllByRecursion IsNoFault items.items }
        ensures cluster { result.cluster ≡ cluster }
        ensures items { result.items ≡ items.items }
    {
        LaneWork {
            cluster,
            items: List::of(items),
        }
    }

    /// The cluster is handed back.
    pub fn into_cluster(self) -> Cluster<J, P>
        ensures { result ≡ self.cluster }
    {
        self.cluster
    }
}

impl<J: Journal + Drop + Send, P: Places + Send> Work for LaneWork<J, P> {
    type Token = Pass<J, P>;

    type Answers = Result<List<Reply>, Memory>;

    ghost fits_lane = { λ work lane token. FitsLane (shape work.cluster.config) work.cluster.run (payloads_on work.cluster.kept) work.cluster.cells.table.shared.table_id lane token.seat };

    ghost lane_gives = { λ work lane before after answers. LaneGoes (shape work.cluster.config) work.cluster.run (payloads_on work.cluster.kept) work.cluster.cells.table.shared.table_id lane work.items before.seat after.seat after.account answers };

    ghost fits_worker = { λ work token. IsPassOf (shape work.cluster.config) work.cluster.run (payloads_on work.cluster.kept) work.cluster.cells.table.shared.table_id token.account.number token.seat };

    ghost worker_gives = { λ work before after answer. WorkerGoes (shape work.cluster.config) work.cluster.run (payloads_on work.cluster.kept) work.cluster.cells.table.shared.table_id before.account.number before.seat after.seat after.account answer };

    fn lane<R: Wait, G: Gate>(
        &self,
        rt: &R,
        token: &mut Pass<J, P>,
        lane: u8,
        gate: &G,
    ) -> Result<List<Reply>, Memory> {
        let cluster = &self.cluster;
        let mut session = Session::new(Client(u16::from(lane)), cluster.run());
        let mut replies = Vec::new(cluster.alloc());
        let mut index = 0;
        for item in self.items.get() {
            if lane_of(item) != lane {
                continue;
            }
            gate.before(lane, index);
            let reply = serve_item(rt, cluster, token, &mut session, item, lane)?;
            replies.push(reply)?;
            gate.after(lane, index);
            index += 1;
        }
        Ok(List::of(replies))
    }

    fn worker<R: Wait>(&self, rt: &R, token: &mut Pass<J, P>) -> Result<(), Memory> {
        turn_in_rounds(rt, &self.cluster, token)
    }
}
