//! The end of an event: the turn is given back, and the letters go out.

ghost use Rattle.std.specs.Prelude.{◌≡◌, ◌<◌, ◌≤◌, [], length};
ghost use Rattle.counted_node.specs.Counted.{counted_meanings, counted_node};
ghost use Rattle.log_base.specs.Shape.{shape};
ghost use Rattle.node_table.specs.Numbering.{nodes_of};
ghost use Rattle.tied_cells.specs.Views.{let_go};
ghost use Rattle.cluster.specs.Events.{HeldAt};
ghost use Rattle.cluster.specs.Posting.{AllGoOut, HasOutputs, IsMail};

use crate::cluster::{Cluster, Pass};
use crate::posting::post_all;
use counted_node::CountedNode;
use cut_chain::Places;
use log_base::{NodeId, Outbox};
use node_table::nodes;
use segment_journal::Journal;
use tied_cells::Held;

impl<J: Journal + Drop, P: Places> Cluster<J, P> {
    /// Gives the turn back and posts the letters of the event. The number is that of the lost ones.
    pub(crate) fn finish(
        &self,
        pass: &mut Pass<J, P>,
        node: NodeId,
        held: Held<CountedNode<J, P>>,
        place: u32,
        out: &mut Outbox,
    ) -> u8
        requires table { pass.old.seat.table_id ≡ self.now.cells.table.shared.table_id }
        requires node { (node.0 < nodes_of (shape self.now.config)) × (held.node ≡ node) }
        requires held { HeldAt (counted_node J.state) pass.old.seat.me node.0 held.cell }
        requires outputs { HasOutputs counted_meanings pass.old.seat.me.0 place out.old.letters }
        requires few { length out.old.letters ≤ 255 }
        ensures same { pass.new.seat.table_id ≡ pass.old.seat.table_id }
        ensures go_out { AllGoOut (nodes_of (shape self.now.config)) place 0 out.old.letters (let_go pass.old.seat.me.0, []) pass.new.seat.me result }
        ensures mail { IsMail (let_go pass.old.seat.me.0, []) pass.new.seat.me }
        ensures account { pass.new.account ≡ pass.old.account }
    {
        self.cells.release(pass, held);
        post_all(&self.cells, nodes(&self.config), pass, place, out)
    }
}
