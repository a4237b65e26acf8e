//! Calls of a node, and orders to lead.

ghost use Rattle.std.specs.Prelude.{◌≡◌, ◌<◌, ◌≤◌, length, IfOk, OnErr};
ghost use Rattle.counted_node.specs.Counted.{counted_meanings, counted_node};
ghost use Rattle.history_frame.specs.declared.inputs.Input.TheVariants.{Call as ACall};
ghost use Rattle.history_frame.specs.Spelling.{IsInput as IsSpelledInput};
ghost use Rattle.log_base.specs.Machines.{state_after};
ghost use Rattle.log_base.specs.Shape.{shape};
ghost use Rattle.node_model.specs.Fits.{IsInput};
ghost use Rattle.node_model.specs.Machine.{delivery};
ghost use Rattle.node_model.specs.Sound.{payloads_on};
ghost use Rattle.node_table.specs.Numbering.{nodes_of, orderer_node, role_at};
ghost use Rattle.tied_cells.specs.Turns.{HasLeft, HoldsNothing};
ghost use Rattle.cluster.specs.Accounting.{ChargesCall, ChargesTurn, IsCharged};
ghost use Rattle.cluster.specs.Clusters.{IsPassOf};
ghost use Rattle.cluster.specs.Submitting.{MaySubmit};
ghost use Rattle.cluster.specs.Events.{AnswersCall, AnswersLead, FitsAlways, GivenUnder, HeldAt, IsGiven, IsIdle};

use crate::answering::{Called, Turn};
use crate::cluster::{Cluster, Pass};
use crate::replying::copy_reply;
use crate::stepping::act;
use counted_node::CountedNode;
use cut_chain::Places;
use history_frame::{Call, Input};
use log_base::{Memory, NodeId, Outbox};
use node_table::orderer;
use reply_frame::Reply;
use segment_journal::Journal;
use std::alloc::Global;
use tied_cells::{Cells, Held, Taken};

/// No reply of a node has more bytes than its event may have.
const LARGEST_REPLY: usize = 2_097_152;

/// An event of a node under its turn, with the node's reply. Its letters lie in the outbox.
fn give_under<J: Journal + Drop, P: Places>(
    cells: &Cells<CountedNode<J, P>>,
    alloc: Global,
    pass: &mut Pass<J, P>,
    node: NodeId,
    held: &mut Held<CountedNode<J, P>>,
    input: Input,
    out: &mut Outbox,
) -> Result<(u32, Reply), Memory>
    requires table { pass.old.seat.table_id ≡ cells.now.table.shared.table_id }
    requires node { (node.0 < cells.now.nodes) × (held.old.node ≡ node) }
    requires held { HeldAt (counted_node J.state) pass.old.seat.me node.0 held.old.cell }
    requires left { HasLeft pass.old.account }
    requires fits { FitsAlways pass.old.seat.me.0.deal.starts node.0 input }
    requires spelled { IsSpelledInput input }
    requires quiet { delivery input ≡ None }
    ensures table { pass.new.seat.table_id ≡ pass.old.seat.table_id }
    ensures node { held.new.node ≡ node }
    ensures held { HeldAt (counted_node J.state) pass.new.seat.me node.0 held.new.cell }
    ensures ok { IfOk result (λ made. GivenUnder pass.old.seat.me pass.new.seat.me node.0 made.0 held.old.cell.events.items out.new.letters input made.1) }
    ensures err { OnErr result (pass.new.seat.me ≡ pass.old.seat.me) }
    ensures charged { IfOk result (λ made. IsCharged pass.old.account pass.new.account pass.old.seat.me.0.own pass.new.seat.me.0.own) }
    ensures kept { OnErr result (pass.new.account ≡ pass.old.account) }
{
    cells.ready_commit(held)?;
    let room = Vec::with_capacity(alloc, LARGEST_REPLY)?;
    let stepped = act(alloc, held.machine(), input, out)?;
    let reply = copy_reply(&stepped.happened.reply, room);
    let place = cells.commit(pass, held, stepped.happened, stepped.bytes);
    Ok((place, reply))
}

/// An event that was given to a node: its place, how many of its letters are lost, and the reply.
#[derive(Debug, Drop)]
struct Given {
    place: u32,
    lost: u8,
    reply: Reply,
}

impl<J: Journal + Drop, P: Places> Cluster<J, P> {
    /// A client's call of a node: one event, if no other pass has the turn there. After `Memory` there is none.
    /// What a pass submits has its own number as client, and goes to one node however often it is submitted.
    pub fn call(&self, pass: &mut Pass<J, P>, node: NodeId, call: Call) -> Result<Called, Memory>
        requires pass { IsPassOf (shape self.now.config) self.now.run (payloads_on self.now.kept) self.now.cells.table.shared.table_id pass.old.account.number pass.old.seat }
        requires node { node.0 < nodes_of (shape self.now.config) }
        requires fits { IsInput (shape self.now.config) (role_at (shape self.now.config) node.0) (ACall call) }
        requires submits { MaySubmit self.now.run pass.old.account.number node.0 pass.old.seat.me.0.own (ACall call) }
        ensures pass { IsPassOf (shape self.now.config) self.now.run (payloads_on self.now.kept) self.now.cells.table.shared.table_id pass.old.account.number pass.new.seat }
        ensures answer { IfOk result (λ called. AnswersCall (nodes_of (shape self.now.config)) node.0 call pass.old.account pass.old.seat.me pass.new.seat.me called) }
        ensures memory { OnErr result (IsIdle pass.old.seat.me pass.new.seat.me) }
        ensures account { IfOk result (λ called. ChargesCall pass.old.account pass.new.account pass.old.seat.me.0.own pass.new.seat.me.0.own called) }
        ensures kept { OnErr result (pass.new.account ≡ pass.old.account) }
    {
        if self.cells.spent(pass) {
            return Ok(Called::Spent);
        }
        match self.cells.take(pass, node) {
            Taken::Busy => return Ok(Called::Busy),
            Taken::Held(held) => match self.give_held(pass, node, held, Input::Call(call)) {
                Ok(given) => {
                    return Ok(Called::Answered {
                        place: given.place,
                        reply: given.reply,
                    });
                }
                Err(memory) => return Err(memory),
            },
        }
    }

    /// Orders an orderer to lead: one event, if no other pass has the turn there. After `Memory` there is none.
    pub fn lead(&self, pass: &mut Pass<J, P>, index: u8) -> Result<Turn, Memory>
        requires pass { IsPassOf (shape self.now.config) self.now.run (payloads_on self.now.kept) self.now.cells.table.shared.table_id pass.old.account.number pass.old.seat }
        requires orderer { index < (shape self.now.config).orderers }
        ensures pass { IsPassOf (shape self.now.config) self.now.run (payloads_on self.now.kept) self.now.cells.table.shared.table_id pass.old.account.number pass.new.seat }
        ensures answer { IfOk result (λ turn. AnswersLead (nodes_of (shape self.now.config)) (orderer_node (shape self.now.config) index) pass.old.account pass.old.seat.me pass.new.seat.me turn) }
        ensures memory { OnErr result (IsIdle pass.old.seat.me pass.new.seat.me) }
        ensures account { IfOk result (λ turn. ChargesTurn pass.old.account pass.new.account pass.old.seat.me.0.own pass.new.seat.me.0.own turn) }
        ensures kept { OnErr result (pass.new.account ≡ pass.old.account) }
    {
        if self.cells.spent(pass) {
            return Ok(Turn::Spent);
        }
        let node = orderer(&self.config, index);
        match self.cells.take(pass, node) {
            Taken::Busy => return Ok(Turn::Busy),
            Taken::Held(held) => match self.give_held(pass, node, held, Input::Lead) {
                Ok(given) => {
                    return Ok(Turn::Handled {
                        place: given.place,
                        lost: given.lost,
                    });
                }
                Err(memory) => return Err(memory),
            },
        }
    }

    /// An input is given to a node whose turn is in hand, and the turn is given back.
    fn give_held(
        &self,
        pass: &mut Pass<J, P>,
        node: NodeId,
        held: Held<CountedNode<J, P>>,
        input: Input,
    ) -> Result<Given, Memory>
        requires table { pass.old.seat.table_id ≡ self.now.cells.table.shared.table_id }
        requires node { (node.0 < nodes_of (shape self.now.config)) × (held.node ≡ node) }
        requires held { HeldAt (counted_node J.state) pass.old.seat.me node.0 held.cell }
        requires left { HasLeft pass.old.account }
        requires fits { FitsAlways pass.old.seat.me.0.deal.starts node.0 input }
        requires spelled { IsSpelledInput input }
        requires quiet { delivery input ≡ None }
        ensures same { pass.new.seat.table_id ≡ pass.old.seat.table_id }
        ensures free { HoldsNothing pass.new.seat.me }
        ensures ok { IfOk result (λ given. IsGiven (nodes_of (shape self.now.config)) pass.old.seat.me pass.new.seat.me node.0 given.place given.lost held.cell.events.items input given.reply) }
        ensures memory { OnErr result (IsIdle pass.old.seat.me pass.new.seat.me) }
        ensures charged { IfOk result (λ given. IsCharged pass.old.account pass.new.account pass.old.seat.me.0.own pass.new.seat.me.0.own) }
        ensures kept { OnErr result (pass.new.account ≡ pass.old.account) }
    {
        let mut held = held;
        let mut out = Outbox::new(self.alloc);
        match give_under(
            &self.cells,
            self.alloc,
            pass,
            node,
            &mut held,
            input,
            &mut out,
        ) {
            Ok((place, reply)) => {
                let lost = self.finish(pass, node, held, place, &mut out);
                return Ok(Given { place, lost, reply });
            }
            Err(memory) => {
                self.cells.release(pass, held);
                return Err(memory);
            }
        }
    }
}
