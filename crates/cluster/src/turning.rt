//! A turn at a node: it starts where it is down, and else takes the letter that is fetched for it, or lets
//! time pass where there is none.

ghost use Rattle.std.specs.Prelude.{◌≡◌, ◌<◌, ◌≤◌, length, map, Some, IfOk, OnErr};
ghost use Rattle.core_step.specs.Known.{is_down};
ghost use Rattle.counted_node.specs.Counted.{counted_meanings, counted_node};
ghost use Rattle.history_frame.specs.declared.events.Happened.{Happened as Made};
ghost use Rattle.log_base.specs.Shape.{shape};
ghost use Rattle.node_model.specs.Machine.{ClusterNode, posted};
ghost use Rattle.node_model.specs.Sound.{payloads_on};
ghost use Rattle.node_table.specs.Numbering.{nodes_of};
ghost use Rattle.tied_cells.specs.Rule.{deal_of};
ghost use Rattle.tied_cells.specs.Turns.{HasLeft, HoldsNothing};
ghost use Rattle.tied_cells.specs.Boxes.{Fetches};
ghost use Rattle.tied_cells.specs.declared.letter.Letter.{Letter as Mail};
ghost use Rattle.tied_cells.specs.declared.mail.Fetched.TheVariants.{Letter as GotLetter};
ghost use Rattle.cluster.specs.Accounting.{ChargesTurn, IsCharged};
ghost use Rattle.cluster.specs.Clusters.{IsPassOf};
ghost use Rattle.cluster.specs.Events.{AnswersTurn, Delivers, HeldAt, IsIdle, IsTurn, IsTurnInput, TurnsUnder};

use crate::answering::Turn;
use crate::cluster::{Cluster, Pass};
use crate::stepping::act;
use counted_node::CountedNode;
use cut_chain::Places;
use history_frame::Input;
use log_base::{Memory, NodeId, Outbox};
use message_frame::decode;
use segment_journal::Journal;
use std::alloc::Global;
use tied_cells::{Cells, Fetched, Held, Letter, Taken};

/// The input that delivers a letter. What nodes send is spelled, so only want of memory refuses it.
fn read(alloc: Global, letter: Letter) -> Result<Input, Memory>
    ensures { IfOk result (λ input. Delivers letter input) }
{
    let Letter {
        place,
        index,
        bytes,
    } = letter;
    match decode(alloc, bytes.get()) {
        Ok(message) => Ok(Input::Deliver {
            place,
            index,
            message: Some(message),
        }),
        Err(_refusal) => Err(Memory),
    }
}

/// What a node takes in its turn. A letter that was fetched is lost where there is no memory for it.
fn choose<J: Journal + Drop, P: Places>(
    cells: &Cells<CountedNode<J, P>>,
    alloc: Global,
    pass: &mut Pass<J, P>,
    node: NodeId,
    down: bool,
) -> Result<Input, Memory>
    requires table { pass.old.seat.table_id ≡ cells.now.table.shared.table_id }
    requires node { node.0 < cells.now.nodes }
    ensures chosen { IfOk result (λ input. IsTurnInput down node.0 pass.old.seat.me pass.new.seat.me input) }
    ensures lost { OnErr result ((letter : Mail) × Fetches counted_meanings node.0 pass.old.seat.me pass.new.seat.me (GotLetter letter)) }
    ensures same { (pass.new.seat.table_id ≡ pass.old.seat.table_id) × (pass.new.account ≡ pass.old.account) }
{
    if down {
        return Ok(Input::Restart);
    }
    match cells.fetch(pass, node) {
        Fetched::Letter(letter) => return read(alloc, letter),
        Fetched::Empty => return Ok(Input::Tick),
    }
}

/// An event of a node under its turn. Its letters lie in the outbox.
fn turn_under<J: Journal + Drop, P: Places>(
    cells: &Cells<CountedNode<J, P>>,
    alloc: Global,
    pass: &mut Pass<J, P>,
    node: NodeId,
    held: &mut Held<CountedNode<J, P>>,
    out: &mut Outbox,
) -> Result<u32, Memory>
    requires table { pass.old.seat.table_id ≡ cells.now.table.shared.table_id }
    requires node { (node.0 < cells.now.nodes) × (held.old.node ≡ node) }
    requires held { HeldAt (counted_node J.state) pass.old.seat.me node.0 held.old.cell }
    requires left { HasLeft pass.old.account }
    ensures table { pass.new.seat.table_id ≡ pass.old.seat.table_id }
    ensures node { held.new.node ≡ node }
    ensures held { HeldAt (counted_node J.state) pass.new.seat.me node.0 held.new.cell }
    ensures ok { IfOk result (λ place. TurnsUnder pass.old.seat.me pass.new.seat.me node.0 place held.old.cell.events.items out.new.letters) }
    ensures err { OnErr result (IsIdle pass.old.seat.me pass.new.seat.me) }
    ensures charged { IfOk result (λ place. IsCharged pass.old.account pass.new.account pass.old.seat.me.0.own pass.new.seat.me.0.own) }
    ensures kept { OnErr result (pass.new.account ≡ pass.old.account) }
{
    cells.ready_commit(held)?;
    let down = held.machine().is_down();
    let input = choose(cells, alloc, pass, node, down)?;
    let stepped = act(alloc, held.machine(), input, out)?;
    let place = cells.commit(pass, held, stepped.happened, stepped.bytes);
    Ok(place)
}

impl<J: Journal + Drop, P: Places> Cluster<J, P> {
    /// One event of a node, if no other pass has the turn there. A node that is down starts. Another takes a
    /// letter, the one that is fetched for it, or time passes where the pass noted that none lies in its boxes. After
    /// `Memory` there is no event, and a letter that was fetched is lost.
    pub fn turn(&self, pass: &mut Pass<J, P>, node: NodeId) -> Result<Turn, Memory>
        requires pass { IsPassOf (shape self.now.config) self.now.run (payloads_on self.now.kept) self.now.cells.table.shared.table_id pass.old.account.number pass.old.seat }
        requires node { node.0 < nodes_of (shape self.now.config) }
        ensures pass { IsPassOf (shape self.now.config) self.now.run (payloads_on self.now.kept) self.now.cells.table.shared.table_id pass.old.account.number pass.new.seat }
        ensures answer { IfOk result (λ turn. AnswersTurn (nodes_of (shape self.now.config)) node.0 pass.old.account pass.old.seat.me pass.new.seat.me turn) }
        ensures memory { OnErr result (IsIdle pass.old.seat.me pass.new.seat.me) }
        ensures account { IfOk result (λ turn. ChargesTurn pass.old.account pass.new.account pass.old.seat.me.0.own pass.new.seat.me.0.own turn) }
        ensures kept { OnErr result (pass.new.account ≡ pass.old.account) }
    {
        if self.cells.spent(pass) {
            return Ok(Turn::Spent);
        }
        match self.cells.take(pass, node) {
            Taken::Busy => return Ok(Turn::Busy),
            Taken::Held(held) => match self.turn_held(pass, node, held) {
                Ok((place, lost)) => return Ok(Turn::Handled { place, lost }),
                Err(memory) => return Err(memory),
            },
        }
    }

    /// The same with the turn in hand, which is given back: the event's place, and how many letters are lost.
    fn turn_held(
        &self,
        pass: &mut Pass<J, P>,
        node: NodeId,
        held: Held<CountedNode<J, P>>,
    ) -> Result<(u32, u8), Memory>
        requires table { pass.old.seat.table_id ≡ self.now.cells.table.shared.table_id }
        requires node { (node.0 < nodes_of (shape self.now.config)) × (held.node ≡ node) }
        requires held { HeldAt (counted_node J.state) pass.old.seat.me node.0 held.cell }
        requires left { HasLeft pass.old.account }
        ensures same { pass.new.seat.table_id ≡ pass.old.seat.table_id }
        ensures free { HoldsNothing pass.new.seat.me }
        ensures ok { IfOk result (λ made. IsTurn (nodes_of (shape self.now.config)) pass.old.seat.me pass.old.seat.me pass.new.seat.me node.0 made.0 made.1 held.cell.events.items) }
        ensures memory { OnErr result (IsIdle pass.old.seat.me pass.new.seat.me) }
        ensures charged { IfOk result (λ made. IsCharged pass.old.account pass.new.account pass.old.seat.me.0.own pass.new.seat.me.0.own) }
        ensures kept { OnErr result (pass.new.account ≡ pass.old.account) }
    {
        let mut held = held;
        let mut out = Outbox::new(self.alloc);
        match turn_under(&self.cells, self.alloc, pass, node, &mut held, &mut out) {
            Ok(place) => {
                let lost = self.finish(pass, node, held, place, &mut out);
                return Ok((place, lost));
            }
            Err(memory) => {
                self.cells.release(pass, held);
                return Err(memory);
            }
        }
    }
}
