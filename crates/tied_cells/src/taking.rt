//! Taking a turn, giving the events made under it their places, and giving it back.

ghost use Rattle.std.specs.Prelude.{◌≡◌, ◌+◌, ◌<◌, ◌≤◌, [], ◌∷◌, length, true, vec_len, vec_capacity, OnOk, Some};
ghost use Rattle.std.specs.Bool.{OnTrue, OnFalse};
ghost use Rattle.tied_cells.specs.History.{StandsAfter};
ghost use Rattle.tied_cells.specs.Views.{holding, let_go, noted, grown, IsPlaced};
ghost use Rattle.tied_cells.specs.Turns.{HoldsNothing, HasTurn, Takes, HasStepped, Steps, IsSpent, HasLeft, charged, with_event};
ghost use Rattle.tied_cells.specs.declared.board.Stored.TheVariants.{Nothing};
ghost use Rattle.tied_cells.specs.declared.board.Turn.{Turn};

use crate::board::{Chair, Stored};
use crate::cells::{Cells, Pass};
use crate::plays::{Commit, Release, TakeTurn};
use crate::turns::{Held, HeldCell, Take, Taken};
use log_base::{Committed, Machine, Memory, NodeId};

impl<M: Machine> Cells<M> {
    /// Tries to take the turn at a node. It is `Busy` only where this call added a note that the node's word
    /// named a pass.
    pub fn take(&self, pass: &mut Pass<M>, node: NodeId) -> Take<M>
        requires table { pass.old.seat.table_id ≡ self.now.table.shared.table_id }
        requires node { node.0 < self.now.nodes }
        requires free { HoldsNothing pass.old.seat.me }
        ensures outcome { Takes M.state M.meanings node.0 pass.old.seat.me pass.new.seat.me result }
        ensures same { (pass.new.seat.table_id ≡ pass.old.seat.table_id) × (pass.new.account ≡ pass.old.account) }
    {
        let slot = node.0 as usize;
        let mark = pass.account.number as u64 + 1;
        let found = self
            .table
            .shared
            .compare_exchange::<TakeTurn<M>>(&mut pass.seat, slot + 1, 0, mark);
        if found != 0 {
            return Taken::Busy;
        }
        match self
            .table
            .shared
            .exchange(&mut pass.seat, slot, Stored::Nothing)
        {
            Stored::Home(cell) => Taken::Held(HeldCell { cell, node }),
            _ => unreachable!(),
        }
    }

    /// The pass may make no further event: no place, or fewer bytes than one event may have, are left to it.
    pub fn spent(&self, pass: &Pass<M>) -> bool
        ensures spent { OnTrue result (IsSpent pass.now.account) }
        ensures left { OnFalse result (HasLeft pass.now.account) }
    {
        pass.account.is_spent()
    }

    /// Makes room for one event of the node. It changes nothing else.
    pub fn ready_commit(&self, held: &mut Held<M>) -> Result<(), Memory>
        ensures same { (held.new.node ≡ held.old.node) × (held.new.cell.machine ≡ held.old.cell.machine) × (held.new.cell.events.items ≡ held.old.cell.events.items) }
        ensures room { OnOk result (vec_len held.new.cell.events + 1 ≤ vec_capacity held.new.cell.events) }
    {
        held.make_room()
    }

    /// Draws the place of what happened at the node.
    fn place_event(
        &self,
        seat: &mut Chair<M>,
        node: NodeId,
        happened: M::Happened,
    ) -> (u32, M::Happened)
        requires table { seat.old.table_id ≡ self.now.table.shared.table_id }
        requires out { seat.old.me.1 ≡ (node.0, Nothing) ∷ [] }
        requires alive { seat.old.me.0.alive ≡ true }
        requires roomy { length seat.old.me.0.own < seat.old.me.0.deal.quota }
        requires steps { (turn : Turn M.Happened) × (seat.old.me.0.turn ≡ Some turn) × Steps M.meanings seat.old.me.0 turn happened }
        ensures table { seat.new.table_id ≡ seat.old.table_id }
        ensures place { result.0 < 131072 }
        ensures happened { result.1 ≡ happened }
        ensures placed { (turn : Turn M.Happened) → seat.old.me.0.turn ≡ Some turn → IsPlaced M.meanings seat.old.me.0.deal.starts turn result.0 happened }
        ensures view { seat.new.me ≡ (grown M.meanings seat.old.me.0 result.0 happened, (node.0, Nothing) ∷ []) }
    {
        let slot = node.0 as usize;
        let _ = self
            .table
            .shared
            .exchange(seat, slot, Stored::Said(happened));
        let place = self.table.shared.fetch_add::<Commit<M>>(seat, 0, 1);
        match self.table.shared.exchange(seat, slot, Stored::Nothing) {
            Stored::Said(happened) => (place as u32, happened),
            _ => unreachable!(),
        }
    }

    /// Gives what happened its place in the history of all nodes, which is the pass's event from now on. Its
    /// outputs are the pass's letters, and a letter that it delivered is the pass's no more.
    pub fn commit(
        &self,
        pass: &mut Pass<M>,
        held: &mut Held<M>,
        happened: M::Happened,
        bytes: u32,
    ) -> u32
        requires table { pass.old.seat.table_id ≡ self.now.table.shared.table_id }
        requires turn { HasTurn pass.old.seat.me held.old.node.0 held.old.cell }
        requires stepped { HasStepped M.state M.meanings pass.old.seat.me.0 held.old.node.0 held.old.cell happened }
        requires room { vec_len held.old.cell.events + 1 ≤ vec_capacity held.old.cell.events }
        requires left { HasLeft pass.old.account }
        requires bytes { bytes ≡ M.meanings.size happened }
        requires small { M.meanings.size happened ≤ 2097152 }
        ensures place { result < 131072 }
        ensures placed { IsPlaced M.meanings pass.old.seat.me.0.deal.starts (record { node = held.old.node.0; events = held.old.cell.events.items }) result happened }
        ensures view { pass.new.seat.me ≡ (grown M.meanings pass.old.seat.me.0 result happened, (held.old.node.0, Nothing) ∷ []) }
        ensures account { pass.new.account ≡ charged pass.old.account bytes }
        ensures table { pass.new.seat.table_id ≡ pass.old.seat.table_id }
        ensures held { (held.new.node ≡ held.old.node) × (held.new.cell.machine ≡ held.old.cell.machine) × (held.new.cell.events.items ≡ with_event held.old.cell result happened) }
        ensures turn { HasTurn pass.new.seat.me held.new.node.0 held.new.cell }
        ensures stands { StandsAfter M.state M.meanings pass.new.seat.me.0.deal.starts held.new.node.0 held.new.cell.machine held.new.cell.events.items }
    {
        let (place, happened) = self.place_event(&mut pass.seat, held.node, happened);
        pass.account.charge(bytes);
        let _ = held.cell.events.push(Committed { place, happened });
        place
    }

    /// Gives the turn back, with the machine as it stands after its events.
    pub fn release(&self, pass: &mut Pass<M>, held: Held<M>)
        requires table { pass.old.seat.table_id ≡ self.now.table.shared.table_id }
        requires node { held.node.0 < self.now.nodes }
        requires turn { HasTurn pass.old.seat.me held.node.0 held.cell }
        requires stands { StandsAfter M.state M.meanings pass.old.seat.me.0.deal.starts held.node.0 held.cell.machine held.cell.events.items }
        ensures view { pass.new.seat.me ≡ (let_go pass.old.seat.me.0, []) }
        ensures same { (pass.new.seat.table_id ≡ pass.old.seat.table_id) × (pass.new.account ≡ pass.old.account) }
    {
        let HeldCell { cell, node } = held;
        let slot = node.0 as usize;
        let _ = self
            .table
            .shared
            .exchange(&mut pass.seat, slot, Stored::Home(cell));
        self.table
            .shared
            .store::<Release>(&mut pass.seat, slot + 1, 0);
    }
}
