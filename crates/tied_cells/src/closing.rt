//! Closing the cells: all passes are made one, and the machines and events are taken out.

ghost use Rattle.std.specs.Prelude.{◌≡◌, ◌≢◌, ◌+◌, ◌*◌, ◌<◌, ◌≤◌, ◌⊎◌, [], ◌∷◌, ℕ, List as Items, map, length, true, false, IsTrue, vec_len, vec_capacity, slice_get, slice_index_or, Some, None, IfOk, IfErr};
ghost use Rattle.std.specs.Slots.{slots_items, slots_filled, slots_len};
ghost use mathlib.Core.Option.{some};
ghost use lib.ListN.{get_elem?};
ghost use Rattle.tied_cells.specs.declared.board.Cell.{Cell as NodeCell};
ghost use Rattle.tied_cells.specs.declared.board.Own.{Own};
ghost use Rattle.tied_cells.specs.declared.board.Stored.TheVariants.{Home};
ghost use Rattle.tied_cells.specs.Rule.{deal_of};
ghost use Rattle.tied_cells.specs.Sizes.{sizes_of};
ghost use Rattle.tied_cells.specs.History.{Entry};
ghost use Rattle.tied_cells.specs.Closing.{AreBack, AreAll, IsOneHistory, IsPartOf, AreTaken, IsClosed};

use crate::board::{Chair, Stored};
use crate::cells::{Cells, Pass};
use crate::plays::Share;
use log_base::{Committed, List, Machine, Memory};
use std::alloc::Global;

/// The machines of closed cells, and the events of each node, in order of number, with their places.
#[derive(Drop)]
pub struct Closed<M: Machine> {
    pub machines: Vec<M>,
    pub events: List<List<Committed<M::Happened>>>,
}

/// Takes the cells out of their slots, in order.
fn take_cells<M: Drop, H: Drop>(
    closed: &mut atomic_table::Closed<Stored<M, H>, Global>,
    nodes: usize,
    machines: &mut Vec<M>,
    events: &mut Vec<List<Committed<H>>>,
)
    requires slots { nodes ≤ slots_len closed.old.slots }
    requires filled { (k : ℕ) → k < slots_len closed.old.slots → IsTrue (slice_index_or (slots_filled closed.old.slots) k false) }
    requires cells { (node : ℕ) → node < nodes → (cell : NodeCell M H) × (get_elem? (slots_items closed.old.slots) node ≡ some (Home cell)) }
    requires empty { (machines.old.items ≡ []) × (events.old.items ≡ []) }
    requires room { (nodes ≤ vec_capacity machines.old) × (nodes ≤ vec_capacity events.old) }
    ensures taken { AreTaken nodes (slots_items closed.old.slots) machines.new.items events.new.items }
    ensures slots { (slots_items closed.new.slots ≡ slots_items closed.old.slots) × (slots_len closed.new.slots ≡ slots_len closed.old.slots) }
    ensures filled { (k : ℕ) → nodes ≤ k → k < slots_len closed.old.slots → IsTrue (slice_index_or (slots_filled closed.new.slots) k false) }
    ensures emptied { (k : ℕ) → k < nodes → slice_index_or (slots_filled closed.new.slots) k false ≡ false }
{
    for node in 0..nodes {
        match closed.take(node) {
            Stored::Home(cell) => {
                machines.push_reserved(cell.machine);
                events.push_reserved(List::of(cell.events));
            }
            _ => unreachable!(),
        }
    }
}

/// Lets go of what is left in the boxes.
fn drop_boxes<M: Drop, H: Drop>(
    closed: &mut atomic_table::Closed<Stored<M, H>, Global>,
    first: usize,
)
    requires first { first ≤ slots_len closed.old.slots }
    requires filled { (k : ℕ) → first ≤ k → k < slots_len closed.old.slots → IsTrue (slice_index_or (slots_filled closed.old.slots) k false) }
    requires emptied { (k : ℕ) → k < first → slice_index_or (slots_filled closed.old.slots) k false ≡ false }
    ensures emptied { (k : ℕ) → k < slots_len closed.new.slots → slice_index_or (slots_filled closed.new.slots) k false ≡ false }
{
    let slots = closed.slot_count();
    for slot in first..slots {
        drop(closed.take(slot));
    }
}

impl<M: Machine> Cells<M> {
    /// Joins passes to one, whose seat this is.
    fn join_all(&self, seat: &mut Chair<M>, passes: Vec<Pass<M>>)
        requires table { seat.old.table_id ≡ self.now.table.shared.table_id }
        requires alive { seat.old.me.0.alive ≡ true }
        requires tables { (k : ℕ) (pass : _) → slice_get passes.items k ≡ Some pass → pass.seat.table_id ≡ self.now.table.shared.table_id }
        requires no_turn { (k : ℕ) (pass : _) → slice_get passes.items k ≡ Some pass → (pass.seat.me.0.turn ≡ None) × (pass.seat.me.1 ≡ []) }
        ensures table { seat.new.table_id ≡ seat.old.table_id }
        ensures same { (seat.new.me.0.alive ≡ true) × (seat.new.me.0.turn ≡ seat.old.me.0.turn) }
        ensures before { (number : ℕ) (own : Items (Own M.Happened)) → IsPartOf number own seat.old.me.0 → IsPartOf number own seat.new.me.0 }
        ensures joined { (k : ℕ) (pass : _) → slice_get passes.items k ≡ Some pass → IsPartOf pass.account.number pass.seat.me.0.own seat.new.me.0 }
    {
        let mut passes = passes;
        'passes: while let Some(pass) = passes.pop() {
            let Pass {
                seat: other,
                account: _,
            } = pass;
            self.table.shared.join_seat::<Share>(seat, other);
        }
    }
}

impl<M: Machine> Cells<M> {
    /// Ends the table where all passes are one, and takes the cells out.
    fn finish(
        self,
        seat: Chair<M>,
        machines: Vec<M>,
        events: Vec<List<Committed<M::Happened>>>,
    ) -> Closed<M>
        requires table { seat.table_id ≡ self.table.shared.table_id }
        requires alive { seat.me.0.alive ≡ true }
        requires no_turn { seat.me.0.turn ≡ None }
        requires all { (number : ℕ) → number < self.table.shared.key.passes → (own : Items (Own M.Happened)) × IsPartOf number own seat.me.0 }
        requires empty { (machines.items ≡ []) × (events.items ≡ []) }
        requires room { (self.nodes ≤ vec_capacity machines) × (self.nodes ≤ vec_capacity events) }
        ensures { IsClosed M.state M.meanings (deal_of M.state self.table.shared.key) seat.me.0 result.machines.items result.events }
    {
        let Cells {
            table,
            nodes,
            alloc: _,
        } = self;
        let nodes = nodes as usize;
        let mut machines = machines;
        let mut events = events;
        let mut closed = table.close_with(seat);
        take_cells(&mut closed, nodes, &mut machines, &mut events);
        drop_boxes(&mut closed, nodes);
        closed.free();
        Closed {
            machines,
            events: List::of(events),
        }
    }

    /// Closes the cells where all passes are handed back and none has a turn. The lists of events are one
    /// history: each place stands in them once, it is legal, and each machine stands after its node's events.
    /// The passes' own events are all of it. All memory is made before anything is closed.
    pub fn close(self, passes: Vec<Pass<M>>) -> Result<Closed<M>, (Memory, Cells<M>, Vec<Pass<M>>)>
        requires back { AreBack self.table.shared.table_id self.table.shared.key.passes (map (λ p. (p.seat, p.account)) passes.items) }
        ensures history { IfOk result (λ closed. (log : Items (Entry M.Happened)) × IsOneHistory M.state M.meanings (deal_of M.state self.table.shared.key).starts closed.machines.items closed.events log
            × AreAll (map (λ p. (p.seat, p.account)) passes.items) log) }
        ensures quotas { (k : ℕ) (pass : _) → slice_get passes.items k ≡ Some pass → (length pass.seat.me.0.own ≡ pass.account.used) × (sizes_of M.meanings pass.seat.me.0.own ≤ pass.account.room) }
        ensures err { IfErr result (λ r. (r.1 ≡ self) × (r.2.items ≡ passes.items)) }
    {
        let nodes = self.nodes as usize;
        let Ok(machines) = Vec::with_capacity(self.alloc, nodes) else {
            return Err((Memory, self, passes));
        };
        let Ok(events) = Vec::with_capacity(self.alloc, nodes) else {
            return Err((Memory, self, passes));
        };
        let mut passes = passes;
        let Some(last) = passes.pop() else {
            unreachable!()
        };
        let Pass {
            mut seat,
            account: _,
        } = last;
        self.join_all(&mut seat, passes);
        Ok(self.finish(seat, machines, events))
    }
}
