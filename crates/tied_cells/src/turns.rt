//! The turn at a node: who has it has the node's machine.

ghost use Rattle.std.specs.Prelude.{◌≡◌, ◌+◌, ◌≤◌, vec_len, vec_capacity, OnOk, OnErr};
ghost use Rattle.std.specs.Borrow.{sem};
ghost use Rattle.tied_cells.specs.Lending.{LendsMachine};

use crate::board::Cell;
use log_base::{Machine, Memory, NodeId};

/// A cell that is out with a pass.
#[derive(Drop)]
pub struct HeldCell<M, H> {
    pub(crate) cell: Cell<M, H>,
    pub(crate) node: NodeId,
}

/// The turn at a node of these machines.
pub type Held<M> = HeldCell<M, <M as Machine>::Happened>;

/// What a try to take a turn gives.
#[derive(Drop)]
pub enum Taken<M, H> {
    /// The turn.
    Held(HeldCell<M, H>),
    /// Another pass had the turn, as the note says that this try added.
    Busy,
}

/// What a try to take a turn at a node of these machines gives.
pub type Take<M> = Taken<M, <M as Machine>::Happened>;

impl<M, H> HeldCell<M, H> {
    /// The node's machine.
    pub fn machine(&mut self) -> &mut M
        ensures* writes_back { sem 𝓛 (LendsMachine M.row H.row self.entry result) }
        ensures now { result.now ≡ self.old.cell.machine }
    {
        let cell = &mut self.cell;
        &mut cell.machine
    }

    /// Makes room for one event. It changes nothing else.
    pub(crate) fn make_room(&mut self) -> Result<(), Memory>
        ensures same { (self.new.node ≡ self.old.node) × (self.new.cell.machine ≡ self.old.cell.machine) × (self.new.cell.events.items ≡ self.old.cell.events.items) }
        ensures room { OnOk result (vec_len self.new.cell.events + 1 ≤ vec_capacity self.new.cell.events) }
    {
        self.cell.events.reserve(1)?;
        Ok(())
    }
}
