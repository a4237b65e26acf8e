//! Cells into slots and machines out of them.

ghost use Rattle.std.specs.Prelude.{◌≡◌, ◌+◌, ◌*◌, ◌≤◌, ◌++◌, [], ◌∷◌, List, map, length, replicate, vec_len, vec_capacity};
ghost use Rattle.tied_cells.specs.declared.board.Cell.{Cell as NodeCell};
ghost use Rattle.tied_cells.specs.declared.board.Stored.TheVariants.{Home, Nothing};
ghost use Rattle.tied_cells.specs.Opening.{AreFresh, machines_in};

use crate::board::{Cell, Stored};
use std::alloc::Global;

/// Puts each machine into a cell with no events, in order. It goes from the last to the first, so that each is moved once.
pub(crate) fn lay_cells<M, H>(alloc: Global, machines: &mut Vec<M>, slots: &mut Vec<Stored<M, H>>)
    requires empty { slots.old.items ≡ [] }
    requires room { vec_len machines.old ≤ vec_capacity slots.old }
    ensures cells { (cells : List (NodeCell M H)) × (slots.new.items ≡ map Home cells) × AreFresh machines.old.items cells }
    ensures machines { (machines.new.items ≡ []) × (vec_capacity machines.new ≡ vec_capacity machines.old) }
    ensures slots { vec_capacity slots.new ≡ vec_capacity slots.old }
    ensures len { vec_len slots.new ≡ vec_len machines.old }
{
    if let Some(machine) = machines.pop() {
        lay_cells(alloc, machines, slots);
        slots.push_reserved(Stored::Home(Cell {
            machine,
            events: Vec::new(alloc),
        }));
    }
}

/// Puts empty boxes behind the cells.
pub(crate) fn lay_boxes<M, H>(slots: &mut Vec<Stored<M, H>>, count: usize)
    requires { vec_len slots.old + count ≤ vec_capacity slots.old }
    ensures slots { slots.new.items ≡ slots.old.items ++ replicate count Nothing }
{
    for _ in 0..count {
        slots.push_reserved(Stored::Nothing);
    }
}

/// Takes the machines out of their cells, in order.
pub(crate) fn take_machines<M: Drop, H: Drop>(slots: &mut Vec<Stored<M, H>>, machines: &mut Vec<M>)
    requires { vec_len machines.old + vec_len slots.old ≤ vec_capacity machines.old }
    ensures machines { machines.new.items ≡ machines.old.items ++ machines_in slots.old.items }
    ensures len { vec_len machines.new ≤ vec_len machines.old + vec_len slots.old }
    ensures capacity { vec_capacity machines.new ≡ vec_capacity machines.old }
{
    if let Some(stored) = slots.pop() {
        take_machines(slots, machines);
        if let Stored::Home(Cell { machine, events: _ }) = stored {
            machines.push_reserved(machine);
        }
    }
}
