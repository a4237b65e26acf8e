//! The opening: some inputs are made events before there are passes.

ghost use Rattle.std.specs.Prelude.{◌≡◌, ◌+◌, ◌<◌, ◌≤◌, [], ◌∷◌, ◌++◌, map, length, vec_len, vec_capacity, slice_get, slice_set, Some, IfOk, OnOk, OnErr};
ghost use Rattle.log_base.specs.Machines.{Meanings};
ghost use Rattle.tied_cells.specs.declared.board.Opened.{Opened};
ghost use Rattle.tied_cells.specs.declared.board.Stored.TheVariants.{Home};
ghost use Rattle.std.specs.Prelude.{ℕ, List};
ghost use Rattle.log_base.specs.declared.numbers.NodeId.{NodeId as Node};
ghost use Rattle.tied_cells.specs.declared.board.Cell.{Cell as NodeCell};
ghost use Rattle.tied_cells.specs.Opening.{CellOpens, MayOpen, OpensAt, StaysAt, IsOpening};

use crate::board::{Cell, Opened, Stored};
use log_base::{Committed, Machine, Memory, NodeId, Outbox};
use std::alloc::Global;
use std::mem;
use std::snapshot::Snapshot;

/// One step of a machine. Its letters are lost.
fn step_once<M: Machine>(
    machine: &mut M,
    input: M::Input,
    out: &mut Outbox,
) -> Result<M::Happened, Memory>
    requires { M.meanings.fits (M.state machine.old) input }
    ensures input { IfOk result (λ happened. M.meanings.input happened ≡ input) }
    ensures row { IfOk result (λ happened. M.meanings.is_row (M.state machine.old) happened) }
    ensures after { IfOk result (λ happened. M.state machine.new ≡ M.meanings.after (M.state machine.old) happened) }
    ensures err { OnErr result (M.state machine.new ≡ M.state machine.old) }
{
    machine.ready(&input, out)?;
    let happened = machine.step(input, out);
    out.clear();
    Ok(happened)
}

/// One event of a cell, at the next place.
fn open_cell<M: Machine>(
    cell: &mut Cell<M, M::Happened>,
    made: &mut Vec<Opened<M::Happened>>,
    out: &mut Outbox,
    asked: (NodeId, M::Input),
) -> Result<(), Memory>
    requires fits { M.meanings.fits (M.state cell.old.machine) asked.1 }
    requires few { vec_len made.old < 131072 }
    ensures ok { OnOk result ((opened : Opened M.Happened) × (made.new.items ≡ made.old.items ++ opened ∷ []) × (opened.node ≡ asked.0.0) × CellOpens M.state M.meanings cell.old cell.new (length made.old.items) asked.1 opened.happened.value) }
    ensures err { OnErr result ((made.new.items ≡ made.old.items) × (M.state cell.new.machine ≡ M.state cell.old.machine) × (cell.new.events.items ≡ cell.old.events.items)) }
{
    let (node, input) = asked;
    cell.events.reserve(1)?;
    made.reserve(1)?;
    let happened = step_once(&mut cell.machine, input, out)?;
    let place = made.len() as u32;
    made.push_reserved(Opened {
        node: node.0 as u64,
        happened: Snapshot::of(&happened),
    });
    cell.events.push_reserved(Committed { place, happened });
    Ok(())
}

/// One event of the cell of a node, which is at home.
fn open_at<M: Machine>(
    slots: &mut Vec<Stored<M, M::Happened>>,
    made: &mut Vec<Opened<M::Happened>>,
    out: &mut Outbox,
    asked: (NodeId, M::Input),
) -> Result<(), Memory>
    requires home { (cell : NodeCell M M.Happened) × (slice_get slots.old.items asked.0.0 ≡ Some (Home cell)) × M.meanings.fits (M.state cell.machine) asked.1 }
    requires few { vec_len made.old < 131072 }
    ensures ok { OnOk result (OpensAt M.state M.meanings slots.old.items slots.new.items made.old.items made.new.items asked) }
    ensures err { OnErr result (StaysAt M.state M.meanings slots.old.items slots.new.items asked) }
    ensures made { OnErr result (made.new.items ≡ made.old.items) }
{
    let index = asked.0.0 as usize;
    let Stored::Home(mut cell) = mem::replace(&mut slots[index], Stored::Nothing) else {
        unreachable!()
    };
    let outcome = open_cell(&mut cell, made, out, asked);
    slots[index] = Stored::Home(cell);
    outcome
}

/// Makes each input an event, in order.
pub(crate) fn open_all<M: Machine>(
    alloc: Global,
    starts: &Snapshot<Vec<M>>,
    slots: &mut Vec<Stored<M, M::Happened>>,
    made: &mut Vec<Opened<M::Happened>>,
    opening: Vec<(NodeId, M::Input)>,
) -> Result<(), Memory>
    requires none { IsOpening M.state M.meanings (map M.state starts.now.value.items) [] slots.old.items made.old.items }
    requires may { MayOpen M.meanings (map M.state starts.now.value.items) opening.items }
    requires few { length opening.items ≤ 131072 }
    ensures ok { OnOk result (IsOpening M.state M.meanings (map M.state starts.now.value.items) opening.items slots.new.items made.new.items) }
    ensures err { OnErr result ((done rest : List (Node × M.Input)) × (opening.items ≡ done ++ rest) × IsOpening M.state M.meanings (map M.state starts.now.value.items) done slots.new.items made.new.items) }
{
    let mut out = Outbox::new(alloc);
    let _ = &starts;
    'inputs: for asked in opening {
        match open_at(slots, made, &mut out, asked) {
            Ok(()) => {}
            Err(memory) => return Err(memory),
        }
    }
    return Ok(());
}
