//! Making the cells, the opening and the passes.

ghost use Rattle.std.specs.Prelude.{◌≡◌, ◌+◌, ◌-◌, ◌*◌, ◌/◌, ◌<◌, ◌≤◌, ◌++◌, [], ◌∷◌, ℕ, List, map, length, replicate, vec_len, vec_capacity, slice_get, Some, None, IfOk, IfErr};
ghost use Rattle.log_base.specs.Machines.{Event, IsLegal};
ghost use Rattle.tied_cells.specs.declared.board.Deal.{Deal};
ghost use Rattle.tied_cells.specs.Rule.{deal_of, opened_from};
ghost use Rattle.log_base.specs.declared.numbers.NodeId.{NodeId as Node};
ghost use Rattle.tied_cells.specs.Sizes.{sizes_of};
ghost use Rattle.tied_cells.specs.Opening.{MayOpen, HasRoomFor, AreLeft, AreFresh, laid, machines_in, IsOpening, owns_from, asked_by, IsNew, ArePasses};
ghost use Rattle.tied_cells.specs.Views.{split_left};
ghost use Rattle.tied_cells.specs.declared.board.Cell.{Cell as NodeCell};
ghost use Rattle.std.specs.Prelude.{true, take};

use crate::account::Account;
use crate::board::{Board, Chair, Key, Opened, Stored};
use crate::cells::{Cells, Pass};
use crate::layout::{lay_boxes, lay_cells, take_machines};
use crate::opening::open_all;
use crate::plays::Share;
use atomic_table::{Refused, Table};
use log_base::{Machine, Memory, NodeId};
use std::alloc::Global;
use std::snapshot::Snapshot;

/// The places of all passes together.
const PLACES: u32 = 131_072;

/// The bytes of events of all passes together.
const BYTES: u32 = 536_870_912;

/// The memory of a start: the slots, the words and the passes.
struct Prepared<M: Machine> {
    slots: Vec<Stored<M, M::Happened>>,
    words: Vec<u64>,
    passes: Vec<Pass<M>>,
}

fn prepare<M: Machine>(alloc: Global, nodes: usize, passes: u16) -> Result<Prepared<M>, Memory>
    requires { nodes ≤ 43 }
    ensures slots { IfOk result (λ p. (p.slots.items ≡ []) × (17 * nodes ≤ vec_capacity p.slots)) }
    ensures words { IfOk result (λ p. p.words.items ≡ replicate (17 * nodes + 1) 0) }
    ensures passes { IfOk result (λ p. (p.passes.items ≡ []) × (passes ≤ vec_capacity p.passes)) }
{
    let slots = Vec::with_capacity(alloc, 17 * nodes)?;
    let words = Vec::from_elem(alloc, 0u64, 17 * nodes + 1)?;
    let handed = Vec::with_capacity(alloc, passes as usize)?;
    Ok(Prepared {
        slots,
        words,
        passes: handed,
    })
}

/// Puts the machines into cells, and empty boxes behind them.
fn lay<M, H>(alloc: Global, machines: &mut Vec<M>, slots: &mut Vec<Stored<M, H>>)
    requires empty { slots.old.items ≡ [] }
    requires room { 17 * vec_len machines.old ≤ vec_capacity slots.old }
    requires few { vec_len machines.old ≤ 43 }
    ensures cells { (cells : List (NodeCell M H)) × (slots.new.items ≡ laid cells) × AreFresh machines.old.items cells }
    ensures machines { (machines.new.items ≡ []) × (vec_capacity machines.new ≡ vec_capacity machines.old) }
{
    let nodes = machines.len();
    lay_cells(alloc, machines, slots);
    lay_boxes(slots, 16 * nodes);
}

/// Takes the machines of the first slots out again.
fn give_back<M: Drop, H: Drop>(slots: Vec<Stored<M, H>>, machines: Vec<M>, nodes: usize) -> Vec<M>
    requires empty { machines.items ≡ [] }
    requires room { nodes ≤ vec_capacity machines }
    ensures { result.items ≡ machines_in (take nodes slots.items) }
{
    let mut slots = slots;
    let mut machines = machines;
    slots.truncate(nodes);
    take_machines(&mut slots, &mut machines);
    machines
}

impl<M: Machine> Cells<M> {
    /// Splits a pass from the one that was made first.
    fn split_pass(&self, first: &mut Chair<M>, number: u16, places: u32, room: u32) -> Pass<M>
        requires table { first.old.table_id ≡ self.now.table.shared.table_id }
        requires given { first.old.me.0.given ≡ Some number }
        requires alive { first.old.me.0.alive ≡ true }
        requires more { number + 1 < first.old.me.0.deal.passes }
        requires places { first.old.me.0.deal.quota ≡ places }
        requires room { room * first.old.me.0.deal.passes ≤ 536870912 }
        requires nodes { first.old.table_id.slots ≡ 17 * length first.old.me.0.deal.starts }
        ensures first { first.new.me ≡ (split_left first.old.me.0, first.old.me.1) }
        ensures same { first.new.table_id ≡ first.old.table_id }
        ensures table { result.seat.table_id ≡ first.old.table_id }
        ensures new { IsNew first.old.me.0.deal number [] 0 room result.seat.me result.account }
    {
        let seat = self.table.shared.split_seat::<Share>(first);
        let account = Account {
            number,
            used: 0,
            places,
            bytes: 0,
            room,
        };
        Pass { seat, account }
    }

    /// Splits all passes but the last from the one that was made first, which is the last.
    fn hand_out(&self, first: Chair<M>, account: Account, handed: &mut Vec<Pass<M>>)
        requires empty { handed.old.items ≡ [] }
        requires memory { account.number + 1 ≤ vec_capacity handed.old }
        requires table { first.table_id ≡ self.now.table.shared.table_id }
        requires given { first.me.0.given ≡ Some 0 }
        requires alive { first.me.0.alive ≡ true }
        requires number { (first.me.0.number ≡ account.number) × (account.number + 1 ≡ first.me.0.deal.passes) }
        requires room { account.room * first.me.0.deal.passes ≤ 536870912 }
        requires nodes { first.table_id.slots ≡ 17 * length first.me.0.deal.starts }
        requires bytes { (sizes_of M.meanings first.me.0.own ≤ account.bytes) × (account.bytes ≤ account.room) }
        requires boxed { first.me.0.boxed ≡ None }
        requires new { IsNew first.me.0.deal account.number first.me.0.own account.bytes account.room first.me account }
        ensures passes { ArePasses self.now.table.shared.table_id first.me.0.deal first.me.0.own account.bytes account.room (map (λ p. (p.seat, p.account)) handed.new.items) }
    {
        let mut first = first;
        for number in 0..account.number {
            let pass = self.split_pass(&mut first, number, account.places, account.room);
            handed.push_reserved(pass);
        }
        handed.push_reserved(Pass {
            seat: first,
            account,
        });
    }
}

/// Makes the table, with all cells at home, and the passes. Where there is no memory the slots come back.
fn raise<M: Machine>(
    alloc: Global,
    nodes: u16,
    key: Key<M, M::Happened>,
    account: Account,
    slots: Vec<Stored<M, M::Happened>>,
    words: Vec<u64>,
    handed: Vec<Pass<M>>,
) -> Result<(Cells<M>, Vec<Pass<M>>), Vec<Stored<M, M::Happened>>>
    requires nodes { (nodes ≡ length key.starts.value.items) × (nodes ≤ 43) }
    requires sound { M.meanings.is_sound (map M.state key.starts.value.items) }
    requires small { (key.passes * key.quota ≤ 131072) × (0 < key.passes) }
    requires few { length key.opening.items ≤ key.quota }
    requires opening { (done : List (Node × M.Input)) × IsOpening M.state M.meanings (map M.state key.starts.value.items) done slots.items key.opening.items }
    requires words { words.items ≡ replicate (17 * nodes + 1) 0 }
    requires handed { (handed.items ≡ []) × (key.passes ≤ vec_capacity handed) }
    requires account { account ≡ record { number = key.passes - 1; used = length key.opening.items; places = key.quota; bytes = account.bytes; room = account.room } }
    requires room { account.room * key.passes ≤ 536870912 }
    requires bytes { (sizes_of M.meanings (opened_from 0 key.opening.items) ≤ account.bytes) × (account.bytes ≤ account.room) }
    ensures cells { IfOk result (λ made. (made.0.nodes ≡ nodes) × (made.0.table.shared.key ≡ key)) }
    ensures passes { IfOk result (λ made. ArePasses made.0.table.shared.table_id (deal_of M.state key) (opened_from 0 key.opening.items) account.bytes account.room (map (λ p. (p.seat, p.account)) made.1.items)) }
    ensures err { IfErr result (λ back. back.items ≡ slots.items) }
{
    let mut words = words;
    words[0] = key.opening.len() as u64;
    match Table::new(alloc, words.as_slice(), slots, &key) {
        Ok((table, seat)) => {
            let cells = Cells {
                table,
                nodes,
                alloc,
            };
            let mut handed = handed;
            cells.hand_out(seat, account, &mut handed);
            Ok((cells, handed))
        }
        Err(Refused { slots }) => Err(slots),
    }
}

impl<M: Machine> Cells<M> {
    /// Makes the cells of some machines, and the passes to them, numbered from 0. Before any pass is made each
    /// input of the opening is made an event at its machine, in order, at places from 0. These are the last
    /// pass's events, and their letters are lost. They count with `room` bytes. After `Memory` the machines
    /// stand where the events so far left them.
    pub fn start(
        alloc: Global,
        machines: Vec<M>,
        opening: Vec<(NodeId, M::Input)>,
        room: u32,
        passes: u16,
    ) -> Result<(Cells<M>, Vec<Pass<M>>), (Memory, Vec<M>)>
        requires passes { (0 < passes) × (passes ≤ 73) }
        requires machines { (0 < length machines.items) × (length machines.items ≤ 43) }
        requires sound { M.meanings.is_sound (map M.state machines.items) }
        requires opening { MayOpen M.meanings (map M.state machines.items) opening.items }
        requires places { length opening.items ≤ 131072 / passes }
        requires room { room ≤ 536870912 / passes }
        requires bytes { HasRoomFor M.meanings (map M.state machines.items) opening.items room }
        ensures cells { IfOk result (λ made. made.0.nodes ≡ length machines.items) }
        ensures deal { IfOk result (λ made. deal_of M.state made.0.table.shared.key ≡ record { starts = map M.state machines.items; passes = passes; quota = 131072 / passes }) }
        ensures passes { IfOk result (λ made. (log : List (Event M.Happened)) × (opening.items ≡ map (asked_by M.meanings) log) × IsLegal M.meanings (map M.state machines.items) log
            × ArePasses made.0.table.shared.table_id (record { starts = map M.state machines.items; passes = passes; quota = 131072 / passes }) (owns_from 0 log) room (536870912 / passes) (map (λ p. (p.seat, p.account)) made.1.items)) }
        ensures err { IfErr result (λ r. AreLeft M.state M.meanings (map M.state machines.items) opening.items r.1.items) }
    {
        let starts = Snapshot::of(&machines);
        let nodes = machines.len();
        let used = opening.len() as u32;
        let mut machines = machines;
        let Ok(prepared) = prepare::<M>(alloc, nodes, passes) else {
            return Err((Memory, machines));
        };
        let Prepared {
            mut slots,
            words,
            passes: handed,
        } = prepared;
        lay(alloc, &mut machines, &mut slots);
        let mut made = Vec::new(alloc);
        if open_all(alloc, &starts, &mut slots, &mut made, opening).is_err() {
            return Err((Memory, give_back(slots, machines, nodes)));
        }
        let places = PLACES / passes as u32;
        let key = Key {
            starts,
            opening: made,
            passes: passes as u64,
            quota: places as u64,
        };
        let account = Account {
            number: passes - 1,
            used,
            places,
            bytes: room,
            room: BYTES / passes as u32,
        };
        match raise(alloc, nodes as u16, key, account, slots, words, handed) {
            Ok(made) => Ok(made),
            Err(slots) => Err((Memory, give_back(slots, machines, nodes))),
        }
    }
}
