//! Four threads go to four nodes at once, and the history that they leave is walked.

ghost use Rattle.std.specs.Prelude.{◌≡◌, ◌+◌, ◌%◌, ◌<◌, ℕ, [], ◌∷◌, ◌++◌, IfOk, IfSome, IfNone, vec_len, slice_index_or};
ghost use Rattle.tied_cells.specs.History.{StandsAfter};
ghost use Rattle.tied_cells.specs.Rule.{told};
ghost use Rattle.tied_cells.specs.Turns.{HoldsNothing, HasTurn, HasLeft, IsLastFetched};
ghost use Rattle.std.specs.Option.{option_map};

use super::{Counted, Counter, Tick};
use crate::*;
use log_base::{Bytes, Committed, Machine, NodeId, Outbox};
use std::alloc::{AllocError, Global};
use std::test::Fail;
use std::thread::{Threads, map_vec};

/// How many nodes and threads there are.
const FOUR: u16 = 4;

/// How often each thread goes to a node.
const ROUNDS: u16 = 10_000;

fn count_once(counter: &mut Counter, input: Tick, out: &mut Outbox) -> Option<Counted>
    requires empty { out.old.letters ≡ [] }
    ensures input { IfSome result (λ happened. happened.input ≡ input) }
    ensures row { IfSome result (λ happened. ⟦<Counter as Machine>⟧.meanings.is_row counter.old happened) }
    ensures after { IfSome result (λ happened. counter.new ≡ ⟦<Counter as Machine>⟧.meanings.after counter.old happened) }
    ensures letters { IfSome result (λ happened. out.new.letters ≡ ⟦<Counter as Machine>⟧.meanings.outputs happened) }
    ensures none { IfNone result (counter.new ≡ counter.old) }
{
    counter.ready(&input, out).ok()?;
    Some(counter.step(input, out))
}

/// A letter that lies in the boxes of a node, if one does.
fn letter_for(cells: &Cells<Counter>, pass: &mut Pass<Counter>, node: NodeId) -> Option<Letter>
    requires table { pass.old.seat.table_id ≡ cells.now.table.shared.table_id }
    requires node { node.0 < cells.now.nodes }
    ensures fetched { IsLastFetched node.0 (option_map told result) pass.new.seat.me.0.fetched }
    ensures same { (pass.new.seat.table_id ≡ pass.old.seat.table_id) × (pass.new.account ≡ pass.old.account) }
    ensures view { (pass.new.seat.me.0.deal ≡ pass.old.seat.me.0.deal) × (pass.new.seat.me.0.turn ≡ pass.old.seat.me.0.turn) × (pass.new.seat.me.0.own ≡ pass.old.seat.me.0.own) }
    ensures slots { pass.new.seat.me.1 ≡ pass.old.seat.me.1 }
{
    match cells.fetch(pass, node) {
        Fetched::Letter(letter) => return Some(letter),
        Fetched::Empty => return None,
    }
}

/// One event under a turn, which delivers a letter where one lies in the node's boxes.
fn event_under(
    cells: &Cells<Counter>,
    pass: &mut Pass<Counter>,
    held: &mut Held<Counter>,
    out: &mut Outbox,
) -> Option<u32>
    requires table { pass.old.seat.table_id ≡ cells.now.table.shared.table_id }
    requires node { held.old.node.0 < cells.now.nodes }
    requires turn { HasTurn pass.old.seat.me held.old.node.0 held.old.cell }
    requires stands { StandsAfter ⟦<Counter as Machine>⟧.state ⟦<Counter as Machine>⟧.meanings pass.old.seat.me.0.deal.starts held.old.node.0 held.old.cell.machine held.old.cell.events.items }
    requires left { HasLeft pass.old.account }
    ensures table { pass.new.seat.table_id ≡ pass.old.seat.table_id }
    ensures number { pass.new.account.number ≡ pass.old.account.number }
    ensures node { held.new.node ≡ held.old.node }
    ensures turn { HasTurn pass.new.seat.me held.new.node.0 held.new.cell }
    ensures stands { StandsAfter ⟦<Counter as Machine>⟧.state ⟦<Counter as Machine>⟧.meanings pass.new.seat.me.0.deal.starts held.new.node.0 held.new.cell.machine held.new.cell.events.items }
    ensures own { IfSome result (λ place. (happened : Counted) × (pass.new.seat.me.0.own ≡ pass.old.seat.me.0.own ++ record { place = place; node = held.old.node.0; happened = happened } ∷ []) × (out.new.letters ≡ ⟦<Counter as Machine>⟧.meanings.outputs happened)) }
{
    cells.ready_commit(held).ok()?;
    let letter = letter_for(cells, pass, held.node);
    out.clear();
    let happened = count_once(held.machine(), Tick { letter }, out)?;
    Some(cells.commit(pass, held, happened, 1))
}

/// One event at a node, if no other pass has the turn.
fn try_event(
    cells: &Cells<Counter>,
    pass: &mut Pass<Counter>,
    node: NodeId,
    out: &mut Outbox,
) -> Option<u32>
    requires table { pass.old.seat.table_id ≡ cells.now.table.shared.table_id }
    requires node { node.0 < cells.now.nodes }
    requires free { HoldsNothing pass.old.seat.me }
    ensures table { pass.new.seat.table_id ≡ pass.old.seat.table_id }
    ensures number { pass.new.account.number ≡ pass.old.account.number }
    ensures free { HoldsNothing pass.new.seat.me }
    ensures own { IfSome result (λ place. (happened : Counted) × (pass.new.seat.me.0.own ≡ pass.old.seat.me.0.own ++ record { place = place; node = node.0; happened = happened } ∷ []) × (out.new.letters ≡ ⟦<Counter as Machine>⟧.meanings.outputs happened)) }
{
    if cells.spent(pass) {
        return None;
    }
    let Taken::Held(mut held) = cells.take(pass, node) else {
        return None;
    };
    let place = event_under(cells, pass, &mut held, out);
    cells.release(pass, held);
    place
}

/// Goes to a node once. The letter of the event is posted, or dropped where there is no room.
fn go_to(cells: &Cells<Counter>, pass: &mut Pass<Counter>, node: NodeId, out: &mut Outbox)
    requires table { pass.old.seat.table_id ≡ cells.now.table.shared.table_id }
    requires node { node.0 < cells.now.nodes }
    requires nodes { cells.now.nodes ≡ 4 }
    requires free { HoldsNothing pass.old.seat.me }
    ensures table { pass.new.seat.table_id ≡ pass.old.seat.table_id }
    ensures number { pass.new.account.number ≡ pass.old.account.number }
    ensures free { HoldsNothing pass.new.seat.me }
{
    let Some(place) = try_event(cells, pass, node, out) else {
        return;
    };
    let to = out.to(0);
    let letter = Letter {
        place,
        index: 0,
        bytes: Bytes::of(out.take(0)),
    };
    if to.0 < FOUR {
        cells.post(pass, to, letter);
    }
}

/// What one thread does: it goes from node to node.
fn rounds(cells: &Cells<Counter>, pass: Pass<Counter>, alloc: Global) -> Pass<Counter>
    requires table { pass.seat.table_id ≡ cells.now.table.shared.table_id }
    requires nodes { cells.now.nodes ≡ 4 }
    requires free { HoldsNothing pass.seat.me }
    ensures table { result.seat.table_id ≡ pass.seat.table_id }
    ensures number { result.account.number ≡ pass.account.number }
    ensures free { HoldsNothing result.seat.me }
{
    let mut pass = pass;
    let mut out = Outbox::new(alloc);
    let first = pass.account.number % FOUR;
    for round in 0..ROUNDS {
        go_to(cells, &mut pass, NodeId((first + round) % FOUR), &mut out);
    }
    pass
}

/// Each pass in a thread of its own, until all have returned.
fn in_threads<R: Threads + Sync>(
    rt: &R,
    cells: &Cells<Counter>,
    passes: Vec<Pass<Counter>>,
    alloc: Global,
) -> Result<Vec<Pass<Counter>>, AllocError>
    requires nodes { cells.now.nodes ≡ 4 }
    requires ready { (k : ℕ) (d : _) → k < vec_len passes → ((slice_index_or passes.items k d).seat.table_id ≡ cells.now.table.shared.table_id) × HoldsNothing (slice_index_or passes.items k d).seat.me × ((slice_index_or passes.items k d).account.number ≡ k) }
    ensures len { IfOk result (λ v. vec_len v ≡ vec_len passes) }
    ensures ready { IfOk result (λ v. (k : ℕ) (d : _) → k < vec_len passes → ((slice_index_or v.items k d).seat.table_id ≡ cells.now.table.shared.table_id) × HoldsNothing (slice_index_or v.items k d).seat.me × ((slice_index_or v.items k d).account.number ≡ k)) }
{
    map_vec(
        rt,
        passes,
        &|pass: Pass<Counter>| -> Pass<Counter>
            requires { (pass.seat.table_id ≡ cells.now.table.shared.table_id) × (cells.now.nodes ≡ 4) × HoldsNothing pass.seat.me }
            ensures { (result.seat.table_id ≡ pass.seat.table_id) × (result.account.number ≡ pass.account.number) × HoldsNothing result.seat.me }
        { rounds(cells, pass, alloc) },
    )
}

/// Cells of four counters, and four passes.
fn four(alloc: Global) -> Result<(Cells<Counter>, Vec<Pass<Counter>>), Fail>
    ensures nodes { IfOk result (λ t. (t.0.nodes ≡ 4) × (t.0.table.shared.key.passes ≡ 4)) }
    ensures len { IfOk result (λ t. vec_len t.1 ≡ 4) }
    ensures ready { IfOk result (λ t. (k : ℕ) (d : _) → k < vec_len t.1 → ((slice_index_or t.1.items k d).seat.table_id ≡ t.0.table.shared.table_id) × HoldsNothing (slice_index_or t.1.items k d).seat.me × ((slice_index_or t.1.items k d).account.number ≡ k)) }
{
    let mut machines = Vec::new(alloc);
    for node in 0..FOUR {
        machines.push(Counter {
            next: NodeId((node + 1) % FOUR),
            count: 0,
        })?;
    }
    match Cells::start(alloc, machines, Vec::new(alloc), 0, FOUR) {
        Ok(made) => Ok(made),
        Err(_) => Err("memory")?,
    }
}

/// Four threads go to the nodes, and the cells are closed. The number is that of the places used by all passes.
fn run<R: Threads + Sync>(rt: &R, alloc: Global) -> Result<(Closed<Counter>, usize), Fail> {
    let (cells, passes) = four(alloc)?;
    let passes = in_threads(rt, &cells, passes, alloc)?;
    let mut used = 0usize;
    for pass in passes.as_slice() {
        used = used.wrapping_add(pass.account.used as usize);
    }
    match cells.close(passes) {
        Ok(closed) => Ok((closed, used)),
        Err(_) => Err("memory")?,
    }
}

/// The letter that an event put out: its addressee, and its number.
#[derive(Clone, Copy, PartialEq)]
struct Put {
    to: u16,
    count: u8,
}

/// The letters by place. It is an error where two events have one place, or a place is past the end.
fn by_place(
    alloc: Global,
    closed: &Closed<Counter>,
    places: usize,
) -> Result<Vec<Option<Put>>, Fail> {
    let mut puts = Vec::from_elem(alloc, None, places)?;
    for list in closed.events.get() {
        for event in list.get() {
            let Some(slot) = puts.get_mut(event.place as usize) else {
                return Err("a place past the end")?;
            };
            if slot.is_some() {
                return Err("a place that stands twice")?;
            }
            *slot = Some(Put {
                to: event.happened.next.0,
                count: event.happened.count,
            });
        }
    }
    Ok(puts)
}

/// The letter, if there is one, is the output of an event at a smaller place, addressed to the node.
fn is_delivered(puts: &[Option<Put>], node: u16, event: &Committed<Counted>) -> bool {
    let Some(letter) = &event.happened.input.letter else {
        return true;
    };
    let [count] = letter.bytes.get() else {
        return false;
    };
    let put = Some(Put {
        to: node,
        count: *count,
    });
    letter.index == 0
        && letter.place < event.place
        && puts.get(letter.place as usize).copied() == Some(put)
}

/// The events of a node are legal: at rising places, each counts one more than that before it, its letter goes
/// to the next node, and what it delivers was put out before it. The machine has counted them all.
fn is_legal(
    puts: &[Option<Put>],
    node: u16,
    machine: &Counter,
    list: &[Committed<Counted>],
) -> bool {
    let mut count = 0u8;
    let mut least = 0u32;
    for event in list {
        count = count.wrapping_add(1);
        let is_row = event.happened.count == count && event.happened.next == machine.next;
        if !is_row || event.place < least || !is_delivered(puts, node, event) {
            return false;
        }
        least = event.place.wrapping_add(1);
    }
    machine.count == count
}

/// How many events delivered a letter.
fn deliveries(closed: &Closed<Counter>) -> usize {
    let mut count = 0usize;
    for list in closed.events.get() {
        for event in list.get() {
            if event.happened.input.letter.is_some() {
                count = count.wrapping_add(1);
            }
        }
    }
    count
}

#[test]
fn four_threads_leave_one_legal_history(rt: HostRuntime) -> Result<(), Fail> {
    let (closed, used) = run(&rt, rt.alloc())?;
    let puts = by_place(rt.alloc(), &closed, used)?;
    assert!(rt; used > 0 && deliveries(&closed) > 0);
    assert!(rt; puts.iter().all(|put| put.is_some()));
    assert_eq!(rt; (closed.machines.len(), closed.events.get().len()), (4, 4));
    let mut node = 0u16;
    for (machine, list) in closed.machines.iter().zip(closed.events.get()) {
        assert!(rt; is_legal(&puts, node, machine, list.get()));
        node = node.wrapping_add(1);
    }
    Ok(())
}
