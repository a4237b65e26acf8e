//! Cells of a small machine through their calls.

ghost use Rattle.std.specs.Prelude.{◌≡◌, ◌+◌, ◌*◌, ◌<◌, ◌≤◌, ◌%◌, ℕ, [], ◌∷◌, ◌++◌, map, length, ⊤, true, None, Some, IfOk, OnOk, slice_get};
ghost use Rattle.std.specs.Option.{option_map};
ghost use Rattle.tied_cells.specs.Rule.{told};
ghost use Rattle.tied_cells.specs.Turns.{HoldsNothing, IsLastFetched, IsOwnOutput};

use crate::*;
use log_base::{Bytes, Machine, Memory, NodeId, Outbox};
use std::alloc::Global;
use std::process::Abort;
use std::test::Fail;

mod threads;

/// A machine whose state is a number. Each input adds 1, and the number goes to the next node.
#[derive(Debug, Drop)]
struct Counter {
    next: NodeId,
    count: u8,
}

/// An input, with the letter that it delivers, if it delivers one.
#[derive(Debug, Drop)]
struct Tick {
    letter: Option<Letter>,
}

/// What a step did: its input, and the number that went to the next node.
#[derive(Debug, Drop)]
struct Counted {
    input: Tick,
    next: NodeId,
    count: u8,
}

impl Machine for Counter {
    type Input = Tick;

    type Happened = Counted;

    type State = Counter;

    ghost use Rattle.log_base.specs.Outgoing.{HasRoom};

    ghost state = { λ counter. counter };

    ghost meanings = { record {
      fits = λ _ _. ⊤;
      input = λ counted. counted.input;
      outputs = λ counted. (counted.next.0, counted.count ∷ []) ∷ [];
      is_row = λ counter counted. (counted.next ≡ counter.next) × (counted.count ≡ (counter.count + 1) % 256);
      after = λ counter counted. record counter { count = counted.count };
      delivers = λ tick. option_map told tick.letter;
      size = λ _. 1;
      is_sound = λ _. ⊤;
    } };

    ghost is_ready = { λ _ _ out. HasRoom 1 out.rooms };

    fn ready(&mut self, _input: &Tick, out: &mut Outbox) -> Result<(), Memory> {
        out.ready(1)
    }

    fn step(&mut self, input: Tick, out: &mut Outbox) -> Counted {
        self.count = self.count.wrapping_add(1);
        out.push(self.next, &[self.count]);
        Counted {
            input,
            next: self.next,
            count: self.count,
        }
    }

    ghost deliveries_fit = { λ starts log sound legal node start tick letter at delivers output. tt };
}

/// One event at a node where no other pass has the turn. Its letters are in the outbox.
fn event<M: Machine>(
    cells: &Cells<M>,
    pass: &mut Pass<M>,
    node: NodeId,
    input: M::Input,
    size: u32,
    out: &mut Outbox,
) -> Result<u32, Fail>
    requires table { pass.old.seat.table_id ≡ cells.now.table.shared.table_id }
    requires node { node.0 < cells.now.nodes }
    requires free { HoldsNothing pass.old.seat.me }
    requires fits { (state : M.State) → M.meanings.fits state input }
    requires quiet { M.meanings.delivers input ≡ None }
    requires size { (happened : M.Happened) → M.meanings.size happened ≡ size }
    ensures table { pass.new.seat.table_id ≡ pass.old.seat.table_id }
    ensures number { pass.new.account.number ≡ pass.old.account.number }
    ensures free { OnOk result (HoldsNothing pass.new.seat.me) }
    ensures own { IfOk result (λ place. (happened : M.Happened) × (pass.new.seat.me.0.own ≡ pass.old.seat.me.0.own ++ record { place = place; node = node.0; happened = happened } ∷ []) × (out.new.letters ≡ M.meanings.outputs happened)) }
{
    if cells.spent(pass) {
        return Err("spent")?;
    }
    let Taken::Held(mut held) = cells.take(pass, node) else {
        return Err("busy")?;
    };
    cells.ready_commit(&mut held).ok().ok_or("memory")?;
    out.clear();
    let happened = step_at(held.machine(), input, out)?;
    let place = cells.commit(pass, &mut held, happened, size);
    cells.release(pass, held);
    Ok(place)
}

fn step_at<M: Machine>(
    machine: &mut M,
    input: M::Input,
    out: &mut Outbox,
) -> Result<M::Happened, Fail>
    requires fits { M.meanings.fits (M.state machine.old) input }
    requires empty { out.old.letters ≡ [] }
    ensures input { IfOk result (λ happened. M.meanings.input happened ≡ input) }
    ensures row { IfOk result (λ happened. M.meanings.is_row (M.state machine.old) happened) }
    ensures after { IfOk result (λ happened. M.state machine.new ≡ M.meanings.after (M.state machine.old) happened) }
    ensures letters { IfOk result (λ happened. out.new.letters ≡ M.meanings.outputs happened) }
    ensures size { IfOk result (λ happened. M.meanings.size happened ≤ 2097152) }
{
    machine.ready(&input, out).ok().ok_or("memory")?;
    Ok(machine.step(input, out))
}

/// Cells of so many counters, and two passes.
fn two(alloc: Global, nodes: u16) -> Result<(Cells<Counter>, Pass<Counter>, Pass<Counter>), Fail>
    requires { (0 < nodes) × (nodes ≤ 43) }
    ensures nodes { IfOk result (λ t. (t.0.nodes ≡ nodes) × (t.0.table.shared.key.passes ≡ 2)) }
    ensures tables { IfOk result (λ t. (t.1.seat.table_id ≡ t.0.table.shared.table_id) × (t.2.seat.table_id ≡ t.0.table.shared.table_id)) }
    ensures free { IfOk result (λ t. HoldsNothing t.1.seat.me × HoldsNothing t.2.seat.me) }
    ensures numbers { IfOk result (λ t. (t.1.account.number ≡ 0) × (t.2.account.number ≡ 1)) }
{
    let mut machines = Vec::new(alloc);
    for node in 0..nodes {
        machines.push(Counter {
            next: NodeId((node + 1) % nodes),
            count: 0,
        })?;
    }
    let Ok((cells, mut passes)) = Cells::start(alloc, machines, Vec::new(alloc), 0, 2) else {
        return Err("memory")?;
    };
    let Some(second) = passes.pop() else {
        return Err("no pass")?;
    };
    let Some(first) = passes.pop() else {
        return Err("no pass")?;
    };
    Ok((cells, first, second))
}

#[test]
fn a_turn_is_held_by_one_pass(rt: HostRuntime) -> Result<(), Fail> {
    let (cells, mut a, mut b) = two(rt.alloc(), 2)?;
    let held = cells.take(&mut a, NodeId(0));
    assert!(rt; matches!(&held, Taken::Held(_)));
    assert!(rt; matches!(cells.take(&mut b, NodeId(0)), Taken::Busy));
    let Taken::Held(held) = held else {
        return Err("no turn")?;
    };
    cells.release(&mut a, held);
    assert!(rt; matches!(cells.take(&mut b, NodeId(0)), Taken::Held(_)));
    Ok(())
}

/// An event of a counter, with its letter.
fn count(
    cells: &Cells<Counter>,
    pass: &mut Pass<Counter>,
    node: u16,
    out: &mut Outbox,
) -> Result<(u32, NodeId, Letter), Fail>
    requires table { pass.old.seat.table_id ≡ cells.now.table.shared.table_id }
    requires node { node < cells.now.nodes }
    requires free { HoldsNothing pass.old.seat.me }
    ensures table { pass.new.seat.table_id ≡ pass.old.seat.table_id }
    ensures number { pass.new.account.number ≡ pass.old.account.number }
    ensures free { OnOk result (HoldsNothing pass.new.seat.me) }
    ensures output { IfOk result (λ t. IsOwnOutput ⟦<Counter as Machine>⟧.meanings pass.new.seat.me.0 t.1.0 t.2) }
{
    let place = event(cells, pass, NodeId(node), Tick { letter: None }, 1, out)?;
    let to = out.to(0);
    let letter = Letter {
        place,
        index: 0,
        bytes: Bytes::of(out.take(0)),
    };
    Ok((place, to, letter))
}

/// Closes the cells of two passes, and gives the places in the lists of the nodes.
fn places(
    alloc: Global,
    cells: Cells<Counter>,
    first: Pass<Counter>,
    second: Pass<Counter>,
) -> Result<Vec<u32>, Fail>
    requires count { cells.table.shared.key.passes ≡ 2 }
    requires tables { (first.seat.table_id ≡ cells.table.shared.table_id) × (second.seat.table_id ≡ cells.table.shared.table_id) }
    requires free { HoldsNothing first.seat.me × HoldsNothing second.seat.me }
    requires numbers { (first.account.number ≡ 0) × (second.account.number ≡ 1) }
{
    let mut passes = Vec::with_capacity(alloc, 2)?;
    passes.push_reserved(first);
    passes.push_reserved(second);
    let Ok(closed) = cells.close(passes) else {
        return Err("memory")?;
    };
    let mut found = Vec::new(alloc);
    for list in closed.events.get() {
        for event in list.get() {
            found.push(event.place)?;
        }
    }
    Ok(found)
}

#[test]
fn each_place_stands_in_the_lists_once(rt: HostRuntime) -> Result<(), Fail> {
    let (cells, mut a, mut b) = two(rt.alloc(), 2)?;
    let mut out = Outbox::new(rt.alloc());
    let first = count(&cells, &mut a, 0, &mut out)?.0;
    let second = count(&cells, &mut b, 0, &mut out)?.0;
    let third = count(&cells, &mut a, 1, &mut out)?.0;
    assert_eq!(rt; [first, second, third], [0, 1, 2]);
    let found = places(rt.alloc(), cells, a, b)?;
    assert_eq!(rt; found.as_slice(), [0, 1, 2].as_slice());
    Ok(())
}

fn post_one(cells: &Cells<Counter>, pass: &mut Pass<Counter>, to: NodeId, letter: Letter) -> bool
    requires table { pass.old.seat.table_id ≡ cells.now.table.shared.table_id }
    requires node { to.0 < cells.now.nodes }
    requires free { HoldsNothing pass.old.seat.me }
    requires output { IsOwnOutput ⟦<Counter as Machine>⟧.meanings pass.old.seat.me.0 to.0 letter }
    ensures table { pass.new.seat.table_id ≡ pass.old.seat.table_id }
    ensures free { HoldsNothing pass.new.seat.me }
{
    match cells.post(pass, to, letter) {
        Posted::Posted => return true,
        Posted::NoRoom(_) => return false,
    }
}

fn fetch_one(cells: &Cells<Counter>, pass: &mut Pass<Counter>, node: u16) -> bool
    requires table { pass.old.seat.table_id ≡ cells.now.table.shared.table_id }
    requires node { node < cells.now.nodes }
    requires free { HoldsNothing pass.old.seat.me }
    ensures table { pass.new.seat.table_id ≡ pass.old.seat.table_id }
    ensures free { HoldsNothing pass.new.seat.me }
{
    match cells.fetch(pass, NodeId(node)) {
        Fetched::Letter(_) => return true,
        Fetched::Empty => return false,
    }
}

/// Posts the letters of 17 events at node 0 to node 1, and counts those that found room.
fn post_letters(
    rt: &impl Abort,
    cells: &Cells<Counter>,
    pass: &mut Pass<Counter>,
    out: &mut Outbox,
) -> Result<u32, Fail>
    requires table { pass.old.seat.table_id ≡ cells.now.table.shared.table_id }
    requires nodes { cells.now.nodes ≡ 2 }
    requires free { HoldsNothing pass.old.seat.me }
{
    let mut posted = 0u32;
    for _ in 0..17 {
        let (_, to, letter) = count(cells, pass, 0, out)?;
        assert!(rt; to.0 == 1);
        if post_one(cells, pass, to, letter) {
            posted = posted.wrapping_add(1);
        }
    }
    Ok(posted)
}

/// Fetches 17 times at node 1, and counts the letters.
fn fetch_letters(cells: &Cells<Counter>, pass: &mut Pass<Counter>) -> u32
    requires table { pass.old.seat.table_id ≡ cells.now.table.shared.table_id }
    requires nodes { cells.now.nodes ≡ 2 }
    requires free { HoldsNothing pass.old.seat.me }
{
    let mut fetched = 0u32;
    for _ in 0..17 {
        if fetch_one(cells, pass, 1) {
            fetched = fetched.wrapping_add(1);
        }
    }
    fetched
}

#[test]
fn sixteen_letters_lie_in_the_boxes_of_a_node(rt: HostRuntime) -> Result<(), Fail> {
    let (cells, mut a, mut b) = two(rt.alloc(), 2)?;
    let mut out = Outbox::new(rt.alloc());
    assert_eq!(rt; post_letters(&rt, &cells, &mut a, &mut out)?, 16);
    assert_eq!(rt; fetch_letters(&cells, &mut b), 16);
    Ok(())
}

fn may_be_shared<T: Send + Sync>(_cells: &T) {}

fn may_be_sent<T: Send>(_pass: &T) {}

#[test]
fn cells_are_shared_and_passes_are_sent(rt: HostRuntime) -> Result<(), Fail> {
    let (cells, a, b) = two(rt.alloc(), 3)?;
    may_be_shared(&cells);
    may_be_sent(&a);
    may_be_sent(&b);
    Ok(())
}

/// Cells of one counter and 73 passes, of which the last two are handed out.
fn seventy_three(alloc: Global) -> Result<(Cells<Counter>, Pass<Counter>, Pass<Counter>), Fail>
    ensures nodes { IfOk result (λ t. t.0.nodes ≡ 1) }
    ensures table { IfOk result (λ t. t.1.seat.table_id ≡ t.0.table.shared.table_id) }
    ensures free { IfOk result (λ t. HoldsNothing t.1.seat.me) }
{
    let mut machines = Vec::new(alloc);
    machines.push(Counter {
        next: NodeId(0),
        count: 0,
    })?;
    let Ok((cells, mut passes)) = Cells::start(alloc, machines, Vec::new(alloc), 0, 73) else {
        return Err("memory")?;
    };
    let Some(last) = passes.pop() else {
        return Err("no pass")?;
    };
    let Some(other) = passes.pop() else {
        return Err("no pass")?;
    };
    Ok((cells, last, other))
}

/// So many events of a counter.
fn count_often(
    cells: &Cells<Counter>,
    pass: &mut Pass<Counter>,
    times: u32,
    out: &mut Outbox,
) -> Result<(), Fail>
    requires table { pass.old.seat.table_id ≡ cells.now.table.shared.table_id }
    requires node { 0 < cells.now.nodes }
    requires free { HoldsNothing pass.old.seat.me }
    ensures table { OnOk result (pass.new.seat.table_id ≡ pass.old.seat.table_id) }
    ensures free { OnOk result (HoldsNothing pass.new.seat.me) }
{
    for _ in 0..times {
        count(cells, pass, 0, out)?;
    }
    Ok(())
}

#[test]
fn a_pass_of_73_is_spent_after_1795_events(rt: HostRuntime) -> Result<(), Fail> {
    let (cells, mut last, other) = seventy_three(rt.alloc())?;
    let mut out = Outbox::new(rt.alloc());
    count_often(&cells, &mut last, 1794, &mut out)?;
    assert!(rt; !cells.spent(&last));
    count_often(&cells, &mut last, 1, &mut out)?;
    assert!(rt; cells.spent(&last));
    assert!(rt; !cells.spent(&other));
    Ok(())
}
