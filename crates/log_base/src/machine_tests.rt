//! An outbox through its calls, and a small machine, which shows what an implementation has to say.

ghost use Rattle.std.specs.Prelude.{◌≡◌, ◌+◌, ◌<◌, ◌%◌, [], ◌∷◌, ◌++◌, length, MatchOption, ⊤, IfOk, OnOk, OnErr};
ghost use Rattle.log_base.specs.Outgoing.{HasRoom};
ghost use Rattle.std.proofs.Common.{rules};
ghost use Rattle.std.proofs.lemmas.Grind.{common_steps};

use crate::*;
use std::alloc::Global;
use std::marker::Model;
use std::process::Abort;
use std::test::Fail;

/// A machine whose state is a number. Each input adds 1, and the number goes to the next node.
#[derive(Debug, Drop)]
struct Counter {
    next: NodeId,
    count: u8,
}

/// An input, with the letter that it delivers, if it delivers one.
#[derive(Debug, Drop)]
struct Tick {
    letter: Option<Told>,
}

/// A letter, by its place, index and bytes.
#[derive(Debug, Drop)]
struct Told {
    place: u32,
    index: u8,
    bytes: Bytes,
}

impl Model for Told {
    ghost use Rattle.log_base.specs.Machines.{Letter};

    ghost Value = { Letter };

    ghost view = { λ t. (t.place, (t.index, t.bytes)) };
}

/// What a step did: its input, and the number that went to the next node.
#[derive(Debug, Drop)]
struct Counted {
    input: Tick,
    next: NodeId,
    count: u8,
}

impl Machine for Counter {
    type Input = Tick;

    type Happened = Counted;

    type State = Counter;

    ghost state = { λ counter. counter };

    ghost meanings = { record {
      fits = λ _ tick. MatchOption tick.letter ⊤ (λ letter. length letter.1.1 ≡ 1);
      input = λ counted. counted.input;
      outputs = λ counted. (counted.next.0, counted.count ∷ []) ∷ [];
      is_row = λ counter counted. (counted.next ≡ counter.next) × (counted.count ≡ (counter.count + 1) % 256);
      after = λ counter counted. record counter { count = counted.count };
      delivers = λ tick. tick.letter;
      size = λ _. 1;
      is_sound = λ _. ⊤;
    } };

    ghost is_ready = { λ _ _ out. HasRoom 1 out.rooms };

    fn ready(&mut self, _input: &Tick, out: &mut Outbox) -> Result<(), Memory> {
        out.ready(1)
    }

    fn step(&mut self, input: Tick, out: &mut Outbox) -> Counted {
        self.count = self.count.wrapping_add(1);
        out.push(self.next, &[self.count]);
        Counted {
            input,
            next: self.next,
            count: self.count,
        }
    }

    ghost deliveries_fit = { λ starts log sound legal node start tick letter at delivers output. Prim.search (rules, common_steps) };
}

/// One event of a machine.
fn take_turn<M: Machine>(
    machine: &mut M,
    input: M::Input,
    out: &mut Outbox,
) -> Result<M::Happened, Memory>
    requires { M.meanings.fits (M.state machine.old) input }
    ensures row { IfOk result (λ happened. M.meanings.is_row (M.state machine.old) happened) }
    ensures after { IfOk result (λ happened. M.state machine.new ≡ M.meanings.after (M.state machine.old) happened) }
    ensures letters { IfOk result (λ happened. out.new.letters ≡ out.old.letters ++ M.meanings.outputs happened) }
    ensures err { OnErr result ((M.state machine.new ≡ M.state machine.old) × (out.new.letters ≡ out.old.letters)) }
{
    machine.ready(&input, out)?;
    Ok(machine.step(input, out))
}

/// One event of a counter.
fn count(counter: &mut Counter, tick: Tick, out: &mut Outbox) -> Result<Counted, Fail>
    requires { MatchOption tick.letter ⊤ (λ letter. length letter.1.1 ≡ 1) }
    ensures { OnOk result (length out.new.letters ≡ length out.old.letters + 1) }
{
    Ok(take_turn(counter, tick, out).ok().ok_or("memory")?)
}

fn is_letter(rt: &impl Abort, out: &Outbox, i: usize, to: u16, bytes: &[u8])
    requires { i < length out.now.letters }
{
    assert_eq!(rt; out.to(i), NodeId(to));
    assert_eq!(rt; out.bytes(i), bytes);
}

fn three_spares(alloc: Global) -> Result<Outbox, Fail>
    ensures { IfOk result (λ out. out ≡ record { letters = []; rooms = 2 ∷ 5 ∷ 2 ∷ [] }) }
{
    let mut out = Outbox::new(alloc);
    out.ready(2).ok().ok_or("memory")?;
    out.ready(5).ok().ok_or("memory")?;
    out.ready(2).ok().ok_or("memory")?;
    Ok(out)
}

#[test]
fn letters_go_out_in_the_oldest_spare_buffers(rt: HostRuntime) -> Result<(), Fail> {
    let mut out = three_spares(rt.alloc())?;
    out.push(NodeId(4), b"long");
    out.push(NodeId(3), b"at");
    out.push(NodeId(4), b"");
    assert!(rt; out.len() == 3);
    is_letter(&rt, &out, 1, 3, b"at");
    is_letter(&rt, &out, 2, 4, b"");
    assert_eq!(rt; out.take(0).as_slice(), b"long".as_slice());
    assert!(rt; out.len() == 3);
    is_letter(&rt, &out, 0, 4, b"");
    out.clear();
    assert_eq!(rt; out.len(), 0);
    Ok(())
}

#[test]
fn a_counter_tells_the_next_node(rt: HostRuntime) -> Result<(), Fail> {
    let mut first = Counter {
        next: NodeId(1),
        count: 254,
    };
    let mut second = Counter {
        next: NodeId(0),
        count: 7,
    };
    let mut out = Outbox::new(rt.alloc());
    let started = count(&mut first, Tick { letter: None }, &mut out)?;
    let again = count(&mut first, Tick { letter: None }, &mut out)?;
    let bytes = out.take(0);
    assert_eq!(rt; bytes.as_slice(), [255].as_slice());
    assert!(rt; bytes.len() == 1);
    let told = Told {
        place: 0,
        index: 0,
        bytes: Bytes::of(bytes),
    };
    let heard = count(&mut second, Tick { letter: Some(told) }, &mut out)?;
    assert!(rt; out.len() == 3);
    is_letter(&rt, &out, 1, 1, &[0]);
    is_letter(&rt, &out, 2, 0, &[8]);
    assert_eq!(rt; [started.count, again.count, heard.count], [255, 0, 8]);
    let kept = Committed {
        place: 2,
        happened: heard,
    };
    assert_eq!(rt; kept.place, 2);
    Ok(())
}
