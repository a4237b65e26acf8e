//! What a node is to the layers above it: a machine that takes one input at a time.

ghost use Rattle.std.specs.Prelude.{◌≡◌, ◌≤◌, ◌++◌, IfOk};
ghost use Rattle.log_base.specs.Outgoing.{Outgoing};
ghost use Rattle.log_base.specs.Machines.{Meanings, DeliveriesFit};

use crate::outbox::Outbox;
use crate::outside::Memory;

/// A committed event of one node: its place in the log of all nodes, and what happened.
#[derive(Debug, Drop)]
pub struct Committed<H> {
    pub place: u32,
    pub happened: H,
}

/// A deterministic machine, one node of a run. Its rules are rows: old state, input and mark give the new
/// state, the letters put out and the reply. The mark says what the outside did in the step, as a disk that
/// failed. The layers above hand letters from machine to machine, and know no more of them than this.
pub trait Machine: Drop {
    /// What is handed in.
    type Input: Drop;
    /// What a step says: the input, the mark, the letters put out and the reply.
    type Happened: Drop;
    /// What the rows speak of. No value of it is made.
    type State;

    /// The state. Spare memory is no part of it.
    ghost state: { Self → Self.State };

    /// Its rows, and what its inputs and happenings mean.
    ghost meanings: { Meanings Self.State Self.Input Self.Happened };

    /// The machine and the outbox have the memory for a step with this input.
    ghost is_ready: { Self → Self.Input → Outgoing → Type 0 };

    /// Makes the memory for a step with this input. Neither the state nor a letter of the outbox changes.
    fn ready(&mut self, input: &Self::Input, out: &mut Outbox) -> Result<(), Memory>
        requires { meanings.fits (state self.old) input.now }
        ensures same { state self.new ≡ state self.old }
        ensures letters { out.new.letters ≡ out.old.letters }
        ensures ready { IfOk result (λ _. is_ready self.new input.now out.new) };

    /// One row of the rules. Its letters go to the end of the outbox.
    fn step(&mut self, input: Self::Input, out: &mut Outbox) -> Self::Happened
        requires fits { meanings.fits (state self.old) input }
        requires ready { is_ready self.old input out.old }
        ensures input { meanings.input result ≡ input }
        ensures row { meanings.is_row (state self.old) result }
        ensures after { state self.new ≡ meanings.after (state self.old) result }
        ensures letters { out.new.letters ≡ out.old.letters ++ meanings.outputs result }
        ensures size { meanings.size result ≤ 2097152 };

    /// After a legal list of events, a letter that is delivered at its addressee fits it.
    ghost deliveries_fit: { DeliveriesFit meanings };
}
