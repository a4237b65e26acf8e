//! The node of an orderer.

ghost use Rattle.std.specs.Prelude.{◌≡◌, ◌≢◌, ◌<◌, ◌≤◌, ◌++◌, [], ℕ, length, map, Some, None, IfOk, IfErr, OnOk};
ghost use Rattle.std.specs.List.{AllByRecursion};
ghost use Rattle.std.specs.Option.{option_map};
ghost use Rattle.log_base.specs.Shape.{shape};
ghost use Rattle.log_base.specs.Outside.{Rose};
ghost use Rattle.cut_chain.specs.Runs.{to_position};
ghost use Rattle.log_model.specs.Chain.{chain_of};
ghost use Rattle.history_frame.specs.Effects.{happened};
ghost use Rattle.history_frame.specs.Spelling.{event_size};
ghost use Rattle.node_model.specs.Fits.{Fits};
ghost use Rattle.node_model.specs.Machine.{posted};
ghost use Rattle.node_model.specs.NodeState.{Ordering as OrderingState};
ghost use Rattle.node_model.specs.OrdererNode.{fresh};
ghost use Rattle.node_model.specs.OrdererRow.{outcome};
ghost use Rattle.node_table.specs.declared.role.Role.TheVariants.{Orderer as OrdererRole};
ghost use Rattle.paxos_acceptor.specs.Listed.{bad_offset, list_of};
ghost use Rattle.paxos_model.specs.Payloads.{IsPayload};
ghost use Rattle.segment_journal.specs.Journalled.{AllPayloads, planned};
ghost use Rattle.orderer_node.specs.Announcing.{AreSmall};
ghost use Rattle.orderer_node.specs.Answering.{IsOwn};
ghost use Rattle.orderer_node.specs.Ordering.{IsCaused, IsReopened, IsFlight, IsReadBy, IsReady, IsReadyWith, MarkFollows, RunsAs, is_down, node_of, opening_mark, put_at};

use crate::memory::OrdererMemory;
use crate::node::restart::sleep;
use crate::node::rows::letters_of;
use cut_chain::Places;
use disk_base::Plan;
use event_letters::EventLetters;
use history_frame::{Effect, Happened, Input, Mark};
use log_base::{Config, Memory, Outbox, Position};
use message_frame::Vote;
use paxos_acceptor::{Acceptor, BadList};
use reply_frame::Reply;
use segment_journal::Journal;
use std::alloc::Global;
use std::marker::Model;
use std::mem;

mod accepting;
mod leading;
mod learning;
mod restart;
mod rows;
mod ticking;

/// How many votes a report has at most.
const VOTES: usize = 64;

/// Whether a node runs.
#[derive(Clone, Copy, Debug, PartialEq, Eq)]
enum Standing {
    Down,
    Up,
}

/// How an event turns out: its mark, and what is answered.
#[derive(Debug, Drop)]
struct Turn {
    mark: Mark,
    reply: Reply,
}

/// An orderer, over a journal for its promises and votes, and over places for the sequence of its known
/// values.
#[derive(Drop)]
pub struct OrdererNode<J: Journal, P: Places> {
    alloc: Global,
    index: u8,
    acceptor: Acceptor<J>,
    standing: Standing,
    memory: OrdererMemory<P>,
    letters: EventLetters,
    votes: Vec<Vote>,
}

impl<J: Journal, P: Places> Model for OrdererNode<J, P> {
    ghost use Rattle.std.specs.Prelude.{vec_capacity};
    ghost use Rattle.orderer_node.specs.Ordering.{IsOrdering, Ordering};

    ghost Value = { Ordering J };

    ghost view = { λ o. record {
      index = o.index;
      journal = o.acceptor.journal;
      standing = o.standing;
      memory = o.memory;
      letters = o.letters;
      vote_room = vec_capacity o.votes;
    } };

    ghost invariant = { λ o. IsOrdering o.index (J.state o.acceptor.journal) o.standing o.memory o.letters };
}

impl<J: Journal, P: Places> OrdererNode<J, P> {
    /// An orderer over its journal, which is down and knows no value. It makes room for the table of all
    /// slots. An error gives the journal back.
    pub fn new(
        alloc: Global,
        config: Config,
        index: u8,
        journal: J,
        places: P,
    ) -> Result<OrdererNode<J, P>, (BadList, J)>
        requires index { index < (shape config).orderers }
        requires flight { IsFlight (J.state journal).flight }
        requires places { P.places places ≡ [] }
        ensures config { IfOk result (λ o. o.memory.config ≡ shape config) }
        ensures index { IfOk result (λ o. o.index ≡ index) }
        ensures journal { IfOk result (λ o. o.journal ≡ journal) }
        ensures down { IfOk result (λ o. o.standing ≡ Standing.Down) }
        ensures knows { IfOk result (λ o. o.memory.orderer ≡ fresh (shape config)) }
        ensures list { IfOk result (λ o. bad_offset (J.state o.journal) ≡ None) }
        ensures bad { IfErr result (λ e. (offset : ℕ) → e.0 ≡ BadList.Payload offset → bad_offset (J.state e.1) ≡ Some offset) }
        ensures back { IfErr result (λ e. e.1 ≡ journal) }
    {
        let _length = journal.len();
        let acceptor = Acceptor::new(alloc, journal)?;
        let memory = match OrdererMemory::new(alloc, config, places) {
            Ok(memory) => memory,
            Err(_) => return Err((BadList::Memory, acceptor.into_journal())),
        };
        Ok(OrdererNode {
            alloc,
            index,
            acceptor,
            standing: Standing::Down,
            memory,
            letters: EventLetters::new(alloc),
            votes: Vec::new(alloc),
        })
    }

    /// Whether it is down.
    pub fn is_down(&self) -> bool
        ensures { result ≡ is_down self.now.standing }
    {
        self.standing == Standing::Down
    }

    /// How many values it knows.
    pub fn known(&self) -> u32
        ensures count { result ≡ length self.now.memory.orderer.known }
        ensures most { result ≤ 16384 }
    {
        self.memory.known()
    }

    /// The end of the log by its known values.
    pub fn end(&self) -> Position
        ensures { result ≡ to_position (chain_of self.now.memory.config.replicas self.now.memory.orderer.known).end }
    {
        self.memory.end()
    }

    /// The mark below which positions are given up, by its known values.
    pub fn trim(&self) -> Position
        ensures { result ≡ to_position (chain_of self.now.memory.config.replicas self.now.memory.orderer.known).mark }
    {
        self.memory.trim()
    }

    /// Gives the journal back.
    pub fn into_journal(self) -> J
        ensures journal { result ≡ self.journal }
        ensures list { AllByRecursion IsPayload (list_of (J.state result)) }
        ensures payloads { AllPayloads (J.state result).payloads }
        ensures flight { IsFlight (J.state result).flight }
        ensures runs { RunsAs self.standing (J.state result) }
    {
        let OrdererNode {
            alloc: _alloc,
            index: _index,
            acceptor,
            standing: _standing,
            memory: _memory,
            letters: _letters,
            votes: _votes,
        } = self;
        let journal = acceptor.into_journal();
        let _length = journal.len();
        journal
    }

    /// Hands a plan to the journal. The state stays.
    pub fn plan(&mut self, plan: Plan)
        ensures node { node_of J.state self.new ≡ node_of J.state self.old }
        ensures memory { self.new.memory ≡ self.old.memory }
        ensures index { self.new.index ≡ self.old.index }
        ensures state { J.state self.new.journal ≡ J.state self.old.journal }
        ensures faults { J.faults self.new.journal ≡ J.faults self.old.journal }
        ensures keeps { J.keeps_synced self.new.journal ≡ J.keeps_synced self.old.journal }
        ensures turns { J.turns self.new.journal ≡ planned (J.state self.old.journal).flight plan (J.turns self.old.journal) }
        ensures runs { RunsAs self.old.standing (J.state self.old.journal) }
    {
        self.acceptor.plan(plan);
    }

    /// Makes all memory of an event with this input. For a restart it reads the list anew: where this fails
    /// the node stays down.
    pub fn ready(&mut self, input: &Input, out: &mut Outbox) -> Result<(), Memory>
        ensures same { node_of J.state self.new ≡ node_of J.state self.old }
        ensures config { self.new.memory.config ≡ self.old.memory.config }
        ensures index { self.new.index ≡ self.old.index }
        ensures letters { out.new.letters ≡ out.old.letters }
        ensures ready { OnOk result (IsReady J.state self.new input.now out.new) }
        ensures later { J.faults self.old.journal ≤ J.faults self.new.journal }
        ensures keeps { J.keeps_synced self.new.journal ≡ J.keeps_synced self.old.journal }
        ensures turns { input.now ≢ Input.Restart → J.turns self.new.journal ≡ J.turns self.old.journal }
        ensures read { input.now ≡ Input.Restart → OnOk result (IsReadBy (J.faults self.old.journal) (J.faults self.new.journal) (J.keeps_synced self.old.journal)
            (J.turns self.old.journal) (J.state self.new.journal).reloaded) }
    {
        self.acceptor.ready()?;
        self.memory.ready()?;
        self.votes.reserve(VOTES)?;
        let (count, bytes) = letters_of(&self.memory, input);
        self.letters.ready(count, bytes, out)?;
        if let Input::Restart = input {
            return self.read();
        }
        Ok(())
    }

    /// One event: a row of the orderers' rule. Its letters go to the end of the outbox. It takes no memory.
    pub fn step(&mut self, input: Input, out: &mut Outbox) -> Happened
        requires fits { Fits self.old.memory.config (OrdererRole self.old.index) (OrderingState (node_of J.state self.old)) input }
        requires ready { IsReady J.state self.old input out.old }
        ensures input { result.input ≡ input }
        ensures row { outcome self.old.memory.config self.old.index (node_of J.state self.old) input result.mark
            ≡ Some (record { node = node_of J.state self.new; outputs = result.outputs; reply = result.reply }) }
        ensures config { self.new.memory.config ≡ self.old.memory.config }
        ensures index { self.new.index ≡ self.old.index }
        ensures letters { out.new.letters ≡ out.old.letters ++ map posted result.outputs }
        ensures few { length result.outputs ≤ 255 }
        ensures size { event_size result ≤ 2097152 }
        ensures later { J.faults self.old.journal ≤ J.faults self.new.journal }
        ensures halted { result.mark ≡ Mark.Halted → Rose (J.faults self.old.journal) (J.faults self.new.journal) }
        ensures keeps { J.keeps_synced self.new.journal ≡ J.keeps_synced self.old.journal }
        ensures opened { input ≡ Input.Restart → option_map opening_mark (J.state self.old.journal).reloaded ≡ Some result.mark }
        ensures turn { input ≢ Input.Restart → MarkFollows (J.turns self.old.journal)
            (put_at self.old.memory.config self.old.index (node_of J.state self.old) (node_of J.state self.old).mode input) result.mark }
    {
        let effect = self.act(&input, out);
        effect.on(input)
    }

    /// What the row of an input does. Its letters go to the end of the outbox. It takes no memory.
    pub fn act(&mut self, input: &Input, out: &mut Outbox) -> Effect
        requires fits { Fits self.old.memory.config (OrdererRole self.old.index) (OrderingState (node_of J.state self.old)) input.now }
        requires ready { IsReady J.state self.old input.now out.old }
        ensures row { outcome self.old.memory.config self.old.index (node_of J.state self.old) input.now result.mark
            ≡ Some (record { node = node_of J.state self.new; outputs = result.outputs; reply = result.reply }) }
        ensures config { self.new.memory.config ≡ self.old.memory.config }
        ensures index { self.new.index ≡ self.old.index }
        ensures letters { out.new.letters ≡ out.old.letters ++ map posted result.outputs }
        ensures few { length result.outputs ≤ 255 }
        ensures size { event_size (happened input.now result) ≤ 2097152 }
        ensures later { J.faults self.old.journal ≤ J.faults self.new.journal }
        ensures halted { result.mark ≡ Mark.Halted → Rose (J.faults self.old.journal) (J.faults self.new.journal) }
        ensures keeps { J.keeps_synced self.new.journal ≡ J.keeps_synced self.old.journal }
        ensures opened { input.now ≡ Input.Restart → option_map opening_mark (J.state self.old.journal).reloaded ≡ Some result.mark }
        ensures turn { input.now ≢ Input.Restart → MarkFollows (J.turns self.old.journal)
            (put_at self.old.memory.config self.old.index (node_of J.state self.old) (node_of J.state self.old).mode input.now) result.mark }
    {
        let mut letters = mem::replace(&mut self.letters, EventLetters::new(self.alloc));
        let turn = self.take(input, &mut letters, out);
        let outputs = letters.take();
        self.letters = letters;
        Effect {
            mark: turn.mark,
            outputs,
            reply: turn.reply,
        }
    }

    // Takes an input.
    fn take(&mut self, input: &Input, letters: &mut EventLetters, out: &mut Outbox) -> Turn
        requires fits { Fits self.old.memory.config (OrdererRole self.old.index) (OrderingState (node_of J.state self.old)) input.now }
        requires ready { IsReadyWith J.state self.old letters.old input.now out.old }
        ensures row { outcome self.old.memory.config self.old.index (node_of J.state self.old) input.now result.mark
            ≡ Some (record { node = node_of J.state self.new; outputs = letters.new.sent; reply = result.reply }) }
        ensures letters { out.new.letters ≡ out.old.letters ++ map posted letters.new.sent }
        ensures small { AreSmall 64 letters.new.sent }
        ensures own { IsOwn result.reply }
        ensures config { self.new.memory.config ≡ self.old.memory.config }
        ensures index { self.new.index ≡ self.old.index }
        ensures cause { input.now ≢ Input.Restart → IsCaused J.faults J.keeps_synced J.turns
            (put_at self.old.memory.config self.old.index (node_of J.state self.old) (node_of J.state self.old).mode input.now)
            self.old.journal self.new.journal result.mark }
        ensures restarted { input.now ≡ Input.Restart → IsReopened J.faults J.keeps_synced (J.state self.old.journal).reloaded self.old.journal self.new.journal result.mark }
    {
        if let Input::Stop = input {
            return self.stop();
        }
        if let Input::Restart = input {
            return self.restart();
        }
        match self.standing {
            Standing::Down => return sleep(input),
            Standing::Up => return self.follow(input, letters, out),
        }
    }
}
