//! A storage node.

ghost use Rattle.std.specs.Prelude.{◌≡◌, ◌≢◌, ℕ, ◌<◌, ◌≤◌, [], ◌++◌, length, map, OnOk, IfOk, IfErr, IsTrue, ◌↔◌};
ghost use Rattle.std.specs.List.{All};
ghost use Rattle.history_frame.specs.declared.inputs.Input.TheVariants.{Restart};
ghost use Rattle.history_frame.specs.declared.inputs.Mark.TheVariants.{Halted, StayedDown};
ghost use Rattle.history_frame.specs.Effects.{happened};
ghost use Rattle.history_frame.specs.Spelling.{event_size};
ghost use Rattle.log_base.specs.Shape.{shape};
ghost use Rattle.node_model.specs.Fits.{Fits};
ghost use Rattle.node_model.specs.Machine.{posted};
ghost use Rattle.node_model.specs.Marks.{Stopped};
ghost use Rattle.node_model.specs.NodeState.{Storing};
ghost use Rattle.node_model.specs.StorageNode.{member_of};
ghost use Rattle.log_model.specs.Storage.{knowledge_of};
ghost use Rattle.node_table.specs.declared.role.Role.TheVariants.{Storage};
ghost use Rattle.shard_replica.specs.Lists.{HoldsRecords, but_room, but_turns, media_of, medium_at, segment_at, segments_of, turns_after};
ghost use Rattle.shard_replica.specs.Telling.{AreTold};
ghost use Rattle.storage_node.specs.Counting.{CountsOn};
ghost use Rattle.storage_node.specs.Opening.{IsOpening, RoseIn, mark_after};
ghost use Rattle.storage_node.specs.Preparing.{IsReady};
ghost use Rattle.storage_node.specs.StorageState.{HasOneFlight, RestsIn, config_of, flight_in, lists_in, node_of, member_in};
ghost use Rattle.storage_node.specs.Turning.{IsTold, IsTurn, put_at};

use crate::prepared::Prepared;
use crate::seat::Seat;
use cut_chain::Places;
use disk_base::Plan;
use event_letters::EventLetters;
use history_frame::{Effect, Happened, Input};
use log_base::{Config, Memory, Outbox, Position, Replica, Shard};
use segment_journal::Journal;
use shard_replica::ShardReplica;
use std::alloc::Global;
use std::marker::Model;

mod calls;
mod messages;
mod preparing;
mod restarting;
mod running;
mod ticking;

/// Whether a node runs.
#[derive(Clone, Copy, Debug, PartialEq, Eq)]
pub enum Mode {
    Down,
    Running,
}

/// A storage node: a replica of a shard, which is down at first.
#[derive(Drop)]
pub struct StorageNode<J: Journal, P: Places> {
    seat: Seat,
    replica: ShardReplica<J, P>,
    mode: Mode,
    ticks: u64,
    made: Prepared,
}

impl<J: Journal, P: Places> Model for StorageNode<J, P> {
    ghost use Rattle.std.specs.Prelude.{vec_capacity};
    ghost use Rattle.log_base.specs.Shape.{shape};
    ghost use Rattle.storage_node.specs.StorageState.{StorageState, IsStorage};

    ghost Value = { StorageState };

    ghost view = { λ n. record {
      replica = n.replica;
      mode = n.mode;
      ticks = n.ticks;
      letters = n.made.letters;
      copies = n.made.copies.items;
      payload = n.made.payload.items;
      record_room = vec_capacity n.made.found;
    } };

    ghost invariant = { λ n. IsStorage (shape n.seat.config) n.seat.shard.0 n.seat.own.0 n.mode n.replica.state n.made.letters.sent };
}

impl<J: Journal, P: Places> StorageNode<J, P> {
    /// A storage node over the journals of its lists, which may have one entry in flight at most. It is
    /// down.
    pub fn new(
        alloc: Global,
        config: Config,
        shard: Shard,
        replica: Replica,
        journals: Vec<J>,
        places: P,
    ) -> Result<StorageNode<J, P>, (Memory, Vec<J>)>
        requires shard { shard.0 < (shape config).shards }
        requires replica { replica.0 < (shape config).replicas }
        requires journals { length journals.items ≡ (shape config).replicas }
        requires records { All (λ j. HoldsRecords (J.state j)) journals.items }
        requires flights { HasOneFlight (segments_of J.state journals.items) }
        requires places { P.places places ≡ [] }
        ensures config { IfOk result (λ n. config_of n ≡ shape config) }
        ensures member { IfOk result (λ n. member_in n ≡ member_of (shape config) shard.0 replica.0) }
        ensures segments { IfOk result (λ n. n.replica.state.segments ≡ segments_of J.state journals.items) }
        ensures down { IfOk result (λ n. (node_of n).mode
            ≡ Stopped (flight_in (segments_of J.state journals.items)) (knowledge_of (member_of (shape config) shard.0 replica.0) [])) }
        ensures media { IfOk result (λ n. n.replica.media ≡ media_of J.state J.faults J.keeps_synced J.turns journals.items) }
        ensures err { IfErr result (λ e. e.1 ≡ journals) }
    {
        let seat = Seat {
            config,
            shard,
            own: replica,
        };
        let replica = match ShardReplica::new(alloc, config, shard, replica, journals, places) {
            Ok(replica) => replica,
            Err(refused) => return Err(refused),
        };
        Ok(StorageNode {
            seat,
            replica,
            mode: Mode::Down,
            ticks: 0,
            made: Prepared::new(alloc),
        })
    }

    /// Whether it is down.
    pub fn is_down(&self) -> bool
        ensures { IsTrue result ↔ (self.now.mode ≡ Mode.Down) }
    {
        self.mode == Mode::Down
    }

    /// How many values are known.
    pub fn known(&self) -> u32
        ensures { result ≡ self.now.replica.state.known.count }
    {
        self.replica.known()
    }

    /// The known end of the log.
    pub fn end(&self) -> Position
        ensures { result.0 ≡ self.now.replica.state.known.chain.end }
    {
        self.replica.end()
    }

    /// The known mark, below which positions are given up.
    pub fn trim(&self) -> Position
        ensures { result.0 ≡ self.now.replica.state.known.chain.mark }
    {
        self.replica.trim()
    }

    /// Makes all memory of a step with this input. For a Restart the lists are read anew: where one cannot
    /// be, the step will show it. `Memory` comes too where 2^64 - 1 ticks passed since the last start.
    pub fn ready(&mut self, input: &Input, out: &mut Outbox) -> Result<(), Memory>
        requires { Fits (config_of self.old) (Storage (record { 0 = self.old.replica.state.shard }) (record { 0 = self.old.replica.state.own })) (Storing (node_of self.old)) input.now }
        ensures same { self.new.replica.state ≡ self.old.replica.state }
        ensures mode { (self.new.mode ≡ self.old.mode) × (self.new.ticks ≡ self.old.ticks) }
        ensures letters { out.new.letters ≡ out.old.letters }
        ensures ready { OnOk result (IsReady self.new input.now out.new) }
        ensures media { input.now ≢ Restart → map but_room self.new.replica.media ≡ map but_room self.old.replica.media }
        ensures counts { CountsOn self.old.replica.media self.new.replica.media }
        ensures opening { input.now ≡ Restart → OnOk result (IsOpening self.new.replica.last_reload self.old.replica.media self.new.replica.media) }
    {
        match input {
            Input::Restart => return self.ready_to_start(),
            Input::Stop => return Ok(()),
            _ => {}
        }
        if self.mode == Mode::Down {
            return Ok(());
        }
        self.prepare(input, out)
    }

    /// One row of the rules. What a row puts is stored before a letter is in the outbox. It takes no memory.
    pub fn step(&mut self, input: Input, out: &mut Outbox) -> Happened
        requires fits { Fits (config_of self.old) (Storage (record { 0 = self.old.replica.state.shard }) (record { 0 = self.old.replica.state.own })) (Storing (node_of self.old)) input }
        requires ready { IsReady self.old input out.old }
        ensures input { result.input ≡ input }
        ensures row { IsTurn self.old input result.mark result.outputs result.reply self.new }
        ensures letters { out.new.letters ≡ out.old.letters ++ map posted result.outputs }
        ensures few { length result.outputs ≤ 255 }
        ensures size { event_size result ≤ 2097152 }

        // Why a node is down, and that the marks are those that its journals tell.
        ensures halted { result.mark ≡ Halted → RoseIn self.old.replica.media self.new.replica.media }
        ensures counts { CountsOn self.old.replica.media self.new.replica.media }
        ensures told { IsTold self.old result.mark (put_at self.old input) }
        ensures opened { input ≡ Restart → result.mark ≡ mark_after self.old.replica.last_reload self.old.replica.media }
        ensures stayed { result.mark ≡ StayedDown → input ≡ Restart }
    {
        let effect = self.act(&input, out);
        effect.on(input)
    }

    /// What the row of an input does. What it puts is stored before a letter is in the outbox. It takes no
    /// memory.
    pub fn act(&mut self, input: &Input, out: &mut Outbox) -> Effect
        requires fits { Fits (config_of self.old) (Storage (record { 0 = self.old.replica.state.shard }) (record { 0 = self.old.replica.state.own })) (Storing (node_of self.old)) input.now }
        requires ready { IsReady self.old input.now out.old }
        ensures row { IsTurn self.old input.now result.mark result.outputs result.reply self.new }
        ensures letters { out.new.letters ≡ out.old.letters ++ map posted result.outputs }
        ensures few { length result.outputs ≤ 255 }
        ensures size { event_size (happened input.now result) ≤ 2097152 }
        ensures halted { result.mark ≡ Halted → RoseIn self.old.replica.media self.new.replica.media }
        ensures counts { CountsOn self.old.replica.media self.new.replica.media }
        ensures told { IsTold self.old result.mark (put_at self.old input.now) }
        ensures opened { input.now ≡ Restart → result.mark ≡ mark_after self.old.replica.last_reload self.old.replica.media }
        ensures stayed { result.mark ≡ StayedDown → input.now ≡ Restart }
    {
        self.turn(input, out)
    }

    /// Hands the plan to each journal.
    pub fn plan(&mut self, plan: Plan)
        ensures state { self.new.replica.state ≡ self.old.replica.state }
        ensures mode { (self.new.mode ≡ self.old.mode) × (self.new.ticks ≡ self.old.ticks) }
        ensures media { map but_turns self.new.replica.media ≡ map but_turns self.old.replica.media }
        ensures turns { (k : ℕ) → (medium_at self.new.replica.media k).turns
            ≡ turns_after (segment_at self.old.replica.state.segments k) plan (medium_at self.old.replica.media k) }
        ensures rests { RestsIn self.old.mode self.old.replica.state.segments }
    {
        self.replica.plan(plan);
    }

    /// What is told of the journals is what they tell, one for each segment. It does nothing.
    pub fn tell(&self)
        ensures { AreTold J.state J.faults J.keeps_synced J.turns (config_of self.now).replicas self.now.replica.media }
    {
        self.replica.tell();
    }

    /// Gives the journals back.
    pub fn into_journals(self) -> Vec<J>
        ensures segments { segments_of J.state result.items ≡ self.replica.state.segments }
        ensures media { media_of J.state J.faults J.keeps_synced J.turns result.items ≡ self.replica.media }
        ensures records { All (λ j. HoldsRecords (J.state j)) result.items }
        ensures rests { RestsIn self.mode self.replica.state.segments }
    {
        let StorageNode {
            seat: _,
            replica,
            mode: _,
            ticks: _,
            made: _,
        } = self;
        replica.into_journals()
    }
}
