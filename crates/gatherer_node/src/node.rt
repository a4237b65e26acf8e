//! A gatherer as a machine.

ghost use Rattle.std.specs.Prelude.{◌≡◌, ℕ, ◌<◌, ◌≤◌, [], ◌++◌, length, map, false, Some, OnOk};
ghost use Rattle.std.specs.List.{AllByRecursion};
ghost use Rattle.reply_frame.specs.declared.replies.Reply.{Nothing};
ghost use Rattle.event_letters.specs.Letters.{parcel};
ghost use Rattle.history_frame.specs.declared.inputs.Input.TheVariants.{Deliver, Tick};
ghost use Rattle.history_frame.specs.declared.inputs.Mark.TheVariants.{Done};
ghost use Rattle.history_frame.specs.Effects.{happened};
ghost use Rattle.history_frame.specs.Spelling.{event_size};
ghost use Rattle.log_base.specs.Shape.{shape};
ghost use Rattle.message_frame.specs.declared.messages.Message.TheVariants.{Report};
ghost use Rattle.message_frame.specs.Spelling.{IsMessage};
ghost use Rattle.node_model.specs.Fits.{Fits, IsMessageOf};
ghost use Rattle.node_model.specs.GathererRow.{gatherer_role, outcome};
ghost use Rattle.node_model.specs.Marks.{begun};
ghost use Rattle.node_model.specs.NodeState.{Gathering};
ghost use Rattle.node_table.specs.declared.role.Role.TheVariants.{Gatherer as GathererRole};
ghost use Rattle.gatherer_node.specs.Gatherer.{IsReady, IsShort, is_stopped};

use crate::activity::Activity;
use crate::sending::{ready_leasts, send_leasts};
use aggregator::Reports;
use event_letters::EventLetters;
use history_frame::{Effect, Happened, Input, Mark};
use log_base::{Config, Memory, Outbox, Replica, Shard};
use message_frame::Message;
use record_frame::Lengths;
use reply_frame::Reply;
use std::alloc::Global;
use std::marker::Model;

/// A gatherer of a cluster, with its soft state.
#[derive(Debug, Drop)]
pub struct GathererNode {
    config: Config,
    index: u8,
    activity: Activity,
    reports: Reports,
    letters: EventLetters,
}

impl Model for GathererNode {
    ghost use Rattle.std.specs.Prelude.{◌<◌};
    ghost use Rattle.log_base.specs.Shape.{shape};
    ghost use Rattle.gatherer_node.specs.Gatherer.{Gatherer, IsOf, node_of};

    ghost Value = { Gatherer };

    ghost view = { λ g. record { config = shape g.config; index = g.index; node = node_of g.activity g.reports; letters = g.letters } };

    ghost invariant = { λ g. (g.index < (shape g.config).gatherers) × IsOf (shape g.config) g.index g.reports };
}

impl GathererNode {
    /// A gatherer that is down.
    pub fn new(alloc: Global, config: Config, index: u8) -> GathererNode
        requires { index < (shape config).gatherers }
        ensures config { result.config ≡ shape config }
        ensures index { result.index ≡ index }
        ensures node { result.node ≡ begun (gatherer_role (shape config) index) tt }
    {
        GathererNode {
            config,
            index,
            activity: Activity::Down,
            reports: Reports::new(&config, index),
            letters: EventLetters::new(alloc),
        }
    }

    /// Whether it is down.
    pub fn is_down(&self) -> bool
        ensures { result ≡ is_stopped self.now.node.mode }
    {
        self.activity == Activity::Down
    }

    /// Makes the memory for an event with this input. The state stays.
    pub fn ready(&mut self, input: &Input, out: &mut Outbox) -> Result<(), Memory>
        ensures same { self.new ≡ record self.old { letters = self.new.letters } }
        ensures letters { out.new.letters ≡ out.old.letters }
        ensures ready { OnOk result (IsReady self.new out.new.rooms input.now) }
    {
        let _ = self.letters.take();
        match (self.activity, input) {
            (Activity::Running, Input::Tick) => self.ready_tick(out),
            (Activity::Running | Activity::Down, _) => Ok(()),
        }
    }

    /// Makes the memory for a tick of a gatherer that runs.
    #[tactic(auto, unfolding(node_model::specs::GathererRow::outcome, node_model::specs::GathererRow::on_tick))]
    fn ready_tick(&mut self, out: &mut Outbox) -> Result<(), Memory>
        requires none { self.old.letters.sent ≡ [] }
        requires running { is_stopped self.old.node.mode ≡ false }
        ensures same { self.new ≡ record self.old { letters = self.new.letters } }
        ensures letters { out.new.letters ≡ out.old.letters }
        ensures ready { OnOk result (IsReady self.new out.new.rooms Tick) }
    {
        ready_leasts(
            &self.config,
            self.index,
            &self.reports,
            &mut self.letters,
            out,
        )
    }

    /// One event: what follows from the input. Its letters go to the end of the outbox. It takes no memory.
    pub fn step(&mut self, input: Input, out: &mut Outbox) -> Happened
        requires fits { Fits self.old.config (GathererRole self.old.index) (Gathering self.old.node) input }
        requires ready { IsReady self.old out.old.rooms input }
        ensures same { self.new ≡ record self.old { node = self.new.node; letters = self.new.letters } }
        ensures input { result.input ≡ input }
        ensures row { outcome self.old.config self.old.index self.old.node input result.mark
            ≡ Some (record { node = self.new.node; outputs = result.outputs; reply = result.reply }) }
        ensures letters { out.new.letters ≡ out.old.letters ++ map parcel result.outputs }
        ensures few { length result.outputs ≤ 56 }
        ensures size { event_size result ≤ 2097152 }
    {
        let effect = self.act(&input, out);
        effect.on(input)
    }

    /// What the row of an input does. Its letters go to the end of the outbox. It takes no memory.
    pub fn act(&mut self, input: &Input, out: &mut Outbox) -> Effect
        requires fits { Fits self.old.config (GathererRole self.old.index) (Gathering self.old.node) input.now }
        requires ready { IsReady self.old out.old.rooms input.now }
        ensures same { self.new ≡ record self.old { node = self.new.node; letters = self.new.letters } }
        ensures row { outcome self.old.config self.old.index self.old.node input.now result.mark
            ≡ Some (record { node = self.new.node; outputs = result.outputs; reply = result.reply }) }
        ensures letters { out.new.letters ≡ out.old.letters ++ map parcel result.outputs }
        ensures few { length result.outputs ≤ 56 }
        ensures size { event_size (happened input.now result) ≤ 2097152 }
    {
        let mark = self.take(input, out);
        let outputs = self.letters.take();
        Effect {
            mark,
            outputs,
            reply: Reply::Nothing,
        }
    }

    /// What an input does.
    #[tactic(auto, unfolding(node_model::specs::GathererRow::outcome))]
    fn take(&mut self, input: &Input, out: &mut Outbox) -> Mark
        requires fits { Fits self.old.config (GathererRole self.old.index) (Gathering self.old.node) input.now }
        requires ready { IsReady self.old out.old.rooms input.now }
        ensures same { self.new ≡ record self.old { node = self.new.node; letters = self.new.letters } }
        ensures row { outcome self.old.config self.old.index self.old.node input.now result
            ≡ Some (record { node = self.new.node; outputs = self.new.letters.sent; reply = Nothing }) }
        ensures letters { out.new.letters ≡ out.old.letters ++ map parcel self.new.letters.sent }
        ensures few { length self.new.letters.sent ≤ 56 }
        ensures short { AllByRecursion IsShort self.new.letters.sent }
    {
        match input {
            Input::Restart => {
                self.reports.reset();
                self.activity = Activity::Running;
                return Mark::OpenedWithout;
            }
            Input::Stop => self.activity = Activity::Down,
            Input::Tick => self.tick(out),
            Input::Deliver {
                message: Some(
                    Message::Report {
                        shard,
                        replica,
                        lengths,
                    },
                ),
                ..
            } => self.note(*shard, *replica, lengths),
            Input::Deliver { .. } | Input::Call(_) | Input::Lead => {}
        }
        Mark::Done
    }

    /// Time passes: a gatherer that runs tells the orderers.
    #[tactic(auto, unfolding(node_model::specs::GathererRow::outcome, node_model::specs::GathererRow::on_tick))]
    fn tick(&mut self, out: &mut Outbox)
        requires { IsReady self.old out.old.rooms Tick }
        ensures same { self.new ≡ record self.old { node = self.new.node; letters = self.new.letters } }
        ensures row { outcome self.old.config self.old.index self.old.node Tick Done
            ≡ Some (record { node = self.new.node; outputs = self.new.letters.sent; reply = Nothing }) }
        ensures letters { out.new.letters ≡ out.old.letters ++ map parcel self.new.letters.sent }
        ensures few { length self.new.letters.sent ≤ 56 }
        ensures short { AllByRecursion IsShort self.new.letters.sent }
    {
        if self.activity == Activity::Running {
            send_leasts(
                &self.config,
                self.index,
                &self.reports,
                &mut self.letters,
                out,
            );
        }
    }

    /// A replica says how much it holds.
    #[tactic(auto, unfolding(node_model::specs::GathererRow::outcome, node_model::specs::GathererRow::on_report))]
    fn note(&mut self, shard: Shard, replica: Replica, lengths: &Lengths)
        requires message { IsMessage (Report shard replica lengths.now) }
        requires cluster { IsMessageOf self.old.config (Report shard replica lengths.now) }
        ensures same { self.new ≡ record self.old { node = self.new.node } }
        ensures row { (place at : ℕ) → outcome self.old.config self.old.index self.old.node (Deliver place at (Some (Report shard replica lengths.now))) Done
            ≡ Some (record { node = self.new.node; outputs = []; reply = Nothing }) }
    {
        if self.activity == Activity::Running {
            self.reports.note(shard, replica, lengths);
        }
    }
}
