//! How an orderer's node goes down and starts again.

ghost use Rattle.std.specs.Prelude.{◌≡◌, ◌≢◌, ◌≤◌, [], Some, OnOk};
ghost use Rattle.std.specs.Option.{option_map};
ghost use Rattle.history_frame.specs.declared.inputs.Input.TheVariants.{Restart, Stop};
ghost use Rattle.node_model.specs.Marks.{to_call};
ghost use Rattle.node_model.specs.OrdererRow.{outcome};
ghost use Rattle.orderer_node.specs.Answering.{IsOwn};
ghost use Rattle.orderer_node.specs.Ordering.{IsRead, IsReadBy, node_of, opening_mark};

use crate::node::{OrdererNode, Standing, Turn};
use cut_chain::Places;
use history_frame::{Input, Mark};
use log_base::Memory;
use reply_frame::Reply;
use segment_journal::{Installed, Journal, OpenFault};

impl<J: Journal, P: Places> OrdererNode<J, P> {
    /// Reads the list anew. What it came to is seen at the restart.
    pub(super) fn read(&mut self) -> Result<(), Memory>
        ensures node { node_of J.state self.new ≡ node_of J.state self.old }
        ensures memory { self.new.memory ≡ self.old.memory }
        ensures index { self.new.index ≡ self.old.index }
        ensures letters { self.new.letters ≡ self.old.letters }
        ensures votes { self.new.vote_room ≡ self.old.vote_room }
        ensures ready { OnOk result (IsRead (J.state self.new.journal)) }
        ensures room { (J.state self.new.journal).room ≡ (J.state self.old.journal).room }
        ensures list { (J.state self.new.journal).payloads ≡ (J.state self.old.journal).payloads }
        ensures first { (J.state self.new.journal).first ≡ (J.state self.old.journal).first }
        ensures later { J.faults self.old.journal ≤ J.faults self.new.journal }
        ensures keeps { J.keeps_synced self.new.journal ≡ J.keeps_synced self.old.journal }
        ensures read { OnOk result (IsReadBy (J.faults self.old.journal) (J.faults self.new.journal) (J.keeps_synced self.old.journal)
            (J.turns self.old.journal) (J.state self.new.journal).reloaded) }
    {
        match self.acceptor.reload() {
            Ok(()) => return Ok(()),
            Err(OpenFault::Failed) => return Ok(()),
            Err(OpenFault::Damaged { .. }) => return Ok(()),
            Err(OpenFault::Memory) => return Err(Memory),
        }
    }

    /// The node starts again, or stays down where its list could not be read.
    #[tactic(auto, unfolding(node_model::specs::OrdererRow::outcome))]
    pub(super) fn restart(&mut self) -> Turn
        requires { IsRead (J.state self.old.journal) }
        ensures row { outcome self.old.memory.config self.old.index (node_of J.state self.old) Restart result.mark
            ≡ Some (record { node = node_of J.state self.new; outputs = []; reply = result.reply }) }
        ensures opened { option_map opening_mark (J.state self.old.journal).reloaded ≡ Some result.mark }
        ensures reply { result.reply ≡ Reply.Nothing }
        ensures config { self.new.memory.config ≡ self.old.memory.config }
        ensures index { self.new.index ≡ self.old.index }
        ensures faults { J.faults self.new.journal ≡ J.faults self.old.journal }
        ensures keeps { J.keeps_synced self.new.journal ≡ J.keeps_synced self.old.journal }
    {
        match self.acceptor.install() {
            Installed::Failed => {
                self.standing = Standing::Down;
                return Turn::of(Mark::StayedDown);
            }
            Installed::OneMore => {
                self.standing = Standing::Up;
                self.memory.clear();
                return Turn::of(Mark::OpenedWith);
            }
            Installed::Same => {
                self.standing = Standing::Up;
                self.memory.clear();
                return Turn::of(Mark::OpenedWithout);
            }
        }
    }

    /// The node stops.
    #[tactic(auto, unfolding(node_model::specs::OrdererRow::outcome))]
    pub(super) fn stop(&mut self) -> Turn
        ensures row { outcome self.old.memory.config self.old.index (node_of J.state self.old) Stop result.mark
            ≡ Some (record { node = node_of J.state self.new; outputs = []; reply = result.reply }) }
        ensures done { result.mark ≡ Mark.Done }
        ensures reply { result.reply ≡ Reply.Nothing }
        ensures config { self.new.memory.config ≡ self.old.memory.config }
        ensures index { self.new.index ≡ self.old.index }
        ensures journal { self.new.journal ≡ self.old.journal }
    {
        self.standing = Standing::Down;
        Turn::of(Mark::Done)
    }
}

impl Turn {
    /// It turns out so, and nothing is answered.
    pub(super) fn of(mark: Mark) -> Turn
        ensures mark { result.mark ≡ mark }
        ensures reply { result.reply ≡ Reply.Nothing }
    {
        Turn {
            mark,
            reply: Reply::Nothing,
        }
    }
}

/// What an input comes to at a node that is down.
pub(super) fn sleep(input: &Input) -> Turn
    ensures mark { result.mark ≡ Mark.Done }
    ensures reply { result.reply ≡ to_call input.now Reply.Down }
    ensures own { IsOwn result.reply }
{
    match input {
        Input::Call(_) => Turn {
            mark: Mark::Done,
            reply: Reply::Down,
        },
        _ => Turn::of(Mark::Done),
    }
}
