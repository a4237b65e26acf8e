//! Which row an input is.

ghost use Rattle.std.specs.Prelude.{◌≡◌, ◌++◌, [], map, Some, true};
ghost use Rattle.history_frame.specs.declared.inputs.Input.TheVariants.{Deliver as Delivered};
ghost use Rattle.message_frame.specs.Spelling.{IsMessage};
ghost use Rattle.node_model.specs.Fits.{HasRange, IsCallOf, IsInput, IsMessageOf};
ghost use Rattle.node_model.specs.Machine.{posted};
ghost use Rattle.node_model.specs.Marks.{is_named};
ghost use Rattle.node_model.specs.OrdererRow.{answered, call_row, is_call, is_message, message_row, names, outcome, row};
ghost use Rattle.node_table.specs.declared.role.Role.TheVariants.{Orderer as OrdererRole};
ghost use Rattle.paxos_acceptor.specs.Listed.{list_of};
ghost use Rattle.orderer_node.specs.Announcing.{AreSmall};
ghost use Rattle.orderer_node.specs.Answering.{IsOwn};
ghost use Rattle.orderer_node.specs.Ordering.{FollowsSome, HasRow, IsCaused, IsReadyWith, letter_count, letter_limit, node_of, put_at, put_in};
ghost use Rattle.orderer_node.specs.Remembering.{HasRoom};

use crate::memory::OrdererMemory;
use crate::node::{OrdererNode, Standing, Turn};
use cut_chain::Places;
use event_letters::EventLetters;
use history_frame::{Call, Input, Mark};
use log_base::Outbox;
use message_frame::Message;
use reply_frame::Reply;
use segment_journal::Journal;

// How many bytes a letter has at most that is no report, and how many a report has.
const LETTER_LIMIT: u32 = 143;

const REPORT_LIMIT: u32 = 9103;

impl<J: Journal, P: Places> OrdererNode<J, P> {
    /// Follows the row of an input at a running node.
    pub(super) fn follow(
        &mut self,
        input: &Input,
        letters: &mut EventLetters,
        out: &mut Outbox,
    ) -> Turn
        requires fits { IsInput self.old.memory.config (OrdererRole self.old.index) input.now }
        requires row { HasRow input.now }
        requires running { self.old.standing ≡ Standing.Up }
        requires ready { IsReadyWith J.state self.old letters.old input.now out.old }
        ensures row { outcome self.old.memory.config self.old.index (node_of J.state self.old) input.now result.mark
            ≡ Some (record { node = node_of J.state self.new; outputs = letters.new.sent; reply = result.reply }) }
        ensures letters { out.new.letters ≡ out.old.letters ++ map posted letters.new.sent }
        ensures small { AreSmall 64 letters.new.sent }
        ensures own { IsOwn result.reply }
        ensures config { self.new.memory.config ≡ self.old.memory.config }
        ensures index { self.new.index ≡ self.old.index }
        ensures cause { IsCaused J.faults J.keeps_synced J.turns
            (put_at self.old.memory.config self.old.index (node_of J.state self.old) (node_of J.state self.old).mode input.now)
            self.old.journal self.new.journal result.mark }
    {
        match input {
            Input::Deliver { message, .. } => Turn::of(self.receive(message, letters, out)),
            Input::Call(call) => self.call(call),
            Input::Tick => {
                self.tick(letters, out);
                Turn::of(Mark::Done)
            }
            Input::Lead => Turn::of(self.lead(letters, out)),
            Input::Stop | Input::Restart => Turn::of(Mark::Done),
        }
    }

    // Follows the row of a letter that has a message.
    fn receive(
        &mut self,
        message: &Option<Message>,
        letters: &mut EventLetters,
        out: &mut Outbox,
    ) -> Mark
        requires named { is_named names (Delivered 0 0 message.now) ≡ true }
        requires range { HasRange self.old.memory.config (Delivered 0 0 message.now) }
        requires running { self.old.standing ≡ Standing.Up }
        requires ready { IsReadyWith J.state self.old letters.old (Delivered 0 0 message.now) out.old }
        ensures row { FollowsSome J.state (row self.old.memory.config self.old.index (list_of (J.state self.old.journal)) self.old.memory.orderer (Delivered 0 0 message.now))
            self.old self.new result letters.new out.old out.new }
        ensures cause { IsCaused J.faults J.keeps_synced J.turns
            (put_in (row self.old.memory.config self.old.index (list_of (J.state self.old.journal)) self.old.memory.orderer (Delivered 0 0 message.now)))
            self.old.journal self.new.journal result }
    {
        match message {
            Some(message) => return self.deliver(message, letters, out),
            None => return Mark::Done,
        }
    }

    // Follows the row of a message.
    fn deliver(&mut self, message: &Message, letters: &mut EventLetters, out: &mut Outbox) -> Mark
        requires named { is_message message.now ≡ true }
        requires message { IsMessage message.now }
        requires own { IsMessageOf self.old.memory.config message.now }
        requires running { self.old.standing ≡ Standing.Up }
        requires ready { IsReadyWith J.state self.old letters.old (Delivered 0 0 (Some message.now)) out.old }
        ensures row { FollowsSome J.state (message_row self.old.memory.config self.old.index (list_of (J.state self.old.journal)) self.old.memory.orderer message.now)
            self.old self.new result letters.new out.old out.new }
        ensures cause { IsCaused J.faults J.keeps_synced J.turns
            (put_in (message_row self.old.memory.config self.old.index (list_of (J.state self.old.journal)) self.old.memory.orderer message.now))
            self.old.journal self.new.journal result }
    {
        match message {
            Message::Prepare { ballot, from } => {
                return self.prepare(*ballot, *from, letters, out);
            }
            Message::Accept {
                ballot,
                slot,
                value,
            } => return self.accept(*ballot, *slot, value, letters, out),
            Message::Promised {
                ballot,
                from,
                who,
                votes,
            } => self.promised(*ballot, *from, *who, votes.get(), letters, out),
            Message::Lower { ballot, .. } => self.lower(*ballot, letters, out),
            Message::Accepted { ballot, slot, who } => {
                self.accepted(*ballot, *slot, *who, letters, out);
            }
            Message::Decide { slot, value } => self.learn(*slot, value, letters, out),
            Message::Want { from, node } => self.give(*from, *node, letters, out),
            Message::Least { shard, lengths } => self.hear(*shard, lengths, letters, out),
            Message::Copy { .. } | Message::CopyAck { .. } | Message::Report { .. } => {}
        }
        Mark::Done
    }

    // Follows the row of a call.
    fn call(&mut self, call: &Call) -> Turn
        requires named { is_call call.now ≡ true }
        requires call { IsCallOf self.old.memory.config call.now }
        requires running { self.old.standing ≡ Standing.Up }
        requires room { HasRoom self.old.memory }
        ensures row { call_row self.old.memory.config self.old.memory.orderer call.now ≡ Some (answered self.new.memory.orderer result.reply) }
        ensures done { result.mark ≡ Mark.Done }
        ensures own { IsOwn result.reply }
        ensures standing { self.new.standing ≡ Standing.Up }
        ensures config { self.new.memory.config ≡ self.old.memory.config }
        ensures index { self.new.index ≡ self.old.index }
        ensures journal { self.new.journal ≡ self.old.journal }
    {
        let reply = match call {
            Call::Request { value, .. } => self.memory.request(value),
            Call::Settled { value, from, .. } => self.memory.settled(value, *from),
            Call::Submit { .. } | Call::Ask { .. } | Call::Read { .. } => Reply::Nothing,
        };
        Turn {
            mark: Mark::Done,
            reply,
        }
    }
}

/// How many letters an event sends at most, and how many bytes each of them has at most.
pub(super) fn letters_of<P: Places>(memory: &OrdererMemory<P>, input: &Input) -> (u32, u32)
    ensures count { result.0 ≡ letter_count memory.now.config memory.now.orderer.known input.now }
    ensures bytes { result.1 ≡ letter_limit input.now }
{
    let orderers = u32::from(memory.config().orderers());
    match input {
        Input::Deliver {
            message: Some(message),
            ..
        } => letters_for(memory, message),
        Input::Tick | Input::Lead => (orderers, LETTER_LIMIT),
        _ => (0, LETTER_LIMIT),
    }
}

// How many letters the row of a message sends at most, and how many bytes each of them has at most.
fn letters_for<P: Places>(memory: &OrdererMemory<P>, message: &Message) -> (u32, u32)
    ensures count { result.0 ≡ letter_count memory.now.config memory.now.orderer.known (Delivered 0 0 (Some message.now)) }
    ensures bytes { result.1 ≡ letter_limit (Delivered 0 0 (Some message.now)) }
{
    let config = memory.config();
    let orderers = u32::from(config.orderers());
    match message {
        Message::Prepare { .. } => (1, REPORT_LIMIT),
        Message::Accept { .. } => (1, LETTER_LIMIT),
        Message::Promised { .. } => (orderers, LETTER_LIMIT),
        Message::Accepted { .. } => {
            let storage = u32::from(config.replicas()) * u32::from(config.shards());
            (storage + orderers + orderers, LETTER_LIMIT)
        }
        Message::Want { from, .. } => (memory.give(*from).len() as u32, LETTER_LIMIT),
        _ => (0, LETTER_LIMIT),
    }
}
