//! How an input turns out.

ghost use Rattle.std.specs.Prelude.{◌≡◌, ◌≢◌, ℕ, [], ◌++◌, map, true, Some};
ghost use Rattle.reply_frame.specs.declared.replies.Reply.{Down};
ghost use Rattle.history_frame.specs.declared.inputs.Input.TheVariants.{Call as ACall, Deliver, Restart, Stop};
ghost use Rattle.message_frame.specs.Spelling.{IsMessage};
ghost use Rattle.node_model.specs.Fits.{Fits, FitsLists, IsCallOf, IsMessageOf};
ghost use Rattle.node_model.specs.Machine.{posted};
ghost use Rattle.node_model.specs.Marks.{is_named, to_call};
ghost use Rattle.node_model.specs.NodeState.{Storing};
ghost use Rattle.node_model.specs.StorageRow.{is_call, is_message, names};
ghost use Rattle.node_table.specs.declared.role.Role.TheVariants.{Storage};
ghost use Rattle.storage_node.specs.Preparing.{HasMemoryForCall, IsPrepared, IsReady};
ghost use Rattle.storage_node.specs.StorageState.{config_of, lists_in, member_in, node_of};
ghost use Rattle.storage_node.specs.Turning.{TurnsOut};

use super::{Mode, StorageNode};
use crate::turn::silent;
use cut_chain::Places;
use history_frame::{Call, Effect, Input, Mark};
use log_base::Outbox;
use message_frame::Message;
use reply_frame::Reply;
use segment_journal::Journal;

impl<J: Journal, P: Places> StorageNode<J, P> {
    /// How an input turns out.
    pub(super) fn turn(&mut self, input: &Input, out: &mut Outbox) -> Effect
        requires fits { Fits (config_of self.old) (Storage (record { 0 = self.old.replica.state.shard }) (record { 0 = self.old.replica.state.own })) (Storing (node_of self.old)) input.now }
        requires ready { IsReady self.old input.now out.old }
        ensures turn { TurnsOut self.old input.now result self.new }
        ensures letters { out.new.letters ≡ out.old.letters ++ map posted result.outputs }
    {
        match input {
            Input::Restart => return self.restart(),
            Input::Stop => return self.stop(),
            _ => {}
        }
        match self.mode {
            Mode::Down => return self.sleep(input),
            Mode::Running => return self.run(input, out),
        }
    }

    // Nothing happens at a node that is down. A call is answered so.
    fn sleep(&self, input: &Input) -> Effect
        requires down { self.now.mode ≡ Mode.Down }
        requires named { is_named names input.now ≡ true }
        requires other { (input.now ≢ Restart) × (input.now ≢ Stop) }
        ensures turn { TurnsOut self.now input.now result self.now }
        ensures silent { result.outputs ≡ [] }
    {
        silent(self.made.alloc, Mark::Done, reply_when_down(input))
    }

    // The row of an input at a running node.
    fn run(&mut self, input: &Input, out: &mut Outbox) -> Effect
        requires running { self.old.mode ≡ Mode.Running }
        requires fits { Fits (config_of self.old) (Storage (record { 0 = self.old.replica.state.shard }) (record { 0 = self.old.replica.state.own })) (Storing (node_of self.old)) input.now }
        requires other { (input.now ≢ Restart) × (input.now ≢ Stop) }
        requires ready { IsPrepared self.old input.now out.old }
        ensures turn { TurnsOut self.old input.now result self.new }
        ensures letters { out.new.letters ≡ out.old.letters ++ map posted result.outputs }
    {
        match input {
            Input::Deliver {
                place: _,
                index: _,
                message,
            } => match message {
                Some(message) => return self.take(message, out),
                None => return self.nothing(),
            },
            Input::Call(call) => return self.answer(call),
            Input::Tick => return self.tick(out),
            Input::Lead | Input::Stop | Input::Restart => return self.nothing(),
        }
    }

    // The row of a message.
    fn take(&mut self, message: &Message, out: &mut Outbox) -> Effect
        requires running { self.old.mode ≡ Mode.Running }
        requires named { is_message message.now ≡ true }
        requires message { IsMessage message.now }
        requires range { IsMessageOf (config_of self.old) message.now }
        requires fits { FitsLists (member_in self.old) (lists_in self.old) message.now }
        requires ready { IsPrepared self.old (Deliver 0 0 (Some message.now)) out.old }
        ensures turn { (place index : ℕ) → TurnsOut self.old (Deliver place index (Some message.now)) result self.new }
        ensures letters { out.new.letters ≡ out.old.letters ++ map posted result.outputs }
    {
        match message {
            Message::Copy {
                segment,
                offset,
                entry,
            } => return self.copy(*segment, *offset, entry, out),
            Message::CopyAck { peer, length } => return self.copied(*peer, *length, out),
            Message::Decide { slot, value } => return self.decide(*slot, value),
            _ => return self.nothing(),
        }
    }

    // The row of a call.
    fn answer(&mut self, call: &Call) -> Effect
        requires running { self.old.mode ≡ Mode.Running }
        requires named { is_call call.now ≡ true }
        requires range { IsCallOf (config_of self.old) call.now }
        requires ready { HasMemoryForCall self.old call.now }
        ensures turn { TurnsOut self.old (ACall call.now) result self.new }
        ensures silent { result.outputs ≡ [] }
    {
        match call {
            Call::Submit {
                client,
                number,
                bytes,
            } => return self.submit(*client, *number, bytes.get()),
            Call::Ask { client, number } => return self.ask(*client, *number),
            Call::Read { client, position } => return self.read(*client, *position),
            Call::Request {
                client: _,
                value: _,
            } => return self.nothing(),
            Call::Settled {
                client: _,
                value: _,
                from: _,
            } => return self.nothing(),
        }
    }

    // Such an input is not for a storage node.
    fn nothing(&self) -> Effect
        ensures { result.outputs ≡ [] }
    {
        silent(self.made.alloc, Mark::Done, Reply::Nothing)
    }
}

// The answer to a call at a node that is down; no other input has one.
fn reply_when_down(input: &Input) -> Reply
    ensures { result ≡ to_call input.now Down }
{
    match input {
        Input::Call(_) => Reply::Down,
        Input::Deliver {
            place: _,
            index: _,
            message: _,
        } => Reply::Nothing,
        Input::Tick | Input::Lead | Input::Stop | Input::Restart => Reply::Nothing,
    }
}
