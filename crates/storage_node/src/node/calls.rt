//! The calls of clients.

ghost use Rattle.std.specs.Prelude.{◌≡◌, ◌≤◌, [], length, vec_capacity};
ghost use Rattle.history_frame.specs.declared.inputs.Call.TheVariants.{Ask, Read, Submit};
ghost use Rattle.history_frame.specs.declared.inputs.Input.TheVariants.{Call as ACall};
ghost use Rattle.log_base.specs.Wide.{IsBytes};
ghost use Rattle.log_model.specs.Reading.{read};
ghost use Rattle.shard_replica.specs.Answers.{is_halted as is_halted_in};
ghost use Rattle.storage_node.specs.Preparing.{FitsRecord, HasPayloadRoom};
ghost use Rattle.storage_node.specs.Replies.{HasCopy, reply_to_asked, reply_to_submitted, reply_so};
ghost use Rattle.storage_node.specs.StorageState.{lists_in, member_in};
ghost use Rattle.storage_node.specs.Turning.{TurnsOut};

use super::{Mode, StorageNode};
use crate::turn::silent;
use cut_chain::Places;
use history_frame::{Effect, Mark};
use log_base::{Bytes, Client, Number, Position};
use record_frame::Entry;
use reply_frame::Reply;
use segment_journal::Journal;
use shard_replica::{Asked, ReadAnswer, Submitted};
use std::mem;

impl<J: Journal, P: Places> StorageNode<J, P> {
    /// An entry is put at the end of the own list, or the reply says why not.
    pub(super) fn submit(&mut self, client: Client, number: Number, bytes: &[u8]) -> Effect
        requires running { self.old.mode ≡ Mode.Running }
        requires size { length bytes.now ≤ 65535 }
        requires room { HasPayloadRoom self.old.replica (length bytes.now) }
        ensures turn { TurnsOut self.old (ACall (Submit client number bytes.now)) result self.new }
        ensures silent { result.outputs ≡ [] }
    {
        let answer = self.replica.submit(client, number, bytes);
        if is_halted(answer) {
            self.mode = Mode::Down;
            return silent(self.made.alloc, Mark::Halted, Reply::Halted);
        }
        silent(self.made.alloc, Mark::Done, reply_to_submit(answer))
    }

    /// Where the entry of a pair stands.
    pub(super) fn ask(&self, client: Client, number: Number) -> Effect
        requires { self.now.mode ≡ Mode.Running }
        ensures turn { TurnsOut self.now (ACall (Ask client number)) result self.now }
        ensures silent { result.outputs ≡ [] }
    {
        let answer = self.replica.ask(client, number);
        silent(self.made.alloc, Mark::Done, reply_to_ask(answer))
    }

    /// What stands at a position.
    pub(super) fn read(&mut self, client: Client, position: Position) -> Effect
        requires running { self.old.mode ≡ Mode.Running }
        requires room { FitsRecord self.old.record_room (read (member_in self.old) (lists_in self.old) self.old.replica.state.known position.0) }
        ensures turn { TurnsOut self.old (ACall (Read client position)) result self.new }
        ensures silent { result.outputs ≡ [] }
    {
        let alloc = self.made.alloc;
        let found = mem::replace(&mut self.made.found, Vec::new(alloc));
        let reply = reply_to_read(position, self.replica.read(position), found);
        silent(alloc, Mark::Done, reply)
    }
}

// Whether the disk failed.
fn is_halted(answer: Submitted) -> bool
    ensures { result ≡ is_halted_in answer }
{
    match answer {
        Submitted::Halted => true,
        Submitted::Stored { .. } | Submitted::Stale { .. } => false,
        Submitted::NotAdded | Submitted::Finalised | Submitted::Full => false,
    }
}

fn reply_to_submit(answer: Submitted) -> Reply
    ensures { result ≡ reply_to_submitted answer }
{
    match answer {
        Submitted::Stored { offset } => Reply::Stored { offset },
        Submitted::Stale { last } => Reply::Stale { last },
        Submitted::NotAdded => Reply::NotAdded,
        Submitted::Finalised => Reply::Finalised,
        Submitted::Full => Reply::Full,
        Submitted::Halted => Reply::Halted,
    }
}

fn reply_to_ask(answer: Asked) -> Reply
    ensures { result ≡ reply_to_asked answer }
{
    match answer {
        Asked::At { position } => Reply::At { position },
        Asked::Pending { covered } => Reply::PendingAsk { covered },
        Asked::FinalisedAt { frozen } => Reply::FinalisedAt { frozen },
        Asked::Stale { last } => Reply::Stale { last },
        Asked::Missing => Reply::Missing,
    }
}

// A record that is found is copied into a vector that has room for it.
fn reply_to_read(position: Position, answer: ReadAnswer<'_>, mut found: Vec<u8>) -> Reply
    requires { HasCopy (vec_capacity found) answer }
    ensures { result ≡ reply_so position answer.entry }
{
    match answer {
        ReadAnswer::Found { head, bytes } => {
            found.clear();
            let _ = found.extend_from_slice(bytes);
            Reply::Found {
                position,
                entry: Entry {
                    client: head.client,
                    number: head.number,
                    bytes: Bytes::of(found),
                },
            }
        }
        ReadAnswer::Trimmed { mark } => Reply::Trimmed { mark },
        ReadAnswer::Pending { end } => Reply::PendingRead { end },
        ReadAnswer::Elsewhere { shard } => Reply::Elsewhere { shard },
    }
}
