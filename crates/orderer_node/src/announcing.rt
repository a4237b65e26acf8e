//! What an orderer tells to many nodes.

ghost use Rattle.std.specs.Prelude.{◌≡◌, ℕ, ◌+◌, ◌*◌, ◌<◌, ◌≤◌, [], ◌∷◌, ◌++◌, map, replicate};
ghost use Rattle.log_base.specs.Shape.{shape};
ghost use Rattle.message_frame.specs.Spelling.{IsMessage};
ghost use Rattle.node_model.specs.Machine.{posted};
ghost use Rattle.node_model.specs.Nodes.{to_learners, to_nodes, to_orderers};
ghost use Rattle.node_model.specs.OrdererRow.{to_owner};
ghost use Rattle.event_letters.specs.Letters.{HasSpace, message_length};
ghost use Rattle.orderer_node.specs.Announcing.{AreSmall, announced, message_of, next_said, IsSaid};

use event_letters::EventLetters;
use log_base::{Ballot, Config, NodeId, Outbox, Slot};
use message_frame::Message;
use node_table::orderer;
use paxos_leader::Next;
use record_frame::Value;

/// What is told to many nodes in the same words.
#[derive(Clone, Copy, Debug)]
pub enum Announcement {
    Prepare {
        ballot: Ballot,
        from: Slot,
    },
    Accept {
        ballot: Ballot,
        slot: Slot,
        value: Value,
    },
    Decide {
        slot: Slot,
        value: Value,
    },
}

/// A value that is decided now, and what the leader says next.
#[derive(Clone, Copy, Debug)]
pub struct Decided {
    pub value: Value,
    pub next: Option<Announcement>,
}

impl Announcement {
    // The message of it.
    fn message(&self) -> Message
        ensures { result ≡ message_of self.now }
    {
        match *self {
            Announcement::Prepare { ballot, from } => Message::Prepare { ballot, from },
            Announcement::Accept {
                ballot,
                slot,
                value,
            } => Message::Accept {
                ballot,
                slot,
                value,
            },
            Announcement::Decide { slot, value } => Message::Decide { slot, value },
        }
    }
}

/// What a leader with a ballot says next.
pub fn said_next(ballot: Ballot, next: Next) -> Option<Announcement>
    ensures { result ≡ next_said ballot next }
{
    match next {
        Next::Propose { slot, value } => Some(Announcement::Accept {
            ballot,
            slot,
            value,
        }),
        Next::Window { from } => Some(Announcement::Prepare { ballot, from }),
        Next::Nothing => None,
    }
}

// Tells it to so many nodes from one on.
fn to_each(
    first: u16,
    count: u16,
    what: &Announcement,
    letters: &mut EventLetters,
    out: &mut Outbox,
)
    requires message { IsMessage (message_of what.now) }
    requires nodes { first + count < 65536 }
    requires space { HasSpace letters.old out.old.rooms (replicate count 143) }
    ensures sent { letters.new.sent ≡ letters.old.sent ++ to_nodes first count (message_of what.now) }
    ensures posted { out.new.letters ≡ out.old.letters ++ map posted (to_nodes first count (message_of what.now)) }
    ensures space { (more : ℕ) → HasSpace letters.old out.old.rooms (replicate (count + more) 143) → HasSpace letters.new out.new.rooms (replicate more 143) }
    ensures small { AreSmall count (to_nodes first count (message_of what.now)) }
{
    for node in 0..count {
        letters.send(NodeId(first + node), what.message(), out);
    }
}

/// Tells it to every orderer, if there is something to tell.
#[tactic(auto, unfolding(node_model::specs::Nodes::to_orderers))]
pub fn announce(
    config: &Config,
    what: &Option<Announcement>,
    letters: &mut EventLetters,
    out: &mut Outbox,
)
    requires message { IsSaid what.now }
    requires space { HasSpace letters.old out.old.rooms (replicate (shape config.now).orderers 143) }
    ensures sent { letters.new.sent ≡ letters.old.sent ++ announced (shape config.now) what.now }
    ensures posted { out.new.letters ≡ out.old.letters ++ map posted (announced (shape config.now) what.now) }
    ensures small { AreSmall 7 (announced (shape config.now) what.now) }
{
    let Some(what) = what else {
        return;
    };
    let first = orderer(config, 0).0;
    to_each(first, u16::from(config.orderers()), what, letters, out);
}

/// Tells the orderer of a ballot.
pub fn to_owner(
    config: &Config,
    ballot: Ballot,
    message: Message,
    letters: &mut EventLetters,
    out: &mut Outbox,
)
    requires message { IsMessage message }
    requires space { HasSpace letters.old out.old.rooms (message_length message ∷ []) }
    ensures sent { letters.new.sent ≡ letters.old.sent ++ to_owner (shape config.now) ballot.0 message }
    ensures posted { out.new.letters ≡ out.old.letters ++ map posted (to_owner (shape config.now) ballot.0 message) }
{
    let owner = (ballot.0 % u64::from(config.orderers())) as u8;
    letters.send(orderer(config, owner), message, out);
}

/// Tells a decision to every storage node, and to every orderer but one.
#[tactic(auto, unfolding(node_model::specs::Nodes::to_learners))]
pub fn tell_learners(
    config: &Config,
    index: u8,
    what: &Announcement,
    letters: &mut EventLetters,
    out: &mut Outbox,
)
    requires index { index < (shape config.now).orderers }
    requires message { IsMessage (message_of what.now) }
    requires space { HasSpace letters.old out.old.rooms
        (replicate ((shape config.now).replicas * (shape config.now).shards + (shape config.now).orderers) 143) }
    ensures sent { letters.new.sent ≡ letters.old.sent ++ to_learners (shape config.now) index (message_of what.now) }
    ensures posted { out.new.letters ≡ out.old.letters ++ map posted (to_learners (shape config.now) index (message_of what.now)) }
    ensures space { (more : ℕ) → HasSpace letters.old out.old.rooms
        (replicate ((shape config.now).replicas * (shape config.now).shards + (shape config.now).orderers + more) 143)
        → HasSpace letters.new out.new.rooms (replicate more 143) }
    ensures small { AreSmall 38 (to_learners (shape config.now) index (message_of what.now)) }
{
    let storage = u16::from(config.replicas()) * u16::from(config.shards());
    to_each(0, storage, what, letters, out);
    let own = orderer(config, index).0;
    to_each(own - u16::from(index), u16::from(index), what, letters, out);
    let after = u16::from(config.orderers() - index - 1);
    to_each(own + 1, after, what, letters, out);
}
