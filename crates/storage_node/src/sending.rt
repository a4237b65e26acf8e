//! Sending the letters of an event.

ghost use Rattle.std.specs.Prelude.{◌≡◌, ℕ, ◌<◌, ◌≤◌, ◌%◌, List as Items, [], ◌∷◌, ◌++◌, map};
ghost use Rattle.std.specs.List.{AllByRecursion};
ghost use Rattle.event_letters.specs.Letters.{HasSpace};
ghost use Rattle.log_base.specs.Shape.{shape};
ghost use Rattle.node_model.specs.Machine.{posted};
ghost use Rattle.node_model.specs.Messages.{copied_message, report_message, want_message};
ghost use Rattle.node_model.specs.Nodes.{letter};
ghost use Rattle.node_table.specs.Numbering.{gatherer_of, orderer_node, storage_node};
ghost use Rattle.record_frame.specs.Values.{IsLengths};
ghost use Rattle.storage_node.specs.Preparing.{IsLetter, ack_size, report_size, sizes_of, want_size};

use crate::seat::Seat;
use event_letters::EventLetters;
use history_frame::Sent;
use log_base::{Outbox, Replica, Slot};
use message_frame::Message;
use node_table::{gatherer, orderer, storage};
use record_frame::Lengths;

/// How many bytes an acknowledgement has.
pub(crate) const ACK_BYTES: u32 = 6;

/// How many bytes a report has at most.
pub(crate) const REPORT_BYTES: u32 = 25;

/// How many bytes a want has.
pub(crate) const WANT_BYTES: u32 = 7;

/// Sends letters that were made before, in order.
pub(crate) fn send_all(made: Vec<Sent>, letters: &mut EventLetters, out: &mut Outbox)
    requires letters { AllByRecursion IsLetter made.items }
    requires space { HasSpace letters.old out.old.rooms (sizes_of made.items) }
    ensures sent { letters.new.sent ≡ letters.old.sent ++ made.items }
    ensures letters { out.new.letters ≡ out.old.letters ++ map posted made.items }
    ensures space { (sizes : Items ℕ) → HasSpace letters.old out.old.rooms (sizes_of made.items ++ sizes) → HasSpace letters.new out.new.rooms sizes }
{
    for sent in made {
        letters.send(sent.to, sent.message, out);
    }
}

/// Tells the primary of a segment how much of it is held.
pub(crate) fn send_ack(
    seat: &Seat,
    segment: Replica,
    length: u32,
    letters: &mut EventLetters,
    out: &mut Outbox,
)
    requires segment { segment.0 < (shape seat.now.config).replicas }
    requires length { length ≤ 16384 }
    requires space { HasSpace letters.old out.old.rooms (ack_size ∷ []) }
    ensures sent { letters.new.sent ≡ letters.old.sent
        ++ letter (storage_node (shape seat.now.config) seat.now.shard.0 segment.0) (copied_message seat.now.own.0 length) ∷ [] }
    ensures letters { out.new.letters ≡ out.old.letters
        ++ posted (letter (storage_node (shape seat.now.config) seat.now.shard.0 segment.0) (copied_message seat.now.own.0 length)) ∷ [] }
    ensures space { (sizes : Items ℕ) → HasSpace letters.old out.old.rooms (ack_size ∷ sizes) → HasSpace letters.new out.new.rooms sizes }
{
    let to = storage(&seat.config, seat.shard, segment);
    letters.send(
        to,
        Message::CopyAck {
            peer: seat.own,
            length,
        },
        out,
    );
}

/// Tells the gatherer how much of each list is held.
pub(crate) fn send_report(
    seat: &Seat,
    lengths: Lengths,
    letters: &mut EventLetters,
    out: &mut Outbox,
)
    requires lengths { IsLengths 5 lengths }
    requires space { HasSpace letters.old out.old.rooms (report_size ∷ []) }
    ensures sent { letters.new.sent ≡ letters.old.sent
        ++ letter (gatherer_of (shape seat.now.config) seat.now.shard.0) (report_message seat.now.shard.0 seat.now.own.0 lengths) ∷ [] }
    ensures letters { out.new.letters ≡ out.old.letters
        ++ posted (letter (gatherer_of (shape seat.now.config) seat.now.shard.0) (report_message seat.now.shard.0 seat.now.own.0 lengths)) ∷ [] }
    ensures space { (sizes : Items ℕ) → HasSpace letters.old out.old.rooms (report_size ∷ sizes) → HasSpace letters.new out.new.rooms sizes }
{
    let to = gatherer(&seat.config, seat.shard);
    letters.send(
        to,
        Message::Report {
            shard: seat.shard,
            replica: seat.own,
            lengths,
        },
        out,
    );
}

/// Asks the orderer whose turn it is for the values from a slot on.
pub(crate) fn send_want(
    seat: &Seat,
    known: u32,
    ticks: u64,
    letters: &mut EventLetters,
    out: &mut Outbox,
)
    requires known { known ≤ 16384 }
    requires space { HasSpace letters.old out.old.rooms (want_size ∷ []) }
    ensures sent { letters.new.sent ≡ letters.old.sent
        ++ letter (orderer_node (shape seat.now.config) (ticks % (shape seat.now.config).orderers))
        (want_message known (storage_node (shape seat.now.config) seat.now.shard.0 seat.now.own.0)) ∷ [] }
    ensures letters { out.new.letters ≡ out.old.letters
        ++ posted (letter (orderer_node (shape seat.now.config) (ticks % (shape seat.now.config).orderers))
        (want_message known (storage_node (shape seat.now.config) seat.now.shard.0 seat.now.own.0))) ∷ [] }
    ensures space { (sizes : Items ℕ) → HasSpace letters.old out.old.rooms (want_size ∷ sizes) → HasSpace letters.new out.new.rooms sizes }
    ensures letter { IsLetter (letter (orderer_node (shape seat.now.config) (ticks % (shape seat.now.config).orderers))
        (want_message known (storage_node (shape seat.now.config) seat.now.shard.0 seat.now.own.0))) }
{
    let turn = (ticks % u64::from(seat.config.orderers())) as u8;
    let to = orderer(&seat.config, turn);
    let node = storage(&seat.config, seat.shard, seat.own);
    letters.send(
        to,
        Message::Want {
            from: Slot(known),
            node,
        },
        out,
    );
}
