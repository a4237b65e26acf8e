//! The copies of the own list's entries that go to the peers.

ghost use Rattle.std.specs.Prelude.{◌≡◌, ◌<◌, ◌≤◌, length, OnOk, slice_index};
ghost use Rattle.log_base.specs.Shape.{shape};
ghost use Rattle.node_model.specs.StorageNode.{member_of};
ghost use Rattle.node_model.specs.StorageRow.{copies as copies_to, windows};
ghost use Rattle.peer_copy.specs.Copying.{offsets_of, span_of_note};
ghost use Rattle.shard_replica.specs.Replica.{own_entries};
ghost use Rattle.storage_node.specs.Preparing.{Makes, stock};
ghost use Rattle.storage_node.specs.StorageState.{IsOf};

use crate::prepared::Prepared;
use crate::seat::Seat;
use cut_chain::Places;
use log_base::{Memory, Outbox, Replica};
use node_table::storage;
use peer_copy::Span;
use segment_journal::Journal;
use shard_replica::ShardReplica;

/// How many entries past the acknowledged ones are on their way to a peer at once.
const WINDOW: u32 = 4;

/// What is sent to a peer that acknowledged one length of a list and now holds another.
pub(crate) fn span_after(acked: u32, held: u32, len: u32) -> Span
    requires held { held ≤ len }
    requires len { len ≤ 16384 }
    ensures { result ≡ span_of_note acked held len }
{
    if held <= acked {
        return Span {
            from: acked,
            to: acked,
        };
    }
    Span {
        from: (acked + WINDOW).max(held),
        to: (held + WINDOW).min(len),
    }
}

/// Makes the copies of the entries of a span, to a peer.
pub(crate) fn make_copies<J: Journal, P: Places>(
    seat: &Seat,
    replica: &ShardReplica<J, P>,
    peer: Replica,
    span: Span,
    made: &mut Prepared,
    out: &mut Outbox,
) -> Result<(), Memory>
    requires replica { IsOf (shape seat.now.config) seat.now.shard.0 seat.now.own.0 replica.now.state }
    requires peer { peer.0 < (shape seat.now.config).replicas }
    requires span { span.from < span.to → span.to ≤ length (own_entries replica.now.state) }
    requires few { length (own_entries replica.now.state) ≤ 16384 }
    ensures made { OnOk result (Makes
        (copies_to (shape seat.now.config) (member_of (shape seat.now.config) seat.now.shard.0 seat.now.own.0) (own_entries replica.now.state) peer.0 (offsets_of span))
        (stock made.old.letters made.old.copies.items out.old.rooms) (stock made.new.letters made.new.copies.items out.new.rooms)) }
    ensures sent { made.new.letters.sent ≡ made.old.letters.sent }
    ensures out { out.new.letters ≡ out.old.letters }
{
    let to = storage(&seat.config, seat.shard, peer);
    for offset in span.from..span.to {
        let payload = replica.payload(seat.own, offset);
        made.make_copy(to, seat.own, offset, payload, out)?;
    }
    Ok(())
}

/// Makes the copies of what is on its way to each peer.
pub(crate) fn make_windows<J: Journal, P: Places>(
    seat: &Seat,
    replica: &ShardReplica<J, P>,
    made: &mut Prepared,
    out: &mut Outbox,
) -> Result<(), Memory>
    requires replica { IsOf (shape seat.now.config) seat.now.shard.0 seat.now.own.0 replica.now.state }
    requires few { length (own_entries replica.now.state) ≤ 16384 }
    ensures made { OnOk result (Makes
        (windows (shape seat.now.config) (member_of (shape seat.now.config) seat.now.shard.0 seat.now.own.0) (own_entries replica.now.state)
        replica.now.state.copying 0 (shape seat.now.config).replicas)
        (stock made.old.letters made.old.copies.items out.old.rooms) (stock made.new.letters made.new.copies.items out.new.rooms)) }
    ensures sent { made.new.letters.sent ≡ made.old.letters.sent }
    ensures out { out.new.letters ≡ out.old.letters }
{
    for peer in 0..seat.config.replicas() {
        make_window(seat, replica, Replica(peer), made, out)?;
    }
    Ok(())
}

// Makes the copies of what is on its way to a replica, unless it is the own one.
fn make_window<J: Journal, P: Places>(
    seat: &Seat,
    replica: &ShardReplica<J, P>,
    peer: Replica,
    made: &mut Prepared,
    out: &mut Outbox,
) -> Result<(), Memory>
    requires replica { IsOf (shape seat.now.config) seat.now.shard.0 seat.now.own.0 replica.now.state }
    requires few { length (own_entries replica.now.state) ≤ 16384 }
    requires peer { peer.0 < (shape seat.now.config).replicas }
    ensures made { OnOk result (Makes
        (windows (shape seat.now.config) (member_of (shape seat.now.config) seat.now.shard.0 seat.now.own.0) (own_entries replica.now.state)
        replica.now.state.copying peer.0 1)
        (stock made.old.letters made.old.copies.items out.old.rooms) (stock made.new.letters made.new.copies.items out.new.rooms)) }
    ensures sent { made.new.letters.sent ≡ made.old.letters.sent }
    ensures out { out.new.letters ≡ out.old.letters }
{
    if peer.0 == seat.own.0 {
        return Ok(());
    }
    let span = replica.windows(peer);
    make_copies(seat, replica, peer, span, made, out)
}
