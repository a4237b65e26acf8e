//! The steps on which the laws rest: what the rows of a replica do where one copies to another. Each
//! function does nothing: its contract is the step.

ghost use Rattle.std.specs.Prelude.{◌≡◌, ◌<◌, ◌%◌, ◌+◌, suc, ℕ, List, [], ◌∷◌, length, Some, None};
ghost use Rattle.reply_frame.specs.declared.replies.Reply.{Nothing};
ghost use Rattle.log_base.specs.ClusterShape.{Shape};
ghost use Rattle.log_model.specs.Storage.{Member, list_in, with_entry};
ghost use Rattle.record_frame.specs.declared.entries.Entry.{Entry};
ghost use Rattle.node_table.specs.Numbering.{orderer_node};
ghost use Rattle.paxos_model.specs.Leader.{Leader, Nothing as Rests, advance, no_votes, slot_limit};
ghost use Rattle.paxos_model.specs.Votes.{Payload, window_size};
ghost use Rattle.node_model.specs.Messages.{promised_message};
ghost use Rattle.node_model.specs.Nodes.{letter};
ghost use Rattle.node_model.specs.OrdererNode.{Orderer};
ghost use Rattle.node_model.specs.OrdererRow.{on_prepare};
ghost use Rattle.node_model.specs.StorageNode.{Put, Replica};
ghost use Rattle.node_model.specs.StorageRow.{ack, on_copy, report, told};
ghost use Rattle.quiet_model.specs.Settled.{IsAcceptor};

/// A copy whose offset is the length of its list is stored, acknowledged and reported.
pub fn next_copy_is_stored()
    ensures { (config : Shape) (member : Member) (lists : List (List Entry)) (memory : Replica) (put : Put) (offset : ℕ)
        → offset ≡ length (list_in lists put.segment)
        → on_copy config member lists memory put offset
        ≡ record {
          put = Some put;
          after = memory;
          outputs = ack config member put.segment (with_entry lists put.segment put.entry) ∷ report config member (with_entry lists put.segment put.entry) ∷ [];
          reply = Nothing;
        } }
{}

/// A copy of what is there is acknowledged alone.
pub fn known_copy_is_acknowledged()
    ensures { (config : Shape) (member : Member) (lists : List (List Entry)) (memory : Replica) (put : Put) (offset : ℕ)
        → offset < length (list_in lists put.segment)
        → on_copy config member lists memory put offset ≡ told memory (ack config member put.segment lists ∷ []) }
{}

/// A leader to whom no vote was reported rests where it has no wish, in its window or past the last slot.
pub fn leader_rests()
    ensures { (orderers : ℕ) (leader : Leader) (known : ℕ)
        → leader.pending ≡ None
        → leader.best ≡ no_votes
        → (known < slot_limit → known < leader.window + window_size)
        → advance orderers leader known None ≡ record { leader = leader; next = Rests } }
{}

/// An acceptor that promised the one ballot, and voted in it for no later slot, promises it again and has
/// nothing to report.
pub fn nothing_is_reported()
    ensures { (config : Shape) (ballot : ℕ)
        → ballot % config.orderers ≡ 0
        → (i : ℕ) (list : List Payload) (o : Orderer) (slots slot : ℕ)
        → IsAcceptor ballot slots list
        → on_prepare config i list o ballot slot
        ≡ record { put = None; after = o; outputs = letter (orderer_node config 0) (promised_message ballot slot i []) ∷ []; reply = Nothing } }
{}
