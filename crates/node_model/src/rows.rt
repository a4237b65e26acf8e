//! Examples of the rules of storage nodes and gatherers, and laws of the rules of all roles. Each function
//! does nothing: its contract is the example or the law.

ghost use Rattle.std.specs.Prelude.{◌≡◌, ℕ, List, [], ◌∷◌, ◌&&◌, Option, Some, None, is_some};
ghost use Rattle.aggregator.specs.Hearing.{Hearing, after_note, fresh as nothing_heard};
ghost use Rattle.reply_frame.specs.declared.replies.Reply.{Down, Halted as HaltedReply, Nothing, Stored};
ghost use Rattle.history_frame.specs.declared.inputs.Call.TheVariants.{Submit};
ghost use Rattle.history_frame.specs.declared.inputs.Input.{Input};
ghost use Rattle.history_frame.specs.declared.inputs.Input.TheVariants.{Call as ACall, Restart, Stop, Tick};
ghost use Rattle.history_frame.specs.declared.inputs.Mark.{Mark};
ghost use Rattle.history_frame.specs.declared.inputs.Mark.TheVariants.{Done, Halted, OpenedWith, OpenedWithout, StayedDown};
ghost use Rattle.log_base.specs.ClusterShape.{Shape};
ghost use Rattle.log_model.specs.Storage.{Member, knowledge_of};
ghost use Rattle.record_frame.specs.declared.entries.Entry.{Entry};
ghost use Rattle.paxos_model.specs.Votes.{Payload};
ghost use Rattle.node_model.specs.GathererRow.{GathererNode, GathererOutcome, gatherer_role, names as gatherer_names, outcome as gatherer_outcome, row as gatherer_row};
ghost use Rattle.node_model.specs.Marks.{Running, Stopped, is_named};
ghost use Rattle.node_model.specs.Messages.{copied_message, copy_message, decide_message, least_message, report_message, want_message};
ghost use Rattle.node_model.specs.Naming.{is_row_input};
ghost use Rattle.node_model.specs.Nodes.{letter};
ghost use Rattle.node_model.specs.OrdererNode.{Node, Orderer, Outcome};
ghost use Rattle.node_model.specs.OrdererRow.{names as orderer_names, orderer_role, outcome as orderer_outcome, row as orderer_row};
ghost use Rattle.node_model.specs.StorageNode.{Put, Replica, StorageNode, StorageOutcome, fresh};
ghost use Rattle.node_model.specs.StorageRow.{names as storage_names, outcome as storage_outcome, row as storage_row, storage_role};
ghost use Rattle.node_model.specs.Turning.{Turned};
ghost use Rattle.node_model.specs.TwoReplicas.{added, entry, first, gets, holding, knowing, lengths, two_replicas};

/// An entry that is submitted to a shard that is known as added is put. Where its disk fails in the put,
/// the node is down with the entry in flight, which is there or not when the node starts again.
#[tactic(auto, unfolding(crate::specs::StorageRow::outcome, crate::specs::StorageRow::on_submit, log_model::specs::Submitting::submit, log_model::specs::Pairs::held))]
pub fn submit_puts()
    ensures stored { storage_outcome two_replicas first (holding [] [] (knowing (added ∷ []))) (ACall (Submit (record { 0 = 7 }) (record { 0 = 1 }) [])) Done
        ≡ Some (record { node = holding (entry 1 ∷ []) [] (knowing (added ∷ [])); outputs = []; reply = Stored 0 }) }
    ensures halted { storage_outcome two_replicas first (holding [] [] (knowing (added ∷ []))) (ACall (Submit (record { 0 = 7 }) (record { 0 = 1 }) [])) Halted
        ≡ Some (record {
          node = record { durable = [] ∷ [] ∷ []; mode = Stopped (Some (record { segment = 0; entry = entry 1 })) (knowledge_of first (added ∷ [])) };
          outputs = [];
          reply = HaltedReply;
        }) }
    ensures with { storage_outcome two_replicas first (record { durable = [] ∷ [] ∷ []; mode = Stopped (Some (record { segment = 0; entry = entry 1 })) (knowledge_of first (added ∷ [])) }) Restart OpenedWith
        ≡ Some (record { node = holding (entry 1 ∷ []) [] (fresh first); outputs = []; reply = Nothing }) }
    ensures without { storage_outcome two_replicas first (record { durable = [] ∷ [] ∷ []; mode = Stopped (Some (record { segment = 0; entry = entry 1 })) (knowledge_of first (added ∷ [])) }) Restart OpenedWithout
        ≡ Some (record { node = holding [] [] (fresh first); outputs = []; reply = Nothing }) }
    ensures stays { (node : StorageNode) → let down : StorageNode = record node { mode = Stopped (Some (record { segment = 0; entry = entry 1 })) (knowledge_of first (added ∷ [])) } in
        storage_outcome two_replicas first down Restart StayedDown ≡ Some (record { node = down; outputs = []; reply = Nothing }) }
    ensures nothing_put { storage_outcome two_replicas first (holding [] [] (knowing [])) (ACall (Submit (record { 0 = 7 }) (record { 0 = 1 }) [])) Halted ≡ None }
{}

/// A copy that is next is put, acknowledged to its primary and reported. A copy past the end is not put:
/// the length of the list is acknowledged.
#[tactic(auto, unfolding(crate::specs::StorageRow::outcome, crate::specs::StorageRow::on_copy, log_model::specs::Storage::report_of))]
pub fn copies_follow_each_other()
    ensures next { storage_outcome two_replicas first (holding [] (entry 1 ∷ []) (knowing [])) (gets (copy_message 1 1 (entry 2))) Done
        ≡ Some (record {
          node = holding [] (entry 1 ∷ entry 2 ∷ []) (knowing []);
          outputs = letter 1 (copied_message 0 2) ∷ letter 2 (report_message 0 0 (lengths 0 2)) ∷ [];
          reply = Nothing;
        }) }
    ensures gap { storage_outcome two_replicas first (holding [] (entry 1 ∷ []) (knowing [])) (gets (copy_message 1 2 (entry 3))) Done
        ≡ Some (record { node = holding [] (entry 1 ∷ []) (knowing []); outputs = letter 1 (copied_message 0 1) ∷ []; reply = Nothing }) }
    ensures again { storage_outcome two_replicas first (holding [] (entry 1 ∷ []) (knowing [])) (gets (copy_message 1 0 (entry 1))) Done
        ≡ Some (record { node = holding [] (entry 1 ∷ []) (knowing []); outputs = letter 1 (copied_message 0 1) ∷ []; reply = Nothing }) }
{}

/// A peer that holds more than it acknowledged gets what comes into its window of four.
#[tactic(auto, unfolding(crate::specs::StorageRow::outcome, crate::specs::StorageRow::on_copied))]
pub fn window_moves()
    ensures more { let own = entry 1 ∷ entry 2 ∷ entry 3 ∷ entry 4 ∷ entry 5 ∷ entry 6 ∷ [] in
        storage_outcome two_replicas first (holding own [] (knowing [])) (gets (copied_message 1 1)) Done
        ≡ Some (record {
          node = holding own [] (record (knowing []) { copying = record { own = 0; acked = 0 ∷ 1 ∷ [] } });
          outputs = letter 1 (copy_message 0 4 (entry 5)) ∷ [];
          reply = Nothing;
        }) }
    ensures no_more { let own = entry 1 ∷ [] in
        storage_outcome two_replicas first (holding own [] (knowing [])) (gets (copied_message 1 0)) Done
        ≡ Some (record { node = holding own [] (knowing []); outputs = []; reply = Nothing }) }
{}

/// At a tick a replica sends the windows of its peers, reports how much it holds, and asks an orderer for
/// the values that it lacks.
#[tactic(auto, unfolding(crate::specs::StorageRow::outcome, crate::specs::StorageRow::on_tick, log_model::specs::Storage::report_of))]
pub fn replica_ticks()
    ensures { storage_outcome two_replicas first (holding (entry 1 ∷ []) [] (knowing (added ∷ []))) Tick Done
        ≡ Some (record {
          node = holding (entry 1 ∷ []) [] (record (knowing (added ∷ [])) { ticks = 1 });
          outputs = letter 1 (copy_message 0 0 (entry 1)) ∷ letter 2 (report_message 0 0 (lengths 1 0)) ∷ letter 3 (want_message 1 0) ∷ [];
          reply = Nothing;
        }) }
{}

/// A decided value is learned where it is the next one.
#[tactic(auto, unfolding(crate::specs::StorageRow::outcome, crate::specs::StorageRow::on_decide, log_model::specs::Learning::known_after))]
pub fn value_is_learned()
    ensures next { storage_outcome two_replicas first (holding [] [] (knowing [])) (gets (decide_message 0 added)) Done
        ≡ Some (record { node = holding [] [] (knowing (added ∷ [])); outputs = []; reply = Nothing }) }
    ensures gap { storage_outcome two_replicas first (holding [] [] (knowing [])) (gets (decide_message 1 added)) Done
        ≡ Some (record { node = holding [] [] (knowing []); outputs = []; reply = Nothing }) }
{}

/// A gatherer that heard from both replicas of its shard tells every orderer the least at a tick. Before
/// that it tells nothing. It has no disk, so that it cannot halt or stay down.
#[tactic(auto, unfolding(crate::specs::GathererRow::outcome, crate::specs::GathererRow::on_report, crate::specs::GathererRow::on_tick, crate::specs::Nodes::to_orderers))]
pub fn gatherer_ticks()
    ensures both { let heard = after_note (after_note (nothing_heard 0 2 1) 0 0 (lengths 3 1)) 0 1 (lengths 2 4) in
        gatherer_outcome two_replicas 0 (record { durable = tt; mode = Running heard }) Tick Done
        ≡ Some (record {
          node = record { durable = tt; mode = Running heard };
          outputs = letter 3 (least_message 0 (lengths 2 1)) ∷ letter 4 (least_message 0 (lengths 2 1)) ∷ letter 5 (least_message 0 (lengths 2 1)) ∷ [];
          reply = Nothing;
        }) }
    ensures one { let heard = after_note (nothing_heard 0 2 1) 0 0 (lengths 3 1) in
        gatherer_outcome two_replicas 0 (record { durable = tt; mode = Running heard }) Tick Done
        ≡ Some (record { node = record { durable = tt; mode = Running heard }; outputs = []; reply = Nothing }) }
    ensures noted { (heard : Hearing) → gatherer_outcome two_replicas 0 (record { durable = tt; mode = Running heard }) (gets (report_message 0 1 (lengths 2 4))) Done
        ≡ Some (record { node = record { durable = tt; mode = Running (after_note heard 0 1 (lengths 2 4)) }; outputs = []; reply = Nothing }) }
    ensures no_halt { (heard : Hearing) → gatherer_outcome two_replicas 0 (record { durable = tt; mode = Running heard }) Tick Halted ≡ None }
    ensures no_disk { (node : GathererNode) → gatherer_outcome two_replicas 0 node Restart StayedDown ≡ None }
    ensures no_flight { gatherer_outcome two_replicas 0 (record { durable = tt; mode = Stopped None tt }) Restart OpenedWith ≡ None }
{}

/// A storage node or a gatherer that is down answers a call so, and lets time pass.
#[tactic(auto, unfolding(crate::specs::StorageRow::outcome))]
pub fn replica_is_down()
    ensures call { (lists : List (List Entry)) → let down : StorageNode = record { durable = lists; mode = Stopped None (knowledge_of first []) } in
        storage_outcome two_replicas first down (ACall (Submit (record { 0 = 7 }) (record { 0 = 1 }) [])) Done ≡ Some (record { node = down; outputs = []; reply = Down }) }
    ensures tick { (lists : List (List Entry)) → let down : StorageNode = record { durable = lists; mode = Stopped None (knowledge_of first []) } in
        storage_outcome two_replicas first down Tick Done ≡ Some (record { node = down; outputs = []; reply = Nothing }) }
    ensures stop { (lists : List (List Entry)) (memory : Replica) →
        storage_outcome two_replicas first (record { durable = lists; mode = Running memory }) Stop Done
        ≡ Some (record { node = record { durable = lists; mode = Stopped None memory.known }; outputs = []; reply = Nothing }) }
{}

/// A running node has a row for each input that is named for its role, and for no other.
pub fn rows_are_named()
    ensures storage { (config : Shape) (member : Member) (lists : List (List Entry)) (memory : Replica) (input : Input)
        → is_some (storage_row config member lists memory input) ≡ (is_row_input input && is_named storage_names input) }
    ensures gatherer { (config : Shape) (index : ℕ) (memory : Hearing) (input : Input)
        → is_some (gatherer_row config index memory input) ≡ (is_row_input input && is_named gatherer_names input) }
    ensures orderer { (config : Shape) (i : ℕ) (list : List Payload) (memory : Orderer) (input : Input)
        → is_some (orderer_row config i list memory input) ≡ (is_row_input input && is_named orderer_names input) }
{}

/// Whatever its role, an event follows a row, halts in the put of one, leaves a node that is down as it
/// was, takes it down, or opens it.
pub fn events_turn_out()
    ensures storage { (config : Shape) (member : Member) (node : StorageNode) (input : Input) (mark : Mark) (made : StorageOutcome)
        → storage_outcome config member node input mark ≡ Some made → Turned (storage_role config member) node input mark made }
    ensures gatherer { (config : Shape) (index : ℕ) (node : GathererNode) (input : Input) (mark : Mark) (made : GathererOutcome)
        → gatherer_outcome config index node input mark ≡ Some made → Turned (gatherer_role config index) node input mark made }
    ensures orderer { (config : Shape) (i : ℕ) (node : Node) (input : Input) (mark : Mark) (made : Outcome)
        → orderer_outcome config i node input mark ≡ Some made → Turned (orderer_role config i) node input mark made }
{}
