//! Worked examples, which show that the definitions mean what they should. Each function does nothing:
//! its contract is the example.

ghost use Rattle.std.specs.Prelude.{◌≡◌, ℕ, List, [], ◌∷◌, ◌==◌, if◌then◌else◌, Some, None};
ghost use Rattle.reply_frame.specs.declared.replies.Reply.{Down, Nothing};
ghost use Rattle.history_frame.specs.declared.inputs.Call.TheVariants.{Request};
ghost use Rattle.history_frame.specs.declared.inputs.Input.TheVariants.{Call as ACall, Deliver, Lead, Restart, Tick};
ghost use Rattle.history_frame.specs.declared.inputs.Mark.TheVariants.{Done, Halted, OpenedWith, OpenedWithout};
ghost use Rattle.log_base.specs.ClusterShape.{Shape};
ghost use Rattle.record_frame.specs.declared.values.Value.TheVariants.{Add, Noop};
ghost use Rattle.paxos_model.specs.Leader.{leader_from};
ghost use Rattle.paxos_model.specs.Votes.{Payload, Promise, Voted, vote_of};
ghost use Rattle.node_model.specs.Chosen.{decided};
ghost use Rattle.node_table.specs.Numbering.{orderer_node};
ghost use Rattle.node_model.specs.Marks.{Running, Stopped};
ghost use Rattle.node_model.specs.Messages.{accept_message, accepted_message, lower_message, prepare_message};
ghost use Rattle.node_model.specs.Nodes.{letter, orderer_of};
ghost use Rattle.node_model.specs.OrdererNode.{Node, Outcome, at_first, fresh};
ghost use Rattle.node_model.specs.OrdererRow.{outcome};

/// Storage nodes come first, then gatherers, then orderers.
pub fn nodes_in_order()
    ensures { let shape : Shape = record { replicas = 2; shards = 2; orderers = 3; gatherers = 1 } in
        (orderer_node shape 0 ≡ 5) × (orderer_of shape 4 ≡ None) × (orderer_of shape 7 ≡ Some 2) × (orderer_of shape 8 ≡ None) }
{}

/// A node that is down answers a call so, and lets time pass.
#[tactic(auto, unfolding(crate::specs::OrdererRow::outcome))]
pub fn nothing_while_down()
    ensures call { (shape : Shape) (i : ℕ) → let node = at_first [] in
        outcome shape i node (ACall (Request (record { 0 = 0 }) Noop)) Done ≡ Some (record { node = node; outputs = []; reply = Down }) }
    ensures tick { (shape : Shape) (i : ℕ) → let node = at_first [] in
        outcome shape i node Tick Done ≡ Some (record { node = node; outputs = []; reply = Nothing }) }
{}

/// Orderer 0 of three begins to lead with ballot 3, and asks every orderer.
#[tactic(auto, unfolding(crate::specs::OrdererRow::outcome, crate::specs::OrdererRow::on_lead, crate::specs::Nodes::to_orderers))]
pub fn leader_begins()
    ensures { let shape : Shape = record { replicas = 1; shards = 1; orderers = 3; gatherers = 1 } in
        let ask = prepare_message 3 0 in
        outcome shape 0 (record { durable = []; mode = Running (fresh shape) }) Lead Done
        ≡ Some (record {
          node = record { durable = Promise 3 ∷ []; mode = Running (record (fresh shape) { leader = Some (leader_from 3 0) }) };
          outputs = letter 2 ask ∷ letter 3 ask ∷ letter 4 ask ∷ [];
          reply = Nothing;
        }) }
{}

/// A disk that fails in the put of a vote takes the node down without an answer. When it starts again the
/// vote is in the list or not, and nothing else is remembered.
#[tactic(auto, unfolding(crate::specs::OrdererRow::outcome, crate::specs::OrdererRow::on_accept, paxos_model::specs::Acceptor::accept))]
pub fn crash_in_a_put()
    ensures halted { (shape : Shape) → let vote = Voted (vote_of 3 0 Noop) in
        outcome shape 1 (record { durable = Promise 3 ∷ []; mode = Running (fresh shape) }) (Deliver 0 0 (Some (accept_message 3 0 Noop))) Halted
        ≡ Some (record { node = record { durable = Promise 3 ∷ []; mode = Stopped (Some vote) [] }; outputs = []; reply = Nothing }) }
    ensures with { (shape : Shape) → let vote = Voted (vote_of 3 0 Noop) in
        outcome shape 1 (record { durable = Promise 3 ∷ []; mode = Stopped (Some vote) [] }) Restart OpenedWith
        ≡ Some (record { node = record { durable = Promise 3 ∷ vote ∷ []; mode = Running (fresh shape) }; outputs = []; reply = Nothing }) }
    ensures without { (shape : Shape) → let vote = Voted (vote_of 3 0 Noop) in
        outcome shape 1 (record { durable = Promise 3 ∷ []; mode = Stopped (Some vote) [] }) Restart OpenedWithout
        ≡ Some (record { node = record { durable = Promise 3 ∷ []; mode = Running (fresh shape) }; outputs = []; reply = Nothing }) }
{}

/// An orderer that promised ballot 5 refuses a vote in 3: it tells the owner of 3 so. Such an input puts
/// nothing, so it cannot halt.
#[tactic(auto, unfolding(crate::specs::OrdererRow::outcome, crate::specs::OrdererRow::on_accept, paxos_model::specs::Acceptor::accept))]
pub fn promise_is_kept()
    ensures refused { let shape : Shape = record { replicas = 1; shards = 1; orderers = 3; gatherers = 1 } in
        let node : Node = record { durable = Promise 5 ∷ []; mode = Running (fresh shape) } in
        outcome shape 1 node (Deliver 0 0 (Some (accept_message 3 0 Noop))) Done
        ≡ Some (record { node = node; outputs = letter 2 (lower_message 3 5) ∷ []; reply = Nothing }) }
    ensures no_halt { let shape : Shape = record { replicas = 1; shards = 1; orderers = 3; gatherers = 1 } in
        let node : Node = record { durable = Promise 5 ∷ []; mode = Running (fresh shape) } in
        outcome shape 1 node (Deliver 0 0 (Some (accept_message 3 0 Noop))) Halted ≡ None }
{}

/// A value is decided where two of three orderers have a vote of it in one ballot. Votes in two ballots do
/// not add up.
#[tactic(auto, unfolding(crate::specs::Chosen::decided, crate::specs::Chosen::chosen_value, paxos_model::specs::Majority::is_majority))]
pub fn decided_by_a_majority()
    ensures nothing { decided 3 (λ i. []) ≡ [] }
    ensures majority { decided 3 (λ i. if i == 0 then [] else Voted (vote_of 3 0 Noop) ∷ []) ≡ Noop ∷ [] }
    ensures two_ballots { decided 3 (λ i. if i == 0 then Voted (vote_of 3 0 Noop) ∷ [] else if i == 1 then Voted (vote_of 5 0 Noop) ∷ [] else []) ≡ [] }
{}
