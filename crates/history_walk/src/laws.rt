//! What nodes reply. The function does nothing: its contract is the law.

ghost use Rattle.std.specs.Prelude.{◌≡◌, ℕ, Some};
ghost use Rattle.history_frame.specs.declared.inputs.Input.{Input};
ghost use Rattle.history_frame.specs.declared.inputs.Mark.{Mark};
ghost use Rattle.log_base.specs.ClusterShape.{Shape};
ghost use Rattle.node_model.specs.NodeState.{NodeOutcome, NodeState, node_outcome};
ghost use Rattle.history_walk.specs.Replies.{IsNodeReply};

/// What a node replies is an answer of nodes, and none of those that are given to items alone.
#[tactic(auto, using(crate::proofs::NodeReplies::node_reply))]
pub fn nodes_reply_as_nodes()
    ensures { (config : Shape) (node : ℕ) (state : NodeState) (input : Input) (mark : Mark) (made : NodeOutcome)
        → node_outcome config node state input mark ≡ Some made
        → IsNodeReply made.reply }
{}
