//! The laws of calls at a settled moment. Each function does nothing: its contract is the law.

ghost use Rattle.std.specs.Prelude.{◌≡◌, ◌<◌, ℕ, List, false, length, Some};
ghost use Rattle.reply_frame.specs.declared.replies.Reply.{Reply, Stored as StoredAt, Taken as TakenWish};
ghost use Rattle.history_frame.specs.declared.inputs.Call.TheVariants.{Request, Submit};
ghost use Rattle.history_frame.specs.declared.inputs.Input.TheVariants.{Call as ACall};
ghost use Rattle.history_frame.specs.declared.inputs.Mark.TheVariants.{Done};
ghost use Rattle.log_base.specs.ClusterShape.{InRange, Shape};
ghost use Rattle.log_base.specs.declared.numbers.Client.{Client};
ghost use Rattle.log_base.specs.declared.numbers.Number.{Number};
ghost use Rattle.log_model.specs.Storage.{knowledge_of};
ghost use Rattle.log_model.specs.Submitting.{Stored, submit};
ghost use Rattle.record_frame.specs.declared.values.Value.{Value};
ghost use Rattle.record_frame.specs.Entries.{entry_of};
ghost use Rattle.node_table.specs.Numbering.{orderer_node, storage_node};
ghost use Rattle.node_model.specs.OrdererRow.{finalises_unknown};
ghost use Rattle.node_model.specs.StorageNode.{member_of};
ghost use Rattle.quiet_model.specs.Ahead.{IsAhead, with_one_more};
ghost use Rattle.quiet_model.specs.Deciding.{wishing};
ghost use Rattle.quiet_model.specs.Moments.{Moment, Takes};
ghost use Rattle.quiet_model.specs.Settled.{Agreed, IsSettled, ListsOf, list_at};

/// A submission that is stored puts its primary ahead of the peers, and is answered with its offset.
pub fn submission_goes_ahead()
    ensures { (config : Shape) (agreed : Agreed) (lists : ListsOf) (shard replica : ℕ)
        → shard < config.shards
        → replica < config.replicas
        → (client : Client) (number : Number) (bytes : List ℕ)
        → submit (member_of config shard replica) (list_at lists shard replica) (knowledge_of (member_of config shard replica) agreed.values) (entry_of client number bytes)
        ≡ record { answer = Stored (length (list_at lists shard replica)); put = Some (entry_of client number bytes) }
        → (before after : Moment) (reply : Reply)
        → IsSettled config agreed lists before
        → Takes config before (storage_node config shard replica) (ACall (Submit client number bytes)) Done reply after
        → IsAhead config agreed lists (with_one_more lists shard replica (entry_of client number bytes)) after
        × (reply ≡ StoredAt (length (list_at lists shard replica))) }
{}

/// A request of orderer 0 leaves a settled moment so, with one wish more, and is taken, but where it would
/// finalise a shard that was not added.
pub fn request_waits()
    ensures { (config : Shape)
        → InRange config
        → (agreed : Agreed) (lists : ListsOf) (client : Client) (value : Value)
        → finalises_unknown config agreed.values value ≡ false
        → (before after : Moment) (reply : Reply)
        → IsSettled config agreed lists before
        → Takes config before (orderer_node config 0) (ACall (Request client value)) Done reply after
        → IsSettled config (wishing agreed value) lists after × (reply ≡ TakenWish (length agreed.values)) }
{}
