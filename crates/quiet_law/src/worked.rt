//! A quiet run that is worked by hand. The function does nothing: its contract is the law.

ghost use Rattle.std.specs.Prelude.{◌≡◌, [], ◌∷◌};
ghost use Rattle.reply_frame.specs.declared.replies.Reply.{At, Found, Settled};
ghost use Rattle.plain_log.specs.Log.{log_of};
ghost use Rattle.schedule_model.specs.Driven.{replies_of};
ghost use Rattle.quiet_law.specs.Quiet.{IsQuietRun};
ghost use Rattle.quiet_law.specs.Worked.{entry, one_of_each, worked_items, worked_run};

/// There are quiet runs: this one adds a shard, appends a record and reads it, in a cluster of one node of each
/// role.
pub fn worked_run_is_quiet()
    ensures quiet { IsQuietRun one_of_each 1 worked_items worked_run }
    ensures replies { replies_of one_of_each 1 worked_items worked_run
        ≡ Settled (record { 0 = 0 }) ∷ At (record { 0 = 0 }) ∷ Found (record { 0 = 0 }) entry ∷ [] }
    ensures log { log_of one_of_each 1 worked_items
        ≡ Settled (record { 0 = 0 }) ∷ At (record { 0 = 0 }) ∷ Found (record { 0 = 0 }) entry ∷ [] }
{}
