//! Examples of the rule of a replica: replica 1 of the two of shard 1. Each function does
//! nothing: its contract is the examples.

ghost use Rattle.std.specs.Prelude.{◌≡◌, ℕ, List, [], ◌∷◌, ◌++◌, Some, None};
ghost use Rattle.log_model.specs.Storage.{Member};
ghost use Rattle.log_model.specs.Submitting.{Submission, submit, nothing_put, Stored, Stale as StaleEntry, NotAdded, Finalised};
ghost use Rattle.log_model.specs.Asking.{ask, At, Pending, FinalisedAt, Stale, Missing};
ghost use Rattle.log_model.specs.Reading.{read, Found, Trimmed, Pending as PendingRead, Elsewhere};
ghost use Rattle.shard_replica.specs.Rows.{member, entry, add, finalise, trim, cut, by};

/// The entry of client 3 and number 5 is put where its shard is added and not finalised. Once it is
/// stored it is told so, whatever became of the shard, and once it is trimmed its number is stale.
#[tactic(auto, unfolding(log_model::specs::Submitting::submit, log_model::specs::Pairs::held))]
pub fn an_entry_is_submitted()
    ensures not_added { submit member [] (by (add 0 ∷ [])) (entry 3 5) ≡ nothing_put NotAdded }
    ensures put { submit member (entry 4 5 ∷ []) (by (add 1 ∷ [])) (entry 3 5) ≡ record { answer = Stored 1; put = Some (entry 3 5) } }
    ensures finalised { submit member [] (by (add 1 ∷ finalise 1 ∷ [])) (entry 3 5) ≡ nothing_put Finalised }
    ensures stored { submit member (entry 3 5 ∷ []) (by (add 1 ∷ finalise 1 ∷ [])) (entry 3 5) ≡ nothing_put (Stored 0) }
    ensures twice { submit member (entry 3 5 ∷ entry 3 5 ∷ entry 3 6 ∷ []) (by (add 1 ∷ [])) (entry 3 5) ≡ nothing_put (Stored 1) }
    ensures stale { submit member (entry 3 6 ∷ []) (by []) (entry 3 5) ≡ nothing_put (StaleEntry 6) }
    ensures trimmed { submit member (entry 3 5 ∷ []) (by (add 1 ∷ cut 0 0 0 1 ∷ trim 1 ∷ [])) (entry 3 5) ≡ nothing_put (StaleEntry 5) }
{}

/// A stored pair has the position of its place once a cut covers it.
#[tactic(auto, unfolding(log_model::specs::Asking::ask, log_model::specs::Pairs::held))]
pub fn a_pair_is_asked()
    ensures missing { ask member (entry 3 5 ∷ []) (by []) 3 6 ≡ Missing }
    ensures another { ask member (entry 3 5 ∷ []) (by []) 4 5 ≡ Missing }
    ensures stale { ask member (entry 3 5 ∷ []) (by []) 3 4 ≡ Stale 5 }
    ensures pending { ask member (entry 3 5 ∷ []) (by (add 1 ∷ [])) 3 5 ≡ Pending 0 }
    ensures at { ask member (entry 4 5 ∷ entry 3 5 ∷ []) (by (add 1 ∷ add 0 ∷ cut 1 0 1 2 ∷ [])) 3 5 ≡ At 2 }
    ensures frozen { ask member (entry 4 5 ∷ entry 3 5 ∷ []) (by (add 1 ∷ cut 0 0 0 1 ∷ finalise 1 ∷ cut 0 0 0 2 ∷ [])) 3 5 ≡ FinalisedAt 1 }
    ensures trimmed { ask member (entry 3 5 ∷ []) (by (add 1 ∷ cut 0 0 0 1 ∷ trim 1 ∷ [])) 3 5 ≡ Stale 5 }
{}

/// A position has its entry once a cut covers it, where it is in this shard and not given up.
#[tactic(auto, unfolding(log_model::specs::Reading::read))]
pub fn a_position_is_read()
    ensures pending { read member ([] ∷ (entry 3 5 ∷ []) ∷ []) (by (add 1 ∷ [])) 0 ≡ PendingRead 0 }
    ensures found { read member ((entry 4 7 ∷ []) ∷ (entry 3 5 ∷ []) ∷ []) (by (add 1 ∷ cut 0 0 1 1 ∷ [])) 1 ≡ Found (entry 3 5) }
    ensures copied { read member ((entry 4 7 ∷ []) ∷ (entry 3 5 ∷ []) ∷ []) (by (add 1 ∷ cut 0 0 1 1 ∷ [])) 0 ≡ Found (entry 4 7) }
    ensures elsewhere { read member ([] ∷ [] ∷ []) (by (add 1 ∷ add 0 ∷ cut 1 0 0 0 ∷ [])) 0 ≡ Elsewhere 0 }
    ensures trimmed { read member ([] ∷ [] ∷ []) (by (add 0 ∷ cut 1 1 0 0 ∷ trim 1 ∷ [])) 0 ≡ Trimmed 1 }
    ensures past_the_end { read member ([] ∷ [] ∷ []) (by (add 0 ∷ cut 1 1 0 0 ∷ trim 1 ∷ [])) 2 ≡ PendingRead 2 }
{}
