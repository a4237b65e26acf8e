//! Worked examples and small laws, which show that the definitions mean what they should. Each
//! function does nothing: its contract is the law.

ghost use Rattle.std.specs.Prelude.{◌≡◌, ◌<◌, ◌≤◌, ◌+◌, ◌*◌, ◌%◌, ℕ, List, [], ◌∷◌, length, Some, true, false};
ghost use Rattle.log_base.specs.Wide.{IsBytes};
ghost use Rattle.message_frame.specs.declared.messages.Vote.{Vote};
ghost use Rattle.record_frame.specs.declared.values.Value.{Value};
ghost use Rattle.record_frame.specs.declared.values.Value.TheVariants.{Add, Noop};
ghost use Rattle.paxos_model.specs.Acceptor.{Granted, Refused, Taken, TooLow, accept, prepare};
ghost use Rattle.paxos_model.specs.Leader.{Advanced, Leader, Propose, Pending, Nothing, Window, advance, ballot_above, leader_from, with_acceptance, with_promise};
ghost use Rattle.paxos_model.specs.Learner.{find_value, learn};
ghost use Rattle.paxos_model.specs.Majority.{count_marks, most, no_marks};
ghost use Rattle.paxos_model.specs.Payloads.{IsPayload, payload_limit, payload_of, payload_spelling};
ghost use Rattle.paxos_model.specs.Votes.{Payload, Promise, Voted, vote_of};

/// An acceptor that promised ballot 4 refuses 3, accepts in 4, and tells that vote to a later ballot.
#[tactic(auto, unfolding(crate::specs::Acceptor::prepare, crate::specs::Acceptor::accept, crate::specs::Votes::reports))]
pub fn acceptor_example()
    ensures promise { prepare [] 4 0 ≡ Granted (Some (Promise 4)) [] }
    ensures refused { accept (Promise 4 ∷ []) 3 0 Noop ≡ TooLow 4 }
    ensures accepted { accept (Promise 4 ∷ []) 4 0 Noop ≡ Taken (Some (Voted (vote_of 4 0 Noop))) }
    ensures again { accept (Promise 4 ∷ Voted (vote_of 4 0 Noop) ∷ []) 4 0 Noop ≡ Taken None }
    ensures reported { prepare (Promise 4 ∷ Voted (vote_of 4 0 Noop) ∷ []) 5 0
        ≡ Granted (Some (Promise 5)) (vote_of 4 0 Noop ∷ []) }
    ensures refused_promise { prepare (Promise 4 ∷ []) 3 0 ≡ Refused 4 }
{}

/// Of three orderers two have promised ballot 6, one with a vote for slot 0: the leader proposes that
/// vote's value and not its own wish.
#[tactic(auto, unfolding(crate::specs::Leader::advance, crate::specs::Leader::merge, crate::specs::Leader::no_votes, crate::specs::Majority::is_majority, crate::specs::Majority::no_marks))]
pub fn reported_vote_wins()
    ensures waits { let first = with_promise (leader_from 6 0) 0 [] in
        (advance 3 first 0 (Some (Add (record { 0 = 0 })))).next ≡ Nothing }
    ensures proposes { let first = with_promise (leader_from 6 0) 0 [] in
        let second = with_promise first 1 (vote_of 4 0 (Add (record { 0 = 1 })) ∷ []) in
        (advance 3 second 0 (Some (Add (record { 0 = 0 })))).next ≡ Propose 0 (Add (record { 0 = 1 })) }
{}

/// A slot without votes is filled with a noop where a later slot of the window has one, and takes the
/// wish where none has.
#[tactic(auto, unfolding(crate::specs::Leader::advance, crate::specs::Leader::merge, crate::specs::Leader::no_votes, crate::specs::Majority::is_majority, crate::specs::Majority::no_marks))]
pub fn gap_is_filled()
    ensures filled { let leader = with_promise (leader_from 6 0) 0 (vote_of 4 1 (Add (record { 0 = 1 })) ∷ []) in
        (advance 1 leader 0 (Some (Add (record { 0 = 0 })))).next ≡ Propose 0 Noop }
    ensures free { let leader = with_promise (leader_from 6 0) 0 [] in
        (advance 1 leader 0 (Some (Add (record { 0 = 0 })))).next ≡ Propose 0 (Add (record { 0 = 0 })) }
    ensures next_window { let leader = with_promise (leader_from 6 0) 0 [] in
        (advance 1 leader 64 None).next ≡ Window 64 }
{}

/// An orderer that accepts twice counts once.
#[tactic(auto, unfolding(crate::specs::Majority::is_majority, crate::specs::Majority::no_marks))]
pub fn acceptances_are_counted()
    ensures { let pending : Pending = record { slot = 0; value = Noop; accepted = no_marks } in
        let once = with_acceptance pending 0 in
        let twice = with_acceptance once 0 in
        (count_marks 3 once.accepted ≡ 1) × (count_marks 3 twice.accepted ≡ 1)
        × (most 3 twice.accepted ≡ false) × (most 3 (with_acceptance twice 2).accepted ≡ true) }
{}

/// A learner takes the value of its next slot alone.
#[tactic(auto, unfolding(crate::specs::Learner::learn))]
pub fn slots_in_order()
    ensures next { learn (Noop ∷ []) 1 (Add (record { 0 = 0 })) ≡ Noop ∷ Add (record { 0 = 0 }) ∷ [] }
    ensures gap { learn (Noop ∷ []) 3 Noop ≡ Noop ∷ [] }
    ensures found { find_value (Noop ∷ Add (record { 0 = 0 }) ∷ []) (Add (record { 0 = 0 })) 0 ≡ Some 1 }
    ensures not_found { find_value (Noop ∷ []) Noop 1 ≡ None }
{}

/// A new ballot is the orderer's own, lies above the number, and no lower one does both.
pub fn ballots_are_apart()
    ensures own { (orderers orderer number : ℕ) → orderer < orderers → ballot_above orderers orderer number % orderers ≡ orderer }
    ensures above { (orderers orderer number : ℕ) → orderer < orderers → number < ballot_above orderers orderer number }
    ensures least { (orderers orderer number round : ℕ)
        → orderer < orderers → 1 ≤ round → number < round * orderers + orderer
        → ballot_above orderers orderer number ≤ round * orderers + orderer }
{}

/// The bytes of a list's payloads: what is spelled is read, and what is read is spelled so and in range.
pub fn payloads_are_spelled()
    ensures spelled { (payload : Payload) → IsPayload payload → payload_of (payload_spelling payload) ≡ Some payload }
    ensures read { (bytes : List ℕ) (payload : Payload) → IsBytes bytes → payload_of bytes ≡ Some payload
        → IsPayload payload × (payload_spelling payload ≡ bytes) }
    ensures short { (payload : Payload) → IsPayload payload → length (payload_spelling payload) ≤ payload_limit }
{}
