//! A law of the definitions. The function does nothing: its contract is the law.

ghost use Rattle.std.specs.Prelude.{◌≡◌, [], ◌∷◌, ◌++◌};
ghost use Rattle.segment_journal.specs.Journalled.{Journalled, with_payload};
ghost use Rattle.paxos_model.specs.Payloads.{IsPayload, payload_spelling};
ghost use Rattle.paxos_model.specs.Votes.{Payload};
ghost use Rattle.paxos_acceptor.specs.Listed.{list_of};

/// A promise or vote that was put stands at the end of the list.
pub fn payloads_are_listed()
    ensures { (journal : Journalled) (payload : Payload) → IsPayload payload
        → list_of (with_payload journal (payload_spelling payload)) ≡ list_of journal ++ payload ∷ [] }
{}
