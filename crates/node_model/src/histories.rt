//! An example of a legal history, and laws of histories. Each function does nothing: its contract is the
//! example or the law.

ghost use Rattle.std.specs.Prelude.{◌≡◌, ℕ, List, [], ◌∷◌, ◌++◌, replicate, Some, None};
ghost use Rattle.history_frame.specs.declared.events.Event.{Event};
ghost use Rattle.history_frame.specs.declared.events.Kept.{Kept};
ghost use Rattle.history_frame.specs.declared.inputs.Input.TheVariants.{Deliver};
ghost use Rattle.log_base.specs.ClusterShape.{Shape};
ghost use Rattle.log_base.specs.Machines.{Letter};
ghost use Rattle.message_frame.specs.declared.messages.Message.{Message};
ghost use Rattle.message_frame.specs.Spelling.{IsMessage, message_spelling};
ghost use Rattle.record_frame.specs.declared.values.Value.TheVariants.{Cut};
ghost use Rattle.paxos_model.specs.Payloads.{payload_spelling};
ghost use Rattle.paxos_model.specs.Votes.{Voted, vote_of};
ghost use Rattle.node_model.specs.Breaking.{first_break};
ghost use Rattle.node_model.specs.Legal.{IsLegal};
ghost use Rattle.node_model.specs.Machine.{delivery};
ghost use Rattle.node_model.specs.NodeState.{KeptLists, orderers_kept};
ghost use Rattle.node_model.specs.OneAppend.{added, cut, one_append, one_of_each, record_a};
ghost use Rattle.node_model.specs.OrdererLegal.{IsOrdererLegal};
ghost use Rattle.node_model.specs.Sequence.{HasSeen, decided_by, sequence};
ghost use Rattle.node_model.specs.Sound.{BreaksFirst, IsSound, IsSoundOne, payloads_on};

/// A legal history of one append: the shard is added, the record is stored, reported, and covered by a cut
/// that is decided. So the record is the sequence, and its client has seen where it stands.
pub fn one_append_is_legal()
    ensures legal { IsLegal one_of_each 1 (λ disk. []) one_append }
    ensures decided { decided_by one_of_each (λ disk. []) one_append ≡ added ∷ cut ∷ [] }
    ensures sequence { sequence one_of_each (λ disk. []) one_append ≡ Some record_a ∷ [] }
    ensures seen { HasSeen one_append 7 0 }
{}

/// A legal history is so up to each of its moments, and it is legal at its orderers.
pub fn legal_in_parts()
    ensures front { (config : Shape) (run : ℕ) (kept : KeptLists) (events more : List Event)
        → IsLegal config run kept (events ++ more) → IsLegal config run kept events }
    ensures orderers { (config : Shape) (run : ℕ) (kept : KeptLists) (events : List Event)
        → IsLegal config run kept events → IsOrdererLegal config (orderers_kept config kept) events }
{}

/// Kept lists are sound exactly where none of their payloads breaks soundness.
pub fn sound_one_by_one()
    ensures each { (config : Shape) (run : ℕ) (kept : List Kept) → IsSound config run (payloads_on kept) → (index : ℕ) → IsSoundOne config run kept index }
    ensures all { (config : Shape) (run : ℕ) (kept : List Kept) → ((index : ℕ) → IsSoundOne config run kept index) → IsSound config run (payloads_on kept) }
{}

/// The first payload that breaks soundness is found by testing one after another. There is none exactly
/// where the lists are sound.
pub fn first_break_is_found()
    ensures none { (config : Shape) (run : ℕ) (kept : List Kept) → first_break config run kept ≡ None → IsSound config run (payloads_on kept) }
    ensures sound { (config : Shape) (run : ℕ) (kept : List Kept) → IsSound config run (payloads_on kept) → first_break config run kept ≡ None }
    ensures found { (config : Shape) (run : ℕ) (kept : List Kept) (index : ℕ) → first_break config run kept ≡ Some index → BreaksFirst config run kept index }
    ensures first { (config : Shape) (run : ℕ) (kept : List Kept) (index : ℕ) → BreaksFirst config run kept index → first_break config run kept ≡ Some index }
{}

/// Empty lists are sound. A vote for a cut that no list covers breaks soundness.
pub fn vote_past_the_lists()
    ensures empty { (config : Shape) (run : ℕ) → IsSound config run (λ disk. []) }
    ensures vote { let vote = Voted (vote_of 1 0 (Cut (record { count = 1; length = 5 ∷ replicate 31 0 }))) in
        BreaksFirst one_of_each 1 (record { disk = 16; payload = payload_spelling vote } ∷ []) 0 }
{}

/// An input delivers a letter exactly where its message has a spelling, which is the letter's bytes.
pub fn letters_spell_messages()
    ensures delivered { (place index : ℕ) (message : Message) (letter : Letter) → delivery (Deliver place index (Some message)) ≡ Some letter
        → IsMessage message × ((place, (index, message_spelling message)) ≡ letter) }
    ensures delivers { (place index : ℕ) (message : Message) → IsMessage message
        → delivery (Deliver place index (Some message)) ≡ Some (place, (index, message_spelling message)) }
{}
