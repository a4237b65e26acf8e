//! An example of a safe history. The function does nothing: its contract is the example.

ghost use Rattle.std.specs.Prelude.{◌≡◌, ℕ, ◌+◌, ◌^◌, List, [], ◌∷◌, Some};
ghost use Rattle.reply_frame.specs.declared.replies.Reply.{Found};
ghost use Rattle.history_frame.specs.declared.events.Event.{Event};
ghost use Rattle.node_model.specs.Durable.{IsFounded};
ghost use Rattle.node_model.specs.Legal.{IsLegal};
ghost use Rattle.node_model.specs.OneAppend.{added, cut, one_of_each, record_a};
ghost use Rattle.node_model.specs.Sequence.{decided_by, sequence};
ghost use Rattle.agreement_law.specs.Elements.{In, IsPrefix};
ghost use Rattle.sequence_law.specs.Answers.{IsAcknowledged, IsRefused, reads};
ghost use Rattle.sequence_law.specs.OneRefusal.{final, kept_after, one_refusal};

/// A legal history with founded kept lists, so that the laws speak of something: a record is stored and
/// covered by a cut, a second one is stored, and the shard is finalised before a cut covers it. One who
/// asks for the first is told its position, one who asks for the second that it is finalised, a third is
/// refused, and the first is read.
pub fn one_refusal_is_legal()
    ensures founded { IsFounded one_of_each 1 (λ disk. []) }
    ensures legal { IsLegal one_of_each 1 (λ disk. []) one_refusal }
    ensures decided { decided_by one_of_each (λ disk. []) one_refusal ≡ added ∷ cut ∷ final ∷ [] }
    ensures sequence { sequence one_of_each (λ disk. []) one_refusal ≡ Some record_a ∷ [] }
    ensures acknowledged { (event : Event) × In event one_refusal × IsAcknowledged 7 (2 ^ 32) 0 event }
    ensures refused { (event : Event) × In event one_refusal × IsRefused 8 (2 ^ 32) event }
    ensures not_stored { (event : Event) × In event one_refusal × IsRefused 8 (2 ^ 32 + 1) event }
    ensures found { (event : Event) × In event one_refusal × (event.happened.input ≡ reads 8 0)
        × (event.happened.reply ≡ Found (record { 0 = 0 }) record_a) }
{}

/// What the disks keep of it are founded lists of a second run, whose sequence begins with that record.
pub fn second_run_begins()
    ensures founded { IsFounded one_of_each 2 kept_after }
    ensures sequence { IsPrefix (Some record_a ∷ []) (sequence one_of_each kept_after []) }
{}
