//! Laws that show that the definitions mean what they should. Each function does nothing: its contract
//! is the law.

ghost use Rattle.std.specs.Prelude.{◌≡◌, ℕ, List, length, Option};
ghost use Rattle.record_frame.specs.declared.values.Value.{Value};
ghost use Rattle.paxos_model.specs.Leader.{Leader, advance, without_slot};
ghost use Rattle.paxos_model.specs.Learner.{learn};
ghost use Rattle.paxos_leader.specs.Leading.{IsAtNext, without_below};

/// Where a proposal that waits is one of the next slot to learn, the proposals below the number of known
/// values are dropped exactly as learning a slot's value drops them.
pub fn passing_is_learning()
    ensures { (leader : Leader) (known : List Value) (slot : ℕ) (value : Value)
        → IsAtNext leader (length known)
        → without_below (length (learn known slot value)) leader ≡ without_slot leader slot }
{}

/// A proposal that waits is one of the next slot to learn: what comes next keeps it so, and so does
/// learning.
pub fn proposed_slot_is_next()
    ensures next { (orderers known : ℕ) (leader : Leader) (wish : Option Value)
        → IsAtNext leader known → IsAtNext (advance orderers leader known wish).leader known }
    ensures learned { (leader : Leader) (known : List Value) (slot : ℕ) (value : Value)
        → IsAtNext leader (length known) → IsAtNext (without_slot leader slot) (length (learn known slot value)) }
{}
