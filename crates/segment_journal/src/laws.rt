//! What the file of a segment recovers to, as laws.

ghost use Rattle.std.specs.Prelude.{◌≡◌, ◌≢◌, ℕ, ◌+◌, ◌<◌, ◌≤◌, List, [], ◌∷◌, ◌++◌, length, drop, None, Ok, Err};
ghost use Rattle.log_base.specs.Wide.{IsBytes};
ghost use Rattle.disk_base.specs.Images.{Torn, overwritten};
ghost use Rattle.segment_journal.specs.Journalled.{AllPayloads};
ghost use Rattle.segment_journal.specs.File.{spelled, framed, place_of, payload_behind, recovered, EndsClosed, Holds, HoldsEither};

/// What is spelled is recovered, whatever stands behind the closed gate. An open gate behind which there is no
/// whole payload is where a file is damaged. What is recovered was spelled so, and from the place of a gate on
/// stand the payloads from there on.
pub fn files_recover()
    ensures closed { (payloads : List (List ℕ)) (gate : ℕ) (rest : List ℕ) → AllPayloads payloads → gate ≢ 1 → recovered (spelled payloads ++ gate ∷ rest) ≡ Ok payloads }
    ensures short { (bytes : List ℕ) → length bytes < 6 → recovered bytes ≡ Ok [] }
    ensures broken { (payloads : List (List ℕ)) (bytes rest : List ℕ) → AllPayloads payloads → 6 ≤ length bytes → bytes ≡ spelled payloads ++ 1 ∷ rest → payload_behind rest ≡ None
        → recovered bytes ≡ Err (length (spelled payloads)) }
    ensures spelled { (bytes : List ℕ) (payloads : List (List ℕ)) → IsBytes bytes → 6 ≤ length bytes → recovered bytes ≡ Ok payloads → EndsClosed payloads bytes × AllPayloads payloads }
    ensures gates { (payloads : List (List ℕ)) (rest : List ℕ) (k : ℕ) → drop (place_of payloads k) (spelled payloads ++ rest) ≡ spelled (drop k payloads) ++ rest }
{}

/// What a crash may leave of a write behind the closed gate, and of the write that opens the gate.
pub fn gates_part_puts()
    ensures behind { (payloads : List (List ℕ)) (n : ℕ) (old new : List ℕ) → Holds payloads old → Torn (length (spelled payloads) + 1) n old new → Holds payloads new }
    ensures gate { (payloads : List (List ℕ)) (payload old new : List ℕ) → Holds payloads old → Torn (length (spelled payloads)) 1 (overwritten old (length (spelled payloads) + 1) (framed payload)) new → HoldsEither payloads payload new }
{}
