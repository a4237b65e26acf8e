//! Laws that show that the definitions mean what they should. Each function does nothing: its
//! contract is the law.

ghost use Rattle.std.specs.Prelude.{◌≡◌, ◌<◌, ◌≤◌, ◌↔◌, ℕ, true, false, List, [], ◌∷◌, ◌++◌, length};
ghost use Rattle.std.specs.List.{Contains, filter};
ghost use Rattle.log_base.specs.declared.numbers.Place.{Place};
ghost use Rattle.record_frame.specs.declared.values.Lengths.{Lengths};
ghost use Rattle.record_frame.specs.declared.values.Value.{Value};
ghost use Rattle.record_frame.specs.declared.values.Value.TheVariants.{Add, Cut, Finalise, Noop, Trim};
ghost use Rattle.log_model.specs.Places.{is_in, place_at, places_from};
ghost use Rattle.log_model.specs.Chain.{ChainState, IsChain, apply, apply_all, chain_of, covered_by, covered_of, is_added};
ghost use Rattle.log_model.specs.Spelling.{spell, spell_from};
ghost use Rattle.log_model.specs.Lookup.{place_at_position, position_of_place};

/// The places of a cut go by the order in which the shards were added, then segment, then offset.
pub fn order_of_addition()
    ensures { let cut = Cut (record { count = 4; length = 1 ∷ 1 ∷ 1 ∷ 0 ∷ [] }) in
        spell 2 (Add (record { 0 = 1 }) ∷ Add (record { 0 = 0 }) ∷ cut ∷ [])
        ≡ place_at 1 0 0 ∷ place_at 0 0 0 ∷ place_at 0 1 0 ∷ [] }
{}

/// The end of the chain is the number of places that its values spell.
pub fn end_counts_places()
    ensures { (replicas : ℕ) (values : List Value)
        → (chain_of replicas values).end ≡ length (spell replicas values) }
{}

/// Values that follow others go on from the chain that those made, and add their places at the end.
pub fn spelling_goes_on()
    ensures chain { (replicas : ℕ) (values more : List Value)
        → chain_of replicas (values ++ more) ≡ apply_all replicas (chain_of replicas values) more }
    ensures places { (replicas : ℕ) (values more : List Value)
        → spell replicas (values ++ more)
        ≡ spell replicas values ++ spell_from replicas (chain_of replicas values) more }
{}

/// No place is spelled twice.
pub fn no_place_twice()
    ensures { (replicas : ℕ) (values : List Value) (place : Place) (one other : ℕ)
        → place_at_position replicas values one ≡ Some place
        → place_at_position replicas values other ≡ Some place
        → one ≡ other }
{}

/// A place keeps its position whatever values follow.
pub fn position_stays()
    ensures { (replicas : ℕ) (values more : List Value) (place : Place) (position : ℕ)
        → place_at_position replicas values position ≡ Some place
        → place_at_position replicas (values ++ more) position ≡ Some place }
{}

/// The position of a place is the index at which it is spelled, and it has none where it is not
/// spelled.
pub fn position_is_index()
    ensures spelled { (replicas : ℕ) (values : List Value) (place : Place) (position : ℕ)
        → (position_of_place replicas values place ≡ Some position)
        ↔ (place_at_position replicas values position ≡ Some place) }
    ensures not_spelled { (replicas : ℕ) (values : List Value) (place : Place)
        → (position_of_place replicas values place ≡ None)
        ↔ (¬ Contains (spell replicas values) place) }
{}

/// A place is spelled exactly where its offset is below the covered length of its segment.
pub fn spelled_where_covered()
    ensures { (replicas : ℕ) (values : List Value) (shard segment offset : ℕ)
        → Contains (spell replicas values) (place_at shard segment offset)
        ↔ (offset < covered_of (chain_of replicas values) shard segment) }
{}

/// Of each segment as many places are spelled as its covered length, in order of offset from 0.
pub fn segment_in_order()
    ensures { (replicas : ℕ) (values : List Value) (shard segment : ℕ)
        → filter (is_in shard segment) (spell replicas values)
        ≡ places_from shard segment 0 (covered_of (chain_of replicas values) shard segment) }
{}

/// After the finalisation of a shard that is added, nothing more of it is covered.
pub fn nothing_after_finalisation()
    ensures { (replicas : ℕ) (values more : List Value) (shard segment : ℕ)
        → let final = Finalise (record { 0 = shard }) in
        is_added (chain_of replicas values) shard ≡ true
        → covered_of (chain_of replicas (values ++ final ∷ more)) shard segment
        ≡ covered_of (chain_of replicas values) shard segment }
{}

/// Values that change nothing: an addition of a shard that is there, a finalisation of one that is
/// not or is finalised already, a cut that covers nothing more, and a trim at or below the mark.
pub fn without_effect()
    ensures noop { (replicas : ℕ) (chain : ChainState) → apply replicas chain Noop ≡ chain }
    ensures addition { (replicas : ℕ) (chain : ChainState) (shard : ℕ)
        → is_added chain shard ≡ true
        → apply replicas chain (Add (record { 0 = shard })) ≡ chain }
    ensures finalisation { (replicas : ℕ) (chain : ChainState) (shard : ℕ)
        → is_added chain shard ≡ false
        → apply replicas chain (Finalise (record { 0 = shard })) ≡ chain }
    ensures finalised_already { (replicas : ℕ) (chain : ChainState) (shard : ℕ)
        → let final = Finalise (record { 0 = shard }) in
        apply replicas (apply replicas chain final) final ≡ apply replicas chain final }
    ensures cut { (replicas : ℕ) (chain : ChainState) (lengths : Lengths)
        → covered_by replicas chain (Cut lengths) ≡ []
        → apply replicas chain (Cut lengths) ≡ chain }
    ensures trim { (replicas : ℕ) (chain : ChainState) (position : ℕ)
        → position ≤ chain.mark
        → apply replicas chain (Trim (record { 0 = position })) ≡ chain }
{}

/// What values made stays under those that follow: covered lengths, the end and the mark only rise,
/// and a shard that is added stays added.
pub fn chain_only_grows()
    ensures covered { (replicas : ℕ) (values more : List Value) (shard segment : ℕ)
        → covered_of (chain_of replicas values) shard segment
        ≤ covered_of (chain_of replicas (values ++ more)) shard segment }
    ensures added { (replicas : ℕ) (values more : List Value) (shard : ℕ)
        → is_added (chain_of replicas values) shard ≡ true
        → is_added (chain_of replicas (values ++ more)) shard ≡ true }
    ensures end { (replicas : ℕ) (values more : List Value)
        → (chain_of replicas values).end ≤ (chain_of replicas (values ++ more)).end }
    ensures mark { (replicas : ℕ) (values more : List Value)
        → (chain_of replicas values).mark ≤ (chain_of replicas (values ++ more)).mark }
{}

/// The shards of a chain have numbers that differ, each has a covered length for each replica, and
/// the mark is at most the end.
pub fn well_formed()
    ensures { (replicas : ℕ) (values : List Value) → IsChain replicas (chain_of replicas values) }
{}
