//! Lanes and workers on their way, and the room for what they leave.

ghost use Rattle.std.specs.Prelude.{◌≡◌, ◌≢◌, ◌+◌, ◌<◌, ◌≤◌, ◌++◌, [], ◌∷◌, map, All, Some, None, IfOk, vec_len, vec_capacity};
ghost use Rattle.node_threads.specs.Runs.{fresh_lane, fresh_worker};

use log_base::Memory;
use std::alloc::Global;

/// A lane or a worker: what it is known by, its token and, once it has run, its answer.
#[derive(Drop)]
pub(crate) struct Slot<K, T, A> {
    pub(crate) key: K,
    pub(crate) token: T,
    pub(crate) answer: Option<A>,
}

/// The room for a list of runs and for what they leave.
#[derive(Drop)]
pub(crate) struct Room<K, T, A> {
    pub(crate) slots: Vec<Slot<K, T, A>>,
    pub(crate) tokens: Vec<T>,
    pub(crate) answers: Vec<A>,
}

/// Room for so many runs.
pub(crate) fn room_for<K: Drop, T: Drop, A: Drop>(
    alloc: Global,
    count: usize,
) -> Result<Room<K, T, A>, Memory>
    ensures empty { IfOk result (λ r. (r.slots.items ≡ []) × (r.tokens.items ≡ []) × (r.answers.items ≡ [])) }
    ensures room { IfOk result (λ r. (count ≤ vec_capacity r.slots) × (count ≤ vec_capacity r.tokens) × (count ≤ vec_capacity r.answers)) }
{
    Ok(Room {
        slots: Vec::with_capacity(alloc, count)?,
        tokens: Vec::with_capacity(alloc, count)?,
        answers: Vec::with_capacity(alloc, count)?,
    })
}

/// The lanes before they run, in order.
pub(crate) fn lane_slots<T: Drop, A: Drop>(
    lanes: Vec<(u8, T)>,
    mut slots: Vec<Slot<u8, T, A>>,
) -> Vec<Slot<u8, T, A>>
    requires empty { slots.items ≡ [] }
    requires room { vec_len lanes ≤ vec_capacity slots }
    ensures { result.items ≡ map fresh_lane lanes.items }
{
    for lane in lanes {
        slots.push_reserved(Slot {
            key: lane.0,
            token: lane.1,
            answer: None,
        });
    }
    slots
}

/// The workers before they run, in order.
pub(crate) fn worker_slots<T: Drop, A: Drop>(
    workers: Vec<T>,
    mut slots: Vec<Slot<(), T, A>>,
) -> Vec<Slot<(), T, A>>
    requires empty { slots.items ≡ [] }
    requires room { vec_len workers ≤ vec_capacity slots }
    ensures { result.items ≡ map fresh_worker workers.items }
{
    for token in workers {
        slots.push_reserved(Slot {
            key: (),
            token,
            answer: None,
        });
    }
    slots
}

/// Puts what a run left behind what the runs before it left.
fn put<K: Drop, T: Drop, A: Drop>(slot: Slot<K, T, A>, tokens: &mut Vec<T>, answers: &mut Vec<A>)
    requires ended { slot.answer ≢ None }
    requires room { (vec_len tokens.old < vec_capacity tokens.old) × (vec_len answers.old < vec_capacity answers.old) }
    ensures tokens { tokens.new.items ≡ tokens.old.items ++ slot.token ∷ [] }
    ensures answers { map Some answers.new.items ≡ map Some answers.old.items ++ slot.answer ∷ [] }
    ensures len { (vec_len tokens.new ≡ vec_len tokens.old + 1) × (vec_len answers.new ≡ vec_len answers.old + 1) }
    ensures capacity { (vec_capacity tokens.new ≡ vec_capacity tokens.old) × (vec_capacity answers.new ≡ vec_capacity answers.old) }
{
    let Slot {
        key: _,
        token,
        answer,
    } = slot;
    tokens.push_reserved(token);
    match answer {
        Some(answer) => answers.push_reserved(answer),
        None => unreachable!(),
    }
}

/// The tokens and the answers of runs that have ended, in order.
pub(crate) fn gather<K: Drop, T: Drop, A: Drop>(
    slots: Vec<Slot<K, T, A>>,
    mut tokens: Vec<T>,
    mut answers: Vec<A>,
) -> (Vec<T>, Vec<A>)
    requires ended { All (λ s. s.answer ≢ None) slots.items }
    requires empty { (tokens.items ≡ []) × (answers.items ≡ []) }
    requires room { (vec_len slots ≤ vec_capacity tokens) × (vec_len slots ≤ vec_capacity answers) }
    ensures tokens { result.0.items ≡ map (λ s. s.token) slots.items }
    ensures answers { map Some result.1.items ≡ map (λ s. s.answer) slots.items }
{
    for slot in slots {
        put(slot, &mut tokens, &mut answers);
    }
    (tokens, answers)
}
