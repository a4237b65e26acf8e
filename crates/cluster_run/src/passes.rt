//! The passes of lanes and workers.

ghost use Rattle.std.specs.Prelude.{◌≡◌, ◌+◌, ◌≤◌, ◌++◌, [], ◌∷◌, drop, length, map, take, vec_capacity, vec_len};
ghost use Rattle.cluster_run.specs.Numbers.{numbered_from};

/// The first so many, each behind its number, and the others, which stay in order.
pub(crate) fn split<T: Drop>(
    all: Vec<T>,
    count: u8,
    mut first: Vec<(u8, T)>,
    mut others: Vec<T>,
) -> (Vec<(u8, T)>, Vec<T>)
    requires some { count ≤ length all.items }
    requires empty { (first.items ≡ []) × (others.items ≡ []) }
    requires room { (count ≤ vec_capacity first) × (vec_len all ≤ count + vec_capacity others) }
    ensures first { result.0.items ≡ numbered_from 0 (take count all.items) }
    ensures others { result.1.items ≡ drop count all.items }
{
    let mut number = 0u8;
    for one in all {
        if number < count {
            first.push_reserved((number, one));
            number += 1;
        } else {
            others.push_reserved(one);
        }
    }
    (first, others)
}

/// Moves those that stand behind numbers to the end of a list that has room for them.
pub(crate) fn join_numbered<T: Drop>(mut all: Vec<T>, first: Vec<(u8, T)>) -> Vec<T>
    requires room { vec_len all + vec_len first ≤ vec_capacity all }
    ensures items { result.items ≡ all.items ++ map (λ one. one.1) first.items }
    ensures len { vec_len result ≡ vec_len all + vec_len first }
    ensures capacity { vec_capacity all ≤ vec_capacity result }
{
    for one in first {
        all.push_reserved(one.1);
    }
    all
}

/// Moves those of a list to the end of another that has room for them.
pub(crate) fn join<T: Drop>(mut all: Vec<T>, others: Vec<T>) -> Vec<T>
    requires room { vec_len all + vec_len others ≤ vec_capacity all }
    ensures items { result.items ≡ all.items ++ others.items }
    ensures len { vec_len result ≡ vec_len all + vec_len others }
    ensures capacity { vec_capacity all ≤ vec_capacity result }
{
    let mut others = others;
    let _ = all.append(&mut others);
    all
}

/// With one more at its end.
pub(crate) fn join_last<T: Drop>(mut all: Vec<T>, last: T) -> Vec<T>
    requires room { vec_len all + 1 ≤ vec_capacity all }
    ensures { result.items ≡ all.items ++ last ∷ [] }
{
    all.push_reserved(last);
    all
}
