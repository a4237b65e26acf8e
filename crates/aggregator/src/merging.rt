//! Lengths of segments, merged segment by segment.

ghost use Rattle.std.specs.Prelude.{◌≡◌};
ghost use Rattle.aggregator.specs.Hearing.{greater_of, least_of_all, least_with, lesser_of};

use record_frame::Lengths;

/// The greater length of each segment.
pub fn greater(first: &Lengths, second: &Lengths) -> Lengths
    ensures { result ≡ record { count = first.now.count; length = greater_of first.now.length second.now.length } }
{
    let mut length = first.length;
    for segment in 0..32 {
        length[segment] = length[segment].max(second.length[segment]);
    }
    Lengths {
        count: first.count,
        length,
    }
}

/// The lesser length of each segment.
pub fn lesser(first: &Lengths, second: &Lengths) -> Lengths
    ensures { result ≡ record { count = first.now.count; length = lesser_of first.now.length second.now.length } }
{
    let mut length = first.length;
    for segment in 0..32 {
        length[segment] = length[segment].min(second.length[segment]);
    }
    Lengths {
        count: first.count,
        length,
    }
}

/// The least of some lengths and of those that further replicas said, if each said some.
fn least_of_rest(first: Lengths, cells: &[Option<Lengths>]) -> Option<Lengths>
    ensures { result ≡ least_with first cells.now }
{
    let mut least = first;
    for cell in cells {
        match cell {
            Some(next) => least = lesser(&least, next),
            None => return None,
        }
    }
    Some(least)
}

/// The least of what some replicas said, if each said something.
pub fn least_among(cells: &[Option<Lengths>]) -> Option<Lengths>
    ensures { result ≡ least_of_all cells.now }
{
    match cells.split_first() {
        Some((Some(first), rest)) => least_of_rest(*first, rest),
        _ => None,
    }
}
