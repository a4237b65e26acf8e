//! Numbers in words.

ghost use Rattle.std.specs.Prelude.{◌≡◌, ◌≢◌, ℕ, ◌^◌, ◌<◌, ◌≤◌, MatchOption};
ghost use Rattle.std.specs.Fmt.{decimal};

/// The most digits of a number.
const MOST_DIGITS: usize = 10;

/// The number that a word is: 1 to 10 decimal digits with no leading zero.
pub(crate) fn read_number(word: &str) -> Option<u64>
    ensures { MatchOption result
        ((number : ℕ) → number < 10 ^ 10 → word.now ≢ decimal number)
        (λ number. (number < 10 ^ 10) × (word.now ≡ decimal number)) }
{
    let digits = word.as_bytes();
    if digits.is_empty() || digits.len() > MOST_DIGITS || digits[0] == b'+' {
        return None;
    }
    if digits[0] == b'0' && digits.len() > 1 {
        return None;
    }
    match word.parse::<u64>() {
        Ok(number) => return Some(number),
        Err(_) => return None,
    }
}

/// The number that a word is, where it is in a range.
pub(crate) fn read_within(word: &str, least: u32, most: u32) -> Option<u32>
    ensures { MatchOption result
        ((number : ℕ) → least ≤ number → number ≤ most → word.now ≢ decimal number)
        (λ number. (least ≤ number) × (number ≤ most) × (word.now ≡ decimal number)) }
{
    match read_number(word) {
        Some(number) => return within(number, least, most),
        None => return None,
    }
}

/// A number, where it is in a range.
pub(crate) fn within(number: u64, least: u32, most: u32) -> Option<u32>
    ensures { MatchOption result
        (least ≤ number → number ≤ most → ⊥)
        (λ same. (same ≡ number) × (least ≤ number) × (number ≤ most)) }
{
    if number < u64::from(least) || number > u64::from(most) {
        return None;
    }
    Some(number as u32)
}
