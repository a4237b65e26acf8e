//! How long two texts are the same.

ghost use Rattle.std.specs.Prelude.{◌≡◌, ◌≤◌, length};
ghost use Rattle.fault_script.specs.Longest.{shared};

/// How many bytes two texts share at their fronts.
pub(crate) fn shared_length(text: &[u8], other: &[u8]) -> usize
    ensures count { result ≡ shared text.now other.now }
    ensures within_text { result ≤ length text.now }
    ensures within_other { result ≤ length other.now }
{
    let mut count = 0;
    'bytes: while count < text.len() && count < other.len() && text[count] == other[count] {
        count += 1;
    }
    count
}
