//! Which calls of a fake in memory fail.

ghost use Rattle.std.specs.Prelude.{◌≡◌, ◌==◌};
ghost use Rattle.std.specs.List.{list_any};

/// Whether a call's number is listed.
pub fn is_listed(calls: &[u32], call: u64) -> bool
    ensures { result ≡ list_any (λ number. number == call) calls.now }
{
    calls.iter().any(|number| u64::from(*number) == call)
}
