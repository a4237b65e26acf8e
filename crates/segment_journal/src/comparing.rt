//! What was read anew beside what stood before.

ghost use Rattle.std.specs.Prelude.{◌≡◌, ◌≢◌, ◌<◌, ◌≤◌, ◌↔◌, IsTrue, IsSome, IfErr, IfOk, length, take, slice_get};
ghost use Rattle.std.specs.Option.{option_copied};
ghost use Rattle.segment_journal.specs.Journalled.{installed_list};
ghost use Rattle.segment_journal.specs.Comparing.{IsDifferent};

use crate::journal::Installed;
use crate::payloads::Payloads;
use log_base::Bytes;

/// Whether two payloads are the same.
fn is_same(payload: &[u8], other: &[u8]) -> bool
    ensures { IsTrue result ↔ (payload.now ≡ other.now) }
{
    payload == other
}

/// How many payloads at the front of a list are those of another.
fn agreeing(read: &Payloads, kept: &Payloads) -> u32
    ensures read { result ≤ length read.now.list }
    ensures kept { result ≤ length kept.now.list }
    ensures same { take result read.now.list ≡ take result kept.now.list }
    ensures differs { result < length read.now.list → result < length kept.now.list → slice_get read.now.list result ≢ slice_get kept.now.list result }
{
    let most = read.len().min(kept.len());
    let mut same = 0;
    'payloads: while same < most && is_same(read.get(same), kept.get(same)) {
        same += 1;
    }
    same
}

/// Which list was read: the one that stood before, or that with the payload in flight. Else the place of the
/// first payload that differs, or of the closed gate.
pub fn compare(read: &Payloads, kept: &Payloads, flight: Option<&Bytes>) -> Result<Installed, u64>
    ensures ok { IfOk result (λ came. read.now.list ≡ installed_list kept.now.list (option_copied flight.entry) came) }
    ensures came { IfOk result (λ came. came ≢ Installed.Failed) }
    ensures flight { IfOk result (λ came. came ≡ Installed.OneMore → IsSome (option_copied flight.entry)) }
    ensures err { IfErr result (λ at. IsDifferent read.now.list kept.now.list (option_copied flight.entry) at) }
{
    let same = agreeing(read, kept);
    if same < kept.len() {
        return Err(read.place(same));
    }
    if same == read.len() {
        return Ok(Installed::Same);
    }
    let Some(flight) = flight else {
        return Err(read.place(same));
    };
    if !is_same(read.get(same), flight.get()) {
        return Err(read.place(same));
    }
    if same + 1 < read.len() {
        return Err(read.place(same + 1));
    }
    Ok(Installed::OneMore)
}
