//! The payloads of a file's bytes.

ghost use Rattle.std.specs.Prelude.{◌≡◌, ◌↔◌, ℕ, ◌+◌, ◌≤◌, [], ◌∷◌, ◌++◌, length, Ok, Err, IfOk, OnOk, IsTrue, IsErrOf};
ghost use Rattle.std.specs.Option.{option_copied};
ghost use Rattle.segment_journal.specs.Journalled.{AllPayloads};
ghost use Rattle.segment_journal.specs.File.{payload_behind, recovered, Holds, HasStart, EndsClosed};

use crate::format::{LONGEST, OPEN, SHORTEST};
use crate::journal::OpenFault;
use crate::payloads::Payloads;
use log_base::{Bytes, Memory, number_u32};
use std::alloc::{AllocError, Global};

/// The payload behind an open gate, where it is whole.
#[tactic(auto, unfolding(crate::specs::File::payload_behind))]
fn whole_payload(bytes: &[u8]) -> Option<&[u8]>
    ensures { option_copied result ≡ payload_behind bytes.now }
{
    if bytes.len() < 5 {
        return None;
    }
    let count = number_u32(bytes, 0) as usize;
    if count > LONGEST || bytes.len() - 5 < count {
        return None;
    }
    Some(&bytes[4..4 + count])
}

/// Whether a file is ready for the first payload: a short one begins with a zero byte.
pub fn has_start(bytes: &[u8]) -> bool
    ensures { IsTrue result ↔ HasStart bytes.now }
{
    if bytes.len() >= SHORTEST {
        return true;
    }
    match bytes {
        [] => false,
        [first, ..] => *first == 0,
    }
}

/// Puts a copy of a payload at the end.
fn add(alloc: Global, list: &mut Payloads, payload: &[u8]) -> Result<(), Memory>
    requires { length payload.now ≤ 131072 }
    ensures ok { OnOk result (list.new.list ≡ list.old.list ++ payload.now ∷ []) }
    ensures payloads { OnOk result (AllPayloads list.new.list) }
{
    if list.len() == u32::MAX {
        return Err(Memory);
    }
    list.ready()?;
    let copy = payload.to_vec(alloc)?;
    list.push(Bytes::of(copy));
    Ok(())
}

/// Adds the payloads of a file up to its closed gate.
fn take_payloads(alloc: Global, bytes: &[u8], list: &mut Payloads) -> Result<(), OpenFault>
    requires empty { list.old.list ≡ [] }
    requires long { 6 ≤ length bytes.now }
    ensures ok { OnOk result (EndsClosed list.new.list bytes.now) }
    ensures payloads { OnOk result (AllPayloads list.new.list) }
    ensures damaged { (at : ℕ) → IsErrOf result (OpenFault.Damaged at) → recovered bytes.now ≡ Err at }
    ensures read { IsErrOf result OpenFault.Failed → ⊥ }
{
    let mut at = 0;
    'gates: while bytes[at] == OPEN {
        let Some(payload) = whole_payload(&bytes[at + 1..]) else {
            return Err(OpenFault::Damaged { at: at as u64 });
        };
        match add(alloc, list, payload) {
            Ok(()) => {}
            Err(_) => return Err(OpenFault::Memory),
        }
        at += 5 + payload.len();
    }
    Ok(())
}

/// The payloads of a file, with room for one more.
pub fn read_payloads(alloc: Global, bytes: &[u8]) -> Result<Payloads, OpenFault>
    ensures ok { IfOk result (λ read. recovered bytes.now ≡ Ok read.list) }
    ensures holds { IfOk result (λ read. HasStart bytes.now → Holds read.list bytes.now) }
    ensures payloads { IfOk result (λ read. AllPayloads read.list) }
    ensures room { IfOk result (λ read. length read.list + 1 ≤ read.capacity) }
    ensures damaged { (at : ℕ) → IsErrOf result (OpenFault.Damaged at) → recovered bytes.now ≡ Err at }
    ensures read { IsErrOf result OpenFault.Failed → ⊥ }
{
    let mut list = Payloads::new(alloc);
    if bytes.len() >= SHORTEST {
        match take_payloads(alloc, bytes, &mut list) {
            Ok(()) => {}
            Err(fault) => return Err(fault),
        }
    }
    match list.ready() {
        Ok(()) => return Ok(list),
        Err(_) => return Err(OpenFault::Memory),
    }
}
