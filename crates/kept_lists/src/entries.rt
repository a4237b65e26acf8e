//! Payloads of segments.

ghost use Rattle.std.specs.Prelude.{◌≡◌, ◌↔◌, IsTrue, MatchOption};
ghost use Rattle.log_model.specs.Storage.{IsSpelled, entry_in};
ghost use Rattle.node_model.specs.Sound.{IsBefore};
ghost use Rattle.record_frame.specs.Entries.{head_of};

use record_frame::{Head, read_head};

/// How many bytes an entry has besides its record.
const HEAD_BYTES: usize = 15;

/// How many numbers a run has.
const NUMBERS: u64 = 1 << 32;

/// The head of the entry that all of the bytes spell.
fn spelled_head(payload: &[u8]) -> Option<Head>
    ensures { MatchOption result (IsSpelled payload.now → ⊥) (λ head. IsSpelled payload.now × (head ≡ head_of (entry_in payload.now))) }
{
    match read_head(payload) {
        Ok(head) => {
            if payload.len() != HEAD_BYTES + head.length as usize {
                return None;
            }
            return Some(head);
        }
        Err(_) => return None,
    }
}

/// Whether the bytes spell an entry with a number of an earlier run.
pub fn is_entry_before(run: u32, payload: &[u8]) -> bool
    ensures { IsTrue result ↔ (IsSpelled payload.now × IsBefore run (entry_in payload.now).number.0) }
{
    match spelled_head(payload) {
        Some(head) => return head.number.0 < u64::from(run) * NUMBERS,
        None => return false,
    }
}
