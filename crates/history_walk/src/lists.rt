//! The journals of a cluster, over what its disks kept.

ghost use Rattle.std.specs.Prelude.{◌≡◌, ◌≢◌, ℕ, ◌+◌, ◌*◌, ◌<◌, ◌≤◌, List, [], ◌∷◌, ◌++◌, length, take, Some, IfOk, OnOk, slice_get};
ghost use Rattle.history_frame.specs.declared.events.Kept.{Kept};
ghost use Rattle.node_model.specs.Sound.{payloads_on};
ghost use Rattle.segment_journal.specs.Journalled.{loaded};
ghost use Rattle.history_walk.specs.Beginning.{AreLists};
ghost use Rattle.history_walk.specs.InMemory.{InMemory};
ghost use Rattle.history_walk.specs.Keeping.{AreShort};

use crate::memory_journal::MemoryJournal;
use history_frame::Kept;
use log_base::{Memory, NodeId};
use node_table::disk;
use std::alloc::Global;
use std::mem;

/// A journal for each of so many disks, with what it kept.
pub(crate) fn lists_of(
    alloc: Global,
    count: u16,
    kept: Vec<Kept>,
) -> Result<Vec<MemoryJournal>, Memory>
    requires { AreShort count kept.items }
    ensures { IfOk result (λ journals. AreLists journals.items (payloads_on kept.items) 0 count) }
{
    let mut journals = empty_lists(alloc, count)?;
    for one in kept {
        keep(&mut journals, one)?;
    }
    Ok(journals)
}

// So many empty journals.
fn empty_lists(alloc: Global, count: u16) -> Result<Vec<MemoryJournal>, Memory>
    ensures { IfOk result (λ journals. AreLists journals.items (λ disk. []) 0 count) }
{
    let mut journals = Vec::new(alloc);
    for _ in 0..count {
        journals.push(MemoryJournal::new(alloc))?;
    }
    Ok(journals)
}

// Adds a payload to the list of its disk.
fn keep(journals: &mut Vec<MemoryJournal>, one: Kept) -> Result<(), Memory>
    requires within { one.disk < length journals.old.items }
    requires unused { (memory : InMemory) → slice_get journals.old.items one.disk ≡ Some memory → memory.journal ≡ loaded memory.journal.payloads }
    requires few { (memory : InMemory) → slice_get journals.old.items one.disk ≡ Some memory → length memory.journal.payloads < 16777216 }
    requires size { length one.payload ≤ 131072 }
    ensures all { length journals.new.items ≡ length journals.old.items }
    ensures others { (disk : ℕ) → disk ≢ one.disk → slice_get journals.new.items disk ≡ slice_get journals.old.items disk }
    ensures added { OnOk result ((old new : InMemory) → slice_get journals.old.items one.disk ≡ Some old → slice_get journals.new.items one.disk ≡ Some new
        → new.journal ≡ loaded (old.journal.payloads ++ one.payload ∷ [])) }
{
    let Kept {
        disk: number,
        payload,
    } = one;
    journals[number as usize].keep(payload)
}

/// Takes the journals of so many segments of a node out.
pub(crate) fn take_lists(
    alloc: Global,
    node: NodeId,
    count: u8,
    journals: &mut Vec<MemoryJournal>,
) -> Result<Vec<MemoryJournal>, Memory>
    requires { node.0 * 8 + count ≤ length journals.old.items }
    ensures all { IfOk result (λ taken. length taken.items ≡ count) }
    ensures taken { IfOk result (λ taken. (k : ℕ) → k < count → slice_get taken.items k ≡ slice_get journals.old.items (node.0 * 8 + k)) }
    ensures count { length journals.new.items ≡ length journals.old.items }
    ensures rest { (k : ℕ) → node.0 * 8 + count ≤ k → slice_get journals.new.items k ≡ slice_get journals.old.items k }
{
    let mut taken = Vec::new(alloc);
    for segment in 0..count {
        let journal = take_list(alloc, disk(node, segment), journals);
        taken.push(journal)?;
    }
    Ok(taken)
}

/// Takes the journal of a disk out.
pub(crate) fn take_list(
    alloc: Global,
    number: u32,
    journals: &mut Vec<MemoryJournal>,
) -> MemoryJournal
    requires { number < length journals.old.items }
    ensures taken { slice_get journals.old.items number ≡ Some result }
    ensures count { length journals.new.items ≡ length journals.old.items }
    ensures rest { (k : ℕ) → k ≢ number → slice_get journals.new.items k ≡ slice_get journals.old.items k }
{
    mem::replace(&mut journals[number as usize], MemoryJournal::new(alloc))
}
