//! A journal, whatever keeps it.

ghost use Rattle.std.specs.Prelude.{◌≡◌, ◌≢◌, ℕ, ◌-◌, ◌+◌, ◌<◌, ◌≤◌, Option, Some, Bool, true, false, IsTrue, IsSome, IfSome, IsSomeAnd, OnOk, OnErr, IsErrOf, is_err, length, slice_get};
ghost use Rattle.log_base.specs.Outside.{HasCause, Rose};
ghost use Rattle.log_base.specs.Wide.{IsBytes};
ghost use Rattle.segment_journal.specs.Journalled.{Journalled, Turns, planned, AllPayloads, end_of, with_room, with_payload, with_flight, with_reload, installed, IsReloaded};

use disk_base::Plan;
use log_base::Memory;
use std::alloc::{AllocError, AllocFailed};

/// Why a journal could not be read.
#[derive(Clone, Copy, Debug, PartialEq, Eq)]
pub enum OpenFault {
    /// A disk failed, and its count of faults rose.
    Failed,
    /// What was read is no journal, or not this one: from this place in the file on it is not what was kept.
    Damaged { at: u64 },
    Memory,
}

impl From<AllocError> for OpenFault {
    ghost use Rattle.segment_journal.specs.declared.journal.OpenFault.TheVariants.{Memory};

    ghost from_gives = { λ _ fault. fault ≡ Memory };

    fn from(_error: AllocError) -> OpenFault {
        OpenFault::Memory
    }
}

impl<T: Drop> From<AllocFailed<T>> for OpenFault {
    ghost use Rattle.segment_journal.specs.declared.journal.OpenFault.TheVariants.{Memory};

    ghost from_gives = { λ _ fault. fault ≡ Memory };

    fn from(_error: AllocFailed<T>) -> OpenFault {
        OpenFault::Memory
    }
}

/// A put failed, and the count of faults rose. The payload is in flight until the journal is read anew.
#[derive(Clone, Copy, Debug, PartialEq, Eq)]
pub struct Halted;

/// What putting the list that was read in place came to.
#[derive(Clone, Copy, Debug, PartialEq, Eq)]
pub enum Installed {
    /// The journal could not be read, and nothing changed.
    Failed,
    /// The list has the payload that was in flight at its end.
    OneMore,
    /// The list is as it was.
    Same,
}

/// A list of payloads, each of at most 131,072 bytes, whose offsets count from `first`.
pub trait Journal {
    /// The list, the payload in flight, whether it is halted, the room for a put, and what was read anew.
    ghost state: { Self → Journalled };

    /// The place in the file of the gate of the payload at an offset.
    ghost gate_at: { Self → ℕ → ℕ };

    /// How often it failed so far, by its disk's count or its own. The count never falls, and stands still at
    /// the end of its type.
    ghost faults: { Self → ℕ };

    /// Whether what was kept stays, as on a disk that keeps synced bytes.
    ghost keeps_synced: { Self → Bool };

    /// How the next put and the next reload turn out, where the journal tells it. There a plan sets it.
    ghost turns: { Self → Option Turns };

    /// The offset of the first payload.
    fn first(&self) -> u32
        ensures { result ≡ (state self.now).first };

    /// The offset after the last payload.
    fn len(&self) -> u32
        ensures end { result ≡ end_of (state self.now) }
        ensures payloads { AllPayloads (state self.now).payloads };

    /// The payload at an offset.
    fn get(&self, at: u32) -> &[u8]
        requires first { (state self.now).first ≤ at }
        requires end { at < end_of (state self.now) }
        ensures payload { slice_get (state self.now).payloads (at - (state self.now).first) ≡ Some result.now }
        ensures bytes { IsBytes result.now }
        ensures size { length result.now ≤ 131072 };

    /// The place in the file of that payload's gate.
    fn gate(&self, at: u32) -> u64
        requires first { (state self.now).first ≤ at }
        requires end { at < end_of (state self.now) }
        ensures { result ≡ gate_at self.now at };

    /// Whether a put failed since the last install.
    fn is_halted(&self) -> bool
        ensures { result ≡ (state self.now).halted };

    /// Hands the plan to the disk. A journal without a disk keeps the plan and fails by it as a disk does.
    fn plan(&mut self, plan: Plan)
        ensures state { state self.new ≡ state self.old }
        ensures gates { gate_at self.new ≡ gate_at self.old }
        ensures count { faults self.new ≡ faults self.old }
        ensures keeps { keeps_synced self.new ≡ keeps_synced self.old }
        ensures turns { turns self.new ≡ planned (state self.old).flight plan (turns self.old) };

    /// Makes room for one payload of at most `bytes` bytes, beside the room that there was. `Memory` comes too
    /// where there are 16,777,216 payloads.
    fn ready(&mut self, bytes: u32) -> Result<(), Memory>
        ensures ok { OnOk result (state self.new ≡ with_room (state self.old) bytes) }
        ensures few { OnOk result (end_of (state self.old) < 16777216) }
        ensures err { OnErr result (state self.new ≡ state self.old) }
        ensures gates { gate_at self.new ≡ gate_at self.old }
        ensures count { faults self.new ≡ faults self.old }
        ensures keeps { keeps_synced self.new ≡ keeps_synced self.old }
        ensures turns { turns self.new ≡ turns self.old };

    /// Puts a payload at the end, and keeps it before it answers. Where it fails the list stands as it was, the
    /// payload is in flight, and the journal is halted. It takes no memory and uses up the room.
    fn put(&mut self, payload: &[u8]) -> Result<(), Halted>
        requires running { (state self.old).halted ≡ false }
        requires room { IsSomeAnd (state self.old).room (λ bytes. length payload.now ≤ bytes) }
        requires size { length payload.now ≤ 131072 }
        requires few { end_of (state self.old) < 16777216 }
        ensures ok { OnOk result (state self.new ≡ with_payload (state self.old) payload.now) }
        ensures err { OnErr result (state self.new ≡ with_flight (state self.old) payload.now) }
        ensures cause { HasCause (faults self.old) (faults self.new) result }
        ensures keeps { keeps_synced self.new ≡ keeps_synced self.old }
        ensures turn { IfSome (turns self.old) (λ turn. is_err result ≡ turn.put_fails) };

    /// Reads the journal anew into a spare list. It fails only where the count rose, and is damaged only where
    /// what was kept did not stay.
    fn reload(&mut self) -> Result<(), OpenFault>
        ensures ok { OnOk result (IsReloaded (state self.old) (state self.new)) }
        ensures err { OnErr result (state self.new ≡ with_reload (state self.old) Installed.Failed) }
        ensures later { faults self.old ≤ faults self.new }
        ensures failed { IsErrOf result OpenFault.Failed → Rose (faults self.old) (faults self.new) }
        ensures damaged { IsTrue (keeps_synced self.old) → (at : ℕ) → result ≢ Err (OpenFault.Damaged at) }
        ensures keeps { keeps_synced self.new ≡ keeps_synced self.old }
        ensures turn { IfSome (turns self.old) (λ turn. result ≢ Err OpenFault.Memory → state self.new ≡ with_reload (state self.old) turn.reload) };

    /// Puts the spare list in place, drops the flight and ends a halt. Where the last reload failed nothing
    /// changes. It takes no memory.
    fn install(&mut self) -> Installed
        requires { IsSome (state self.old).reloaded }
        ensures answer { (state self.old).reloaded ≡ Some result }
        ensures after { state self.new ≡ installed (state self.old) result }
        ensures count { faults self.new ≡ faults self.old }
        ensures keeps { keeps_synced self.new ≡ keeps_synced self.old };
}
