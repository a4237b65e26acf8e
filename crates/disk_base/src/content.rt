//! The bytes of a disk in memory, with the record of all its writes and of the syncs after them.

ghost use Rattle.std.specs.Prelude.{◌≡◌, ◌+◌, ◌≤◌, max, length, take, true, false, vec_capacity, vec_len, OnOk, OnErr};
ghost use Rattle.disk_base.specs.Images.{overwritten, TornBy};
ghost use Rattle.disk_base.specs.Replay.{unwritten, wrote, went_back, after_sync, taken_up};

use std::alloc::{AllocError, Global};
use std::marker::Model;

/// How many steps of the record are made room for at once: eight writes, and a sync after each.
const STEPS: usize = 16;

/// One step of the record.
#[derive(Clone, Copy, Debug, PartialEq, Eq)]
pub enum Step {
    /// A write of so many bytes from a place. Where it was lost, all bytes since the last sync went back with it.
    Wrote { at: usize, count: usize, lost: bool },
    /// A sync that followed a write.
    Synced,
}

/// Bytes and their record. The copies are made when there is room for the first write.
#[derive(Debug, Drop)]
pub struct Content {
    alloc: Global,
    /// The bytes as they read.
    bytes: Vec<u8>,
    /// The bytes at the first, once they are copied.
    first: Vec<u8>,
    /// The bytes at the last sync, once they are copied.
    synced: Vec<u8>,
    is_copied: bool,
    /// Below this place the bytes are those of the last sync.
    same_below: usize,
    steps: Vec<Step>,
    /// The bytes of all writes, one write behind the other.
    written: Vec<u8>,
    /// One where a write came since the last sync, which the next sync adds to the record.
    syncs_due: usize,
    writes_left: u64,
    bytes_left: u64,
}

impl Model for Content {
    ghost use Rattle.disk_base.specs.Replay.{Recorded};

    ghost Value = { Recorded };

    ghost use Rattle.disk_base.specs.Content.{recorded, IsInOrder};

    ghost view = { recorded };

    ghost invariant = { IsInOrder };
}

impl Content {
    /// Bytes that count as synced, with no write and no room.
    pub fn of(alloc: Global, bytes: Vec<u8>) -> Content
        ensures { result ≡ unwritten bytes.items }
    {
        Content {
            alloc,
            bytes,
            first: Vec::new(alloc),
            synced: Vec::new(alloc),
            is_copied: false,
            same_below: 0,
            steps: Vec::new(alloc),
            written: Vec::new(alloc),
            syncs_due: 0,
            writes_left: 0,
            bytes_left: 0,
        }
    }

    /// The bytes as they read.
    pub fn bytes(&self) -> &[u8]
        ensures bytes { result.now ≡ self.now.kept.seen }
        ensures reached { TornBy self.now.kept.since self.now.kept.synced self.now.kept.seen }
    {
        &self.bytes
    }

    /// Makes room for eight writes of together so many bytes, and for a sync after each.
    pub fn ready(&mut self, extra: u64) -> Result<(), AllocError>
        ensures ok { OnOk result (self.new ≡ record self.old { writes_left = 8; bytes_left = max self.old.bytes_left extra }) }
        ensures err { OnErr result (self.new ≡ self.old) }
    {
        let count = extra as usize;
        self.bytes.reserve(count)?;
        self.written.reserve(count)?;
        self.steps.reserve(STEPS + 1)?;
        let (first, synced) = (&mut self.first, &mut self.synced);
        copy_once(self.alloc, self.is_copied, &self.bytes, first, synced)?;
        reserve_to(&mut self.synced, self.bytes.len(), count)?;
        self.is_copied = true;
        self.writes_left = 8;
        self.bytes_left = self.bytes_left.max(extra);
        Ok(())
    }

    /// Writes the first `keep` bytes from a place. The room is taken up by all of them.
    pub fn put(&mut self, at: usize, bytes: &[u8], keep: usize)
        requires place { at ≤ length self.old.kept.seen }
        requires writes { 1 ≤ self.old.writes_left }
        requires bytes { length bytes.now ≤ self.old.bytes_left }
        requires keep { keep ≤ length bytes.now }
        ensures after { self.new ≡ taken_up self.old (wrote self.old.kept at (take keep bytes.now)) (length bytes.now) }
        ensures reached { TornBy self.old.kept.since self.old.kept.synced self.old.kept.seen }
    {
        let kept = &bytes[..keep];
        overwrite(&mut self.bytes, at, kept);
        let _ = self.written.extend_from_slice(kept);
        let _ = self.steps.push(Step::Wrote {
            at,
            count: keep,
            lost: false,
        });
        self.same_below = self.same_below.min(at);
        self.syncs_due = 1;
        self.writes_left -= 1;
        self.bytes_left -= bytes.len() as u64;
    }

    /// Records a write of the first `keep` bytes, with which all bytes since the last sync go back.
    pub fn put_and_lose(&mut self, at: usize, bytes: &[u8], keep: usize)
        requires place { at ≤ length self.old.kept.seen }
        requires writes { 1 ≤ self.old.writes_left }
        requires bytes { length bytes.now ≤ self.old.bytes_left }
        requires keep { keep ≤ length bytes.now }
        ensures after { self.new ≡ taken_up self.old (went_back self.old.kept at (take keep bytes.now)) (length bytes.now) }
        ensures reached { TornBy self.old.kept.since self.old.kept.synced self.old.kept.seen }
    {
        let kept = &bytes[..keep];
        copy_from(&mut self.bytes, &self.synced, self.same_below);
        let _ = self.written.extend_from_slice(kept);
        let _ = self.steps.push(Step::Wrote {
            at,
            count: keep,
            lost: true,
        });
        self.syncs_due = 1;
        self.writes_left -= 1;
        self.bytes_left -= bytes.len() as u64;
    }

    /// Takes up the room of a write that writes nothing.
    pub fn pass_over(&mut self, count: usize)
        requires writes { 1 ≤ self.old.writes_left }
        requires bytes { count ≤ self.old.bytes_left }
        ensures { self.new ≡ taken_up self.old self.old.kept count }
    {
        self.writes_left -= 1;
        self.bytes_left -= count as u64;
    }

    /// Makes the bytes those of the last sync. Where nothing was written since, nothing changes.
    pub fn sync(&mut self)
        ensures after { self.new ≡ record self.old { kept = after_sync self.old.kept } }
        ensures reached { TornBy self.old.kept.since self.old.kept.synced self.old.kept.seen }
    {
        if self.syncs_due == 0 {
            return;
        }
        copy_from(&mut self.synced, &self.bytes, self.same_below);
        let _ = self.steps.push(Step::Synced);
        self.same_below = self.bytes.len();
        self.syncs_due = 0;
    }
}

/// Writes over what is there from a place, and past the end.
fn overwrite(bytes: &mut Vec<u8>, at: usize, with: &[u8])
    requires place { at ≤ vec_len bytes.old }
    requires room { vec_len bytes.old + length with.now ≤ vec_capacity bytes.old }
    ensures items { bytes.new.items ≡ overwritten bytes.old.items at with.now }
    ensures capacity { vec_capacity bytes.old ≤ vec_capacity bytes.new }
{
    let inside = with.len().min(bytes.len() - at);
    bytes[at..at + inside].copy_from_slice(&with[..inside]);
    let _ = bytes.extend_from_slice(&with[inside..]);
}

/// Makes bytes those of a source, with which they agree below a place.
fn copy_from(bytes: &mut Vec<u8>, source: &[u8], from: usize)
    requires same { take from bytes.old.items ≡ take from source.now }
    requires place { from ≤ length source.now }
    requires room { length source.now ≤ vec_capacity bytes.old }
    ensures items { bytes.new.items ≡ source.now }
    ensures capacity { vec_capacity bytes.old ≤ vec_capacity bytes.new }
{
    bytes.truncate(from);
    let _ = bytes.extend_from_slice(&source[from..]);
}

/// Copies the bytes twice, where they are not copied.
fn copy_once(
    alloc: Global,
    is_copied: bool,
    bytes: &[u8],
    first: &mut Vec<u8>,
    synced: &mut Vec<u8>,
) -> Result<(), AllocError>
    ensures first { OnOk result (is_copied ≡ false → first.new.items ≡ bytes.now) }
    ensures synced { OnOk result (is_copied ≡ false → synced.new.items ≡ bytes.now) }
    ensures kept_first { is_copied ≡ true → first.new ≡ first.old }
    ensures kept_synced { is_copied ≡ true → synced.new ≡ synced.old }
{
    if is_copied {
        return Ok(());
    }
    *first = bytes.to_vec(alloc)?;
    *synced = bytes.to_vec(alloc)?;
    Ok(())
}

/// Makes room for a length and so many more.
fn reserve_to(bytes: &mut Vec<u8>, len: usize, extra: usize) -> Result<(), AllocError>
    requires { vec_len bytes.old ≤ len }
    ensures ok { OnOk result (len + extra ≤ vec_capacity bytes.new) }
    ensures items { bytes.new.items ≡ bytes.old.items }
    ensures capacity { vec_capacity bytes.old ≤ vec_capacity bytes.new }
{
    let Some(count) = (len - bytes.len()).checked_add(extra) else {
        return Err(AllocError);
    };
    bytes.reserve(count)
}
