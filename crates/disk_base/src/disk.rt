//! A disk, and what a crash at any moment may leave of it.

ghost use Rattle.std.specs.Prelude.{◌≡◌, ℕ, ◌+◌, ◌-◌, ◌≤◌, List, Option, Bool, IsTrue, IsSome, IfSome, IfOk, OnOk, OnErr, length};
ghost use Rattle.std.specs.Option.{ForSome, option_map};
ghost use Rattle.log_base.specs.Outside.{HasCause};
ghost use Rattle.disk_base.specs.Images.{overwritten, read_at, Torn, Follows, SameImages, AddsNoImage, OnlyWhatIsRead};
ghost use Rattle.disk_base.specs.Moments.{Elapses};

use log_base::{Failed, Memory};

/// A failure to come: after `after` further writes the next write keeps its first `keep` bytes and fails.
/// With `lose` all bytes since the last sync, those too, go back.
#[derive(Clone, Copy, Debug, PartialEq, Eq)]
pub struct Plan {
    pub after: u32,
    pub keep: u32,
    pub lose: bool,
}

/// A disk: one list of bytes, which only writes change and only syncs make stable.
pub trait Disk: Send + Sync {
    /// The bytes that a read gives, where the disk tells them.
    ghost reads: { Self → Option (List ℕ) };

    /// What a crash now may leave.
    ghost may_leave: { Self → List ℕ → Type 0 };

    /// The moment, as a number that doesn't fall.
    ghost moment: { Self → ℕ };

    /// What a crash at some moment from that one on might have left, during a call or between two.
    ghost left_since: { Self → ℕ → List ℕ → Type 0 };

    /// Whether what a successful sync made stable stays.
    ghost keeps_synced: { Self → Bool };

    /// How often it failed so far. The count never falls, and stands still at the end of its type.
    ghost faults: { Self → ℕ };

    /// For how many writes there is room.
    ghost writes_left: { Self → ℕ };

    /// For how many bytes of these writes there is room.
    ghost bytes_left: { Self → ℕ };

    /// The length.
    fn len(&mut self) -> Result<u64, Failed>
        ensures length { IfOk result (λ count. IfSome (reads self.old) (λ bytes. count ≡ length bytes)) }
        ensures reads { reads self.new ≡ reads self.old }
        ensures images { SameImages (may_leave self.old) (may_leave self.new) }
        ensures time { Elapses (moment self.old) (moment self.new) (left_since self.old) (left_since self.new) (may_leave self.new) }
        ensures keeps { keeps_synced self.new ≡ keeps_synced self.old }
        ensures room { (writes_left self.new ≡ writes_left self.old) × (bytes_left self.new ≡ bytes_left self.old) }
        ensures cause { HasCause (faults self.old) (faults self.new) result };

    /// Fills `buf` with the bytes from a place.
    fn read(&mut self, at: u64, buf: &mut [u8]) -> Result<(), Failed>
        requires { ForSome (reads self.old) (λ bytes. at + length buf.old ≤ length bytes) }
        ensures bytes { OnOk result (IfSome (reads self.old) (λ bytes. buf.new ≡ read_at bytes at (length buf.old))) }
        ensures reads { reads self.new ≡ reads self.old }
        ensures images { SameImages (may_leave self.old) (may_leave self.new) }
        ensures time { Elapses (moment self.old) (moment self.new) (left_since self.old) (left_since self.new) (may_leave self.new) }
        ensures keeps { keeps_synced self.new ≡ keeps_synced self.old }
        ensures room { (writes_left self.new ≡ writes_left self.old) × (bytes_left self.new ≡ bytes_left self.old) }
        ensures cause { HasCause (faults self.old) (faults self.new) result };

    /// Makes room for the next eight writes, of together at most `extra` bytes.
    fn ready(&mut self, extra: u64) -> Result<(), Memory>
        ensures ok { OnOk result ((8 ≤ writes_left self.new) × (extra ≤ bytes_left self.new)) }
        ensures err { OnErr result ((writes_left self.new ≡ writes_left self.old) × (bytes_left self.new ≡ bytes_left self.old)) }
        ensures reads { reads self.new ≡ reads self.old }
        ensures images { SameImages (may_leave self.old) (may_leave self.new) }
        ensures time { Elapses (moment self.old) (moment self.new) (left_since self.old) (left_since self.new) (may_leave self.new) }
        ensures keeps { keeps_synced self.new ≡ keeps_synced self.old }
        ensures count { faults self.new ≡ faults self.old };

    /// Writes over what is there from a place, and past the end. A write that fails may have written any part,
    /// and a read may then give any one of the images. Whatever it answers, it takes up room.
    fn write(&mut self, at: u64, bytes: &[u8]) -> Result<(), Failed>
        requires place { ForSome (reads self.old) (λ old. at ≤ length old) }
        requires writes { 1 ≤ writes_left self.old }
        requires bytes { length bytes.now ≤ bytes_left self.old }
        ensures written { OnOk result (reads self.new ≡ option_map (λ old. overwritten old at bytes.now) (reads self.old)) }
        ensures images { Follows (Torn at (length bytes.now)) (may_leave self.old) (may_leave self.new) }
        ensures time { Elapses (moment self.old) (moment self.new) (left_since self.old) (left_since self.new) (may_leave self.new) }
        ensures keeps { keeps_synced self.new ≡ keeps_synced self.old }
        ensures room { (writes_left self.new + 1 ≡ writes_left self.old) × (bytes_left self.new + length bytes.now ≡ bytes_left self.old) }
        ensures cause { HasCause (faults self.old) (faults self.new) result };

    /// Makes all that was written stable.
    fn sync(&mut self) -> Result<(), Failed>
        ensures stable { OnOk result (IsTrue (keeps_synced self.old) → OnlyWhatIsRead (reads self.new) (may_leave self.new)) }
        ensures reads { OnOk result (reads self.new ≡ reads self.old) }
        ensures images { IsTrue (keeps_synced self.old) → AddsNoImage (may_leave self.old) (may_leave self.new) }
        ensures time { Elapses (moment self.old) (moment self.new) (left_since self.old) (left_since self.new) (may_leave self.new) }
        ensures keeps { keeps_synced self.new ≡ keeps_synced self.old }
        ensures room { (writes_left self.new ≡ writes_left self.old) × (bytes_left self.new ≡ bytes_left self.old) }
        ensures cause { HasCause (faults self.old) (faults self.new) result };

    /// Ends a stopped state and clears the plan. A read may then give any one of the images.
    fn reopen(&mut self) -> Result<(), Failed>
        ensures images { IsTrue (keeps_synced self.old) → AddsNoImage (may_leave self.old) (may_leave self.new) }
        ensures time { Elapses (moment self.old) (moment self.new) (left_since self.old) (left_since self.new) (may_leave self.new) }
        ensures keeps { keeps_synced self.new ≡ keeps_synced self.old }
        ensures room { (writes_left self.new ≡ writes_left self.old) × (bytes_left self.new ≡ bytes_left self.old) }
        ensures cause { HasCause (faults self.old) (faults self.new) result };

    /// Has the disk fail by this plan. A plan that is set while the disk is stopped stands until it is reopened.
    fn plan(&mut self, plan: Plan)
        ensures reads { reads self.new ≡ reads self.old }
        ensures images { SameImages (may_leave self.old) (may_leave self.new) }
        ensures time { Elapses (moment self.old) (moment self.new) (left_since self.old) (left_since self.new) (may_leave self.new) }
        ensures keeps { keeps_synced self.new ≡ keeps_synced self.old }
        ensures room { (writes_left self.new ≡ writes_left self.old) × (bytes_left self.new ≡ bytes_left self.old) }
        ensures count { faults self.new ≡ faults self.old };

    /// A disk as it reads is one of its images.
    ghost reads_image: { (disk : Self) → IfSome (reads disk) (may_leave disk) };

    /// A disk that keeps synced bytes tells them.
    ghost keeper_tells: { (disk : Self) → IsTrue (keeps_synced disk) → IsSome (reads disk) };

    /// This moment is one of those since an earlier one.
    ghost counts_now: { (disk : Self) (t : ℕ) (c : List ℕ) → t ≤ moment disk → may_leave disk c → left_since disk t c };

    /// Since this moment there is no other.
    ghost only_now: { (disk : Self) (c : List ℕ) → left_since disk (moment disk) c → may_leave disk c };
}
