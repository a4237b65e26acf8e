//! Writing the entries of a reply.

ghost use Rattle.std.specs.Prelude.{◌≡◌, ◌+◌, ◌≤◌, ◌++◌, length, vec_len, vec_capacity};
ghost use Rattle.std.specs.List.{flat_map, AllByRecursion};
ghost use Rattle.reply_frame.specs.Replies.{IsShort, entry_bytes};

use log_base::{put_bytes, put_u16, put_u32, put_u64};
use record_frame::Entry;

/// How many bytes spell an entry.
#[tactic(auto, unfolding(log_base::specs::Wide::be2, log_base::specs::Wide::be4, log_base::specs::Wide::be8))]
pub fn entry_length(entry: &Entry) -> u32
    requires { IsShort entry.now }
    ensures { result ≡ length (entry_bytes entry.now) }
{
    entry.bytes.get().len() as u32 + 14
}

/// How many bytes spell entries.
pub fn entries_length(entries: &[Entry]) -> u32
    requires short { AllByRecursion IsShort entries.now }
    requires fits { length (flat_map entry_bytes entries.now) ≤ 2097152 }
    ensures { result ≡ length (flat_map entry_bytes entries.now) }
{
    let mut length = 0;
    for entry in entries {
        length += entry_length(entry);
    }
    length
}

/// Appends an entry, for which there has to be room.
#[tactic(auto, unfolding(log_base::specs::Wide::be2, log_base::specs::Wide::be4, log_base::specs::Wide::be8))]
pub fn put_entry(entry: &Entry, out: &mut Vec<u8>)
    requires short { IsShort entry.now }
    requires room { vec_len out.old + length (entry_bytes entry.now) ≤ vec_capacity out.old }
    ensures items { out.new.items ≡ out.old.items ++ entry_bytes entry.now }
    ensures len { vec_len out.new ≡ vec_len out.old + length (entry_bytes entry.now) }
    ensures capacity { vec_capacity out.old ≤ vec_capacity out.new }
{
    let bytes = entry.bytes.get();
    put_u16(entry.client.0, out);
    put_u64(entry.number.0, out);
    put_u32(bytes.len() as u32, out);
    put_bytes(bytes, out);
}

/// Appends entries, for which there has to be room.
pub fn put_entries(entries: &[Entry], out: &mut Vec<u8>)
    requires short { AllByRecursion IsShort entries.now }
    requires room { vec_len out.old + length (flat_map entry_bytes entries.now) ≤ vec_capacity out.old }
    ensures items { out.new.items ≡ out.old.items ++ flat_map entry_bytes entries.now }
    ensures len { vec_len out.new ≡ vec_len out.old + length (flat_map entry_bytes entries.now) }
    ensures capacity { vec_capacity out.old ≤ vec_capacity out.new }
{
    for entry in entries {
        put_entry(entry, out);
    }
}
