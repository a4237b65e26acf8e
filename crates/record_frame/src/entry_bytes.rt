//! Entries as bytes.

ghost use Rattle.std.specs.Prelude.{◌≡◌, ◌≢◌, ℕ, List, ◌+◌, ◌≤◌, ◌++◌, length, vec_len, vec_capacity, Result, Ok, Err, IsOk, IfOk, OnOk, OnErr};
ghost use Rattle.record_frame.specs.declared.entries.Entry.{Entry};
ghost use Rattle.record_frame.specs.Fields.{Gives, StandsAt};
ghost use Rattle.record_frame.specs.Entries.{IsEntry, entry_of, entry_spelling, head_read, head_fields_at, entry_fields_at, entry_at};

use crate::entries::{Entry, Head};
use crate::fields::{field_end, read_kind, read_u16, read_u32, read_u64};
use crate::refusals::Refusal;
use log_base::{Bytes, Client, Memory, Number, put_bytes, put_u8, put_u16, put_u32, put_u64};
use std::alloc::Global;

/// The greatest length of a record.
const RECORD_LIMIT: u32 = 65_535;

/// How many bytes an entry has between its kind and its record.
const FIELD_BYTES: usize = 14;

/// Appends the spelling of an entry, for which there has to be room.
fn put_entry(client: Client, number: Number, bytes: &[u8], out: &mut Vec<u8>)
    requires size { length bytes.now ≤ 65535 }
    requires room { vec_len out.old + 15 + length bytes.now ≤ vec_capacity out.old }
    ensures items { out.new.items ≡ out.old.items ++ entry_spelling (entry_of client number bytes.now) }
    ensures capacity { vec_capacity out.old ≤ vec_capacity out.new }
{
    put_u8(1, out);
    put_u16(client.0, out);
    put_u64(number.0, out);
    put_u32(bytes.len() as u32, out);
    put_bytes(bytes, out);
}

/// Appends the one spelling of an entry.
pub fn write_entry(
    client: Client,
    number: Number,
    bytes: &[u8],
    out: &mut Vec<u8>,
) -> Result<(), Memory>
    requires { length bytes.now ≤ 65535 }
    ensures ok { OnOk result (out.new.items ≡ out.old.items ++ entry_spelling (entry_of client number bytes.now)) }
    ensures err { OnErr result (out.new.items ≡ out.old.items) }
    ensures room { vec_len out.old + length (entry_spelling (entry_of client number bytes.now)) ≤ vec_capacity out.old → IsOk result }
    ensures capacity { vec_capacity out.old ≤ vec_capacity out.new }
{
    out.reserve(1 + FIELD_BYTES + bytes.len())?;
    put_entry(client, number, bytes, out);
    Ok(())
}

/// The head of the entry whose fields stand at a place, and the place behind its record.
#[tactic(auto, unfolding(crate::specs::Entries::head_fields_at))]
fn head_fields(bytes: &[u8], at: usize) -> Result<(Head, usize), Refusal>
    requires { at ≤ length bytes.now }
    ensures read { result ≡ head_fields_at bytes.now at }
    ensures within { IfOk result (λ x. (x.1 ≡ at + 14 + x.0.length) × (x.1 ≤ length bytes.now)) }
{
    let (client, next) = read_u16(bytes, at)?;
    let (number, next) = read_u64(bytes, next)?;
    let (length, next) = read_u32(bytes, next)?;
    if length > RECORD_LIMIT {
        return Err(Refusal::TooLong {
            length: u64::from(length),
        });
    }
    let next = field_end(bytes, next, length)?;
    let head = Head {
        client: Client(client),
        number: Number(number),
        length,
    };
    Ok((head, next))
}

/// The entry whose fields stand at a place, and the place behind it.
#[tactic(auto, unfolding(crate::specs::Entries::entry_fields_at))]
fn entry_fields(alloc: Global, bytes: &[u8], at: usize) -> Result<(Entry, usize), Refusal>
    requires { at ≤ length bytes.now }
    ensures read { Gives (λ x. x) result (entry_fields_at bytes.now at) }
    ensures within { IfOk result (λ x. x.1 ≤ length bytes.now) }
{
    let (head, next) = head_fields(bytes, at)?;
    let record = Vec::from_slice(alloc, &bytes[at + FIELD_BYTES..next])?;
    let entry = Entry {
        client: head.client,
        number: head.number,
        bytes: Bytes::of(record),
    };
    Ok((entry, next))
}

/// Reads the entry at a place, and says where the next thing stands.
#[tactic(auto, unfolding(crate::specs::Entries::entry_at))]
pub fn read_entry_at(alloc: Global, bytes: &[u8], at: usize) -> Result<(Entry, usize), Refusal>
    requires { at ≤ length bytes.now }
    // What is read is spelled so.
    ensures found { IfOk result (λ x. IsEntry x.0 × StandsAt bytes.now at (entry_spelling x.0) x.1) }
    // Which refusal it is.
    ensures exact { Gives (λ x. x) result (entry_at bytes.now at) }
{
    let next = read_kind(bytes, at, 1)?;
    entry_fields(alloc, bytes, next)
}

/// Reads the entry at the front, and says how many bytes it has. Bytes may follow it.
pub fn read_entry(alloc: Global, bytes: &[u8]) -> Result<(Entry, usize), Refusal>
    // What is read is spelled so.
    ensures found { IfOk result (λ x. IsEntry x.0 × StandsAt bytes.now 0 (entry_spelling x.0) x.1) }
    // What is spelled is read, whatever follows, unless memory runs out.
    ensures only { (entry : Entry) (rest : List ℕ) → IsEntry entry → bytes.now ≡ entry_spelling entry ++ rest
        → Gives (λ x. x) result (Ok (entry, length (entry_spelling entry))) }
    // Which refusal it is.
    ensures exact { Gives (λ x. x) result (entry_at bytes.now 0) }
{
    read_entry_at(alloc, bytes, 0)
}

/// The head of the entry at the front.
pub fn read_head(bytes: &[u8]) -> Result<Head, Refusal>
    // It answers as reading the entry does, where there is memory for it.
    ensures agrees { result ≡ head_read (entry_at bytes.now 0) }
    ensures memory { result ≢ Err Refusal.Memory }
{
    let next = read_kind(bytes, 0, 1)?;
    let (head, _) = head_fields(bytes, next)?;
    Ok(head)
}
