//! Values as bytes.

ghost use Rattle.std.specs.Prelude.{◌≡◌, ◌≢◌, ℕ, List, ◌+◌, ◌*◌, ◌≤◌, ◌++◌, length, vec_len, vec_capacity, Result, Ok, Err, IsOk, IfOk, OnOk, OnErr};
ghost use Rattle.record_frame.specs.declared.values.Value.{Value};
ghost use Rattle.record_frame.specs.Fields.{StandsAt};
ghost use Rattle.record_frame.specs.Values.{IsLengths, IsValue, lengths_spelling, value_spelling, cells_at, lengths_at, shard_at, value_fields_at, value_at};

use crate::fields::{read_u8, read_u16, read_u32, read_u64};
use crate::refusals::Refusal;
use crate::values::{Lengths, Value};
use log_base::{Memory, Position, Shard, put_u8, put_u16, put_u32, put_u64};

/// The greatest length of a segment.
const LENGTH_LIMIT: u32 = 16_384;

/// The greatest number of a shard.
const SHARD_LIMIT: u16 = 7;

/// Appends a count and that many lengths, for which there has to be room.
pub fn put_lengths(lengths: &Lengths, out: &mut Vec<u8>)
    requires count { lengths.now.count ≤ 32 }
    requires room { vec_len out.old + (1 + 4 * lengths.now.count) ≤ vec_capacity out.old }
    ensures items { out.new.items ≡ out.old.items ++ lengths_spelling lengths.now }
    ensures len { vec_len out.new ≡ vec_len out.old + (1 + 4 * lengths.now.count) }
    ensures capacity { vec_capacity out.old ≤ vec_capacity out.new }
{
    put_u8(lengths.count, out);
    for length in &lengths.length[..lengths.count as usize] {
        put_u32(*length, out);
    }
}

/// How many bytes the spelling of a value has.
pub fn value_length(value: &Value) -> usize
    requires { IsValue value.now }
    ensures { result ≡ length (value_spelling value.now) }
{
    match value {
        Value::Noop => 1,
        Value::Cut(lengths) => 2 + 4 * lengths.count as usize,
        Value::Add(_) => 3,
        Value::Finalise(_) => 3,
        Value::Trim(_) => 9,
    }
}

/// Appends the spelling of a value, for which there has to be room.
pub fn put_value(value: &Value, out: &mut Vec<u8>)
    requires value { IsValue value.now }
    requires room { vec_len out.old + length (value_spelling value.now) ≤ vec_capacity out.old }
    ensures items { out.new.items ≡ out.old.items ++ value_spelling value.now }
    ensures len { vec_len out.new ≡ vec_len out.old + length (value_spelling value.now) }
    ensures capacity { vec_capacity out.old ≤ vec_capacity out.new }
{
    match value {
        Value::Noop => put_u8(0, out),
        Value::Cut(lengths) => {
            put_u8(1, out);
            put_lengths(lengths, out);
        }
        Value::Add(shard) => {
            put_u8(2, out);
            put_u16(shard.0, out);
        }
        Value::Finalise(shard) => {
            put_u8(3, out);
            put_u16(shard.0, out);
        }
        Value::Trim(position) => {
            put_u8(4, out);
            put_u64(position.0, out);
        }
    }
}

/// Appends the one spelling of a value.
pub fn write_value(value: &Value, out: &mut Vec<u8>) -> Result<(), Memory>
    requires { IsValue value.now }
    ensures ok { OnOk result (out.new.items ≡ out.old.items ++ value_spelling value.now) }
    ensures err { OnErr result (out.new.items ≡ out.old.items) }
    ensures room { vec_len out.old + length (value_spelling value.now) ≤ vec_capacity out.old → IsOk result }
{
    out.reserve(value_length(value))?;
    put_value(value, out);
    Ok(())
}

/// Reads a count from 1 to a limit and that many lengths, and says where the next thing stands.
#[tactic(auto, unfolding(crate::specs::Values::lengths_at))]
pub fn read_lengths(bytes: &[u8], at: usize, limit: u8) -> Result<(Lengths, usize), Refusal>
    requires place { at ≤ length bytes.now }
    requires limit { limit ≤ 32 }
    // What is read is spelled so.
    ensures found { IfOk result (λ x. IsLengths limit x.0 × StandsAt bytes.now at (lengths_spelling x.0) x.1) }
    // Which refusal it is.
    ensures exact { result ≡ lengths_at limit bytes.now at }
{
    let (count, next) = read_u8(bytes, at)?;
    if count == 0 || count > limit {
        return Err(Refusal::BadNumber { at });
    }
    let (length, next) = read_cells(bytes, next, count)?;
    Ok((Lengths { count, length }, next))
}

/// Reads some lengths into the first cells.
fn read_cells(bytes: &[u8], at: usize, count: u8) -> Result<([u32; 32], usize), Refusal>
    requires place { at ≤ length bytes.now }
    requires count { count ≤ 32 }
    ensures read { result ≡ cells_at count bytes.now at }
    ensures within { IfOk result (λ x. x.1 ≤ length bytes.now) }
{
    let mut length = [0; 32];
    let mut place = at;
    for i in 0..count as usize {
        let (number, next) = read_u32(bytes, place)?;
        if number > LENGTH_LIMIT {
            return Err(Refusal::BadNumber { at: place });
        }
        length[i] = number;
        place = next;
    }
    Ok((length, place))
}

/// Reads a shard.
#[tactic(auto, unfolding(crate::specs::Values::shard_at))]
pub fn read_shard(bytes: &[u8], at: usize) -> Result<(Shard, usize), Refusal>
    requires { at ≤ length bytes.now }
    ensures exact { result ≡ shard_at bytes.now at }
    ensures within { IfOk result (λ x. (x.0.0 ≤ 7) × (x.1 ≡ at + 2) × (x.1 ≤ length bytes.now)) }
{
    let (shard, next) = read_u16(bytes, at)?;
    if shard > SHARD_LIMIT {
        return Err(Refusal::BadNumber { at });
    }
    Ok((Shard(shard), next))
}

/// Reads the fields of a value of some kind.
#[tactic(auto, unfolding(crate::specs::Values::value_fields_at))]
fn value_fields(bytes: &[u8], at: usize, kind: u8) -> Result<(Value, usize), Refusal>
    requires { at ≤ length bytes.now }
    ensures read { result ≡ value_fields_at kind bytes.now at }
    ensures within { IfOk result (λ x. x.1 ≤ length bytes.now) }
{
    match kind {
        0 => Ok((Value::Noop, at)),
        1 => {
            let (lengths, next) = read_lengths(bytes, at, 32)?;
            Ok((Value::Cut(lengths), next))
        }
        2 => {
            let (shard, next) = read_shard(bytes, at)?;
            Ok((Value::Add(shard), next))
        }
        3 => {
            let (shard, next) = read_shard(bytes, at)?;
            Ok((Value::Finalise(shard), next))
        }
        4 => {
            let (position, next) = read_u64(bytes, at)?;
            Ok((Value::Trim(Position(position)), next))
        }
        _ => Err(Refusal::BadKind { byte: kind }),
    }
}

/// Reads the value at a place, and says where the next thing stands.
#[tactic(auto, unfolding(crate::specs::Values::value_at))]
pub fn read_value_at(bytes: &[u8], at: usize) -> Result<(Value, usize), Refusal>
    requires { at ≤ length bytes.now }
    // What is read is spelled so.
    ensures found { IfOk result (λ x. IsValue x.0 × StandsAt bytes.now at (value_spelling x.0) x.1) }
    // Which refusal it is.
    ensures exact { result ≡ value_at bytes.now at }
{
    let (kind, next) = read_u8(bytes, at)?;
    value_fields(bytes, next, kind)
}

/// Reads the value at the front, and says how many bytes it has. Bytes may follow it.
pub fn read_value(bytes: &[u8]) -> Result<(Value, usize), Refusal>
    // What is read is spelled so.
    ensures found { IfOk result (λ x. IsValue x.0 × StandsAt bytes.now 0 (value_spelling x.0) x.1) }
    // What is spelled is read, whatever follows.
    ensures only { (value : Value) (rest : List ℕ) → IsValue value → bytes.now ≡ value_spelling value ++ rest
        → result ≡ Ok (value, length (value_spelling value)) }
    // Which refusal it is.
    ensures exact { result ≡ value_at bytes.now 0 }
    ensures memory { result ≢ Err Refusal.Memory }
{
    read_value_at(bytes, 0)
}
