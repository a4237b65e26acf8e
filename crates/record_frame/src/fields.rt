//! Numbers of a width at a place in bytes, which may end too soon.

ghost use Rattle.std.specs.Prelude.{◌≡◌, ◌+◌, ◌≤◌, length, IfOk};
ghost use Rattle.record_frame.specs.Fields.{end_at, kind_at, u8_at, u16_at, u32_at, u64_at};

use crate::refusals::Refusal;
use log_base::{number_u16, number_u32, number_u64};

/// The place behind a field of this many bytes.
#[tactic(auto, unfolding(crate::specs::Fields::end_at))]
pub fn field_end(bytes: &[u8], at: usize, width: u32) -> Result<usize, Refusal>
    requires { at ≤ length bytes.now }
    ensures read { result ≡ end_at width bytes.now at }
    ensures within { IfOk result (λ next. (next ≡ at + width) × (next ≤ length bytes.now)) }
{
    let next = at + width as usize;
    if bytes.len() < next {
        return Err(Refusal::Short { need: next });
    }
    Ok(next)
}

/// The byte at a place, and the place behind it.
#[tactic(auto, unfolding(crate::specs::Fields::u8_at))]
pub fn read_u8(bytes: &[u8], at: usize) -> Result<(u8, usize), Refusal>
    requires { at ≤ length bytes.now }
    ensures read { result ≡ u8_at bytes.now at }
    ensures within { IfOk result (λ x. (x.1 ≡ at + 1) × (x.1 ≤ length bytes.now)) }
{
    let next = field_end(bytes, at, 1)?;
    Ok((bytes[at], next))
}

/// The number in the two bytes at a place, and the place behind them.
#[tactic(auto, unfolding(crate::specs::Fields::u16_at))]
pub fn read_u16(bytes: &[u8], at: usize) -> Result<(u16, usize), Refusal>
    requires { at ≤ length bytes.now }
    ensures read { result ≡ u16_at bytes.now at }
    ensures within { IfOk result (λ x. (x.1 ≡ at + 2) × (x.1 ≤ length bytes.now)) }
{
    let next = field_end(bytes, at, 2)?;
    Ok((number_u16(bytes, at), next))
}

/// The number in the four bytes at a place, and the place behind them.
#[tactic(auto, unfolding(crate::specs::Fields::u32_at))]
pub fn read_u32(bytes: &[u8], at: usize) -> Result<(u32, usize), Refusal>
    requires { at ≤ length bytes.now }
    ensures read { result ≡ u32_at bytes.now at }
    ensures within { IfOk result (λ x. (x.1 ≡ at + 4) × (x.1 ≤ length bytes.now)) }
{
    let next = field_end(bytes, at, 4)?;
    Ok((number_u32(bytes, at), next))
}

/// The number in the eight bytes at a place, and the place behind them.
#[tactic(auto, unfolding(crate::specs::Fields::u64_at))]
pub fn read_u64(bytes: &[u8], at: usize) -> Result<(u64, usize), Refusal>
    requires { at ≤ length bytes.now }
    ensures read { result ≡ u64_at bytes.now at }
    ensures within { IfOk result (λ x. (x.1 ≡ at + 8) × (x.1 ≤ length bytes.now)) }
{
    let next = field_end(bytes, at, 8)?;
    Ok((number_u64(bytes, at), next))
}

/// The place behind a byte that has to be this kind.
#[tactic(auto, unfolding(crate::specs::Fields::kind_at))]
pub fn read_kind(bytes: &[u8], at: usize, kind: u8) -> Result<usize, Refusal>
    requires { at ≤ length bytes.now }
    ensures read { result ≡ kind_at kind bytes.now at }
    ensures within { IfOk result (λ next. (next ≡ at + 1) × (next ≤ length bytes.now)) }
{
    let (found, next) = read_u8(bytes, at)?;
    if found != kind {
        return Err(Refusal::BadKind { byte: found });
    }
    Ok(next)
}
