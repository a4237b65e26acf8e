//! Numbers as bytes, the highest first.

ghost use Rattle.std.specs.Prelude.{◌≡◌, ℕ, List, ◌+◌, ◌^◌, ◌<◌, ◌≤◌, [], ◌∷◌, ◌++◌, length, vec_len, vec_capacity, slice_index, take, drop};
ghost use Rattle.log_base.specs.Wide.{IsBytes, be2, be4, be8, number2, number4, number8};

use byteorder::{BigEndian, ByteOrder};

/// Appends bytes, for which there has to be room.
pub fn put_bytes(bytes: &[u8], out: &mut Vec<u8>)
    requires { vec_len out.old + length bytes.now ≤ vec_capacity out.old }
    ensures items { out.new.items ≡ out.old.items ++ bytes.now }
    ensures len { vec_len out.new ≡ vec_len out.old + length bytes.now }
    ensures capacity { vec_capacity out.old ≤ vec_capacity out.new }
    ensures fits { (k : ℕ) → slice_index out.new.items k < 256 }
{
    let _ = out.extend_from_slice(bytes);
}

/// Appends one byte, for which there has to be room.
pub fn put_u8(byte: u8, out: &mut Vec<u8>)
    requires { vec_len out.old + 1 ≤ vec_capacity out.old }
    ensures items { out.new.items ≡ out.old.items ++ byte ∷ [] }
    ensures len { vec_len out.new ≡ vec_len out.old + 1 }
    ensures capacity { vec_capacity out.old ≤ vec_capacity out.new }
{
    put_bytes(&[byte], out);
}

/// Appends a number of two bytes, for which there has to be room.
#[tactic(auto, unfolding(crate::specs::Wide::be2))]
pub fn put_u16(number: u16, out: &mut Vec<u8>)
    requires { vec_len out.old + 2 ≤ vec_capacity out.old }
    ensures items { out.new.items ≡ out.old.items ++ be2 number }
    ensures len { vec_len out.new ≡ vec_len out.old + 2 }
    ensures capacity { vec_capacity out.old ≤ vec_capacity out.new }
{
    let mut bytes = [0; 2];
    BigEndian::write_u16(&mut bytes, number);
    put_bytes(&bytes, out);
}

/// Appends a number of four bytes, for which there has to be room.
#[tactic(auto, unfolding(crate::specs::Wide::be4))]
pub fn put_u32(number: u32, out: &mut Vec<u8>)
    requires { vec_len out.old + 4 ≤ vec_capacity out.old }
    ensures items { out.new.items ≡ out.old.items ++ be4 number }
    ensures len { vec_len out.new ≡ vec_len out.old + 4 }
    ensures capacity { vec_capacity out.old ≤ vec_capacity out.new }
{
    let mut bytes = [0; 4];
    BigEndian::write_u32(&mut bytes, number);
    put_bytes(&bytes, out);
}

/// Appends a number of eight bytes, for which there has to be room.
#[tactic(auto, unfolding(crate::specs::Wide::be8))]
pub fn put_u64(number: u64, out: &mut Vec<u8>)
    requires { vec_len out.old + 8 ≤ vec_capacity out.old }
    ensures items { out.new.items ≡ out.old.items ++ be8 number }
    ensures len { vec_len out.new ≡ vec_len out.old + 8 }
    ensures capacity { vec_capacity out.old ≤ vec_capacity out.new }
{
    let mut bytes = [0; 8];
    BigEndian::write_u64(&mut bytes, number);
    put_bytes(&bytes, out);
}

/// The number in the two bytes from a place.
#[tactic(auto, unfolding(crate::specs::Wide::number2))]
pub fn number_u16(bytes: &[u8], at: usize) -> u16
    requires { at + 2 ≤ length bytes.now }
    ensures { result ≡ number2 bytes.now at }
{
    u16::from_be_bytes([bytes[at], bytes[at + 1]])
}

/// The number in the four bytes from a place.
#[tactic(auto, unfolding(crate::specs::Wide::number4))]
pub fn number_u32(bytes: &[u8], at: usize) -> u32
    requires { at + 4 ≤ length bytes.now }
    ensures { result ≡ number4 bytes.now at }
{
    BigEndian::read_u32(&bytes[at..])
}

/// The number in the eight bytes from a place.
#[tactic(auto, unfolding(crate::specs::Wide::number8))]
pub fn number_u64(bytes: &[u8], at: usize) -> u64
    requires { at + 8 ≤ length bytes.now }
    ensures { result ≡ number8 bytes.now at }
{
    BigEndian::read_u64(&bytes[at..])
}

/// What was written behind a front is read again, whatever follows it.
pub fn number_written()
    ensures two { (x : ℕ) (front rest : List ℕ) → x < 2 ^ 16 → number2 (front ++ (be2 x ++ rest)) (length front) ≡ x }
    ensures four { (x : ℕ) (front rest : List ℕ) → x < 2 ^ 32 → number4 (front ++ (be4 x ++ rest)) (length front) ≡ x }
    ensures eight { (x : ℕ) (front rest : List ℕ) → x < 2 ^ 64 → number8 (front ++ (be8 x ++ rest)) (length front) ≡ x }
{}

/// What is read from a place stands there, written so: each number has one spelling.
pub fn number_read()
    ensures two { (bytes : List ℕ) (at : ℕ) → IsBytes bytes → at + 2 ≤ length bytes → be2 (number2 bytes at) ≡ take 2 (drop at bytes) }
    ensures four { (bytes : List ℕ) (at : ℕ) → IsBytes bytes → at + 4 ≤ length bytes → be4 (number4 bytes at) ≡ take 4 (drop at bytes) }
    ensures eight { (bytes : List ℕ) (at : ℕ) → IsBytes bytes → at + 8 ≤ length bytes → be8 (number8 bytes at) ≡ take 8 (drop at bytes) }
{}
