//! The fields of a structure: little-endian numbers, and names of 16 bytes.
ghost use Rattle.std.specs.Prelude.{◌≡◌, ◌+◌, ◌^◌, ◌<◌, ◌≤◌, ◌++◌, length, vec_len, vec_capacity};
ghost use Rattle.mo_bytes.specs.Number.{number, number_bytes};
ghost use Rattle.mo_format.specs.Fields as fields;

use byteorder::{ByteOrder, LittleEndian};

/// The number of one byte at a place.
#[tactic(auto, unfolding(mo_bytes::specs::Number::number))]
pub fn u8_at(bytes: &[u8], at: usize) -> u8
    requires { at + 1 ≤ length bytes.now }
    ensures { result ≡ number 1 bytes.now at }
{
    bytes[at]
}

/// The little-endian number of two bytes at a place.
#[tactic(auto, unfolding(mo_bytes::specs::Number::number))]
pub fn u16_at(bytes: &[u8], at: usize) -> u16
    requires { at + 2 ≤ length bytes.now }
    ensures { result ≡ number 2 bytes.now at }
{
    LittleEndian::read_u16(&bytes[at..])
}

/// The little-endian number of four bytes at a place.
#[tactic(auto, unfolding(mo_bytes::specs::Number::number))]
pub fn u32_at(bytes: &[u8], at: usize) -> u32
    requires { at + 4 ≤ length bytes.now }
    ensures { result ≡ number 4 bytes.now at }
{
    LittleEndian::read_u32(&bytes[at..])
}

/// The little-endian number of eight bytes at a place.
#[tactic(auto, unfolding(mo_bytes::specs::Number::number))]
pub fn u64_at(bytes: &[u8], at: usize) -> u64
    requires { at + 8 ≤ length bytes.now }
    ensures { result ≡ number 8 bytes.now at }
{
    LittleEndian::read_u64(&bytes[at..])
}

/// The name of 16 bytes at a place.
#[tactic(auto, unfolding(crate::specs::Fields::name_at))]
pub fn name_at(bytes: &[u8], at: usize) -> [u8; 16]
    requires { at + 16 ≤ length bytes.now }
    ensures { result ≡ fields.name_at bytes.now at }
{
    let mut name = [0u8; 16];
    name.copy_from_slice(&bytes[at..at + 16]);
    name
}

/// Appends a number as one byte; the output has room for it.
#[tactic(auto, unfolding(mo_bytes::specs::Number::number_bytes))]
pub fn put_u8(out: &mut Vec<u8>, value: u8)
    requires { vec_len out.old + 1 ≤ vec_capacity out.old }
    ensures items { out.new.items ≡ out.old.items ++ number_bytes 1 value }
    ensures fits { value < 256 ^ 1 }
    ensures len { vec_len out.new ≡ vec_len out.old + 1 }
    ensures capacity { vec_capacity out.old ≤ vec_capacity out.new }
{
    out.extend_from_slice(&value.to_le_bytes()).unwrap();
}

/// Appends a number as two bytes, the lowest first; the output has room for them.
#[tactic(auto, unfolding(mo_bytes::specs::Number::number_bytes))]
pub fn put_u16(out: &mut Vec<u8>, value: u16)
    requires { vec_len out.old + 2 ≤ vec_capacity out.old }
    ensures items { out.new.items ≡ out.old.items ++ number_bytes 2 value }
    ensures fits { value < 256 ^ 2 }
    ensures len { vec_len out.new ≡ vec_len out.old + 2 }
    ensures capacity { vec_capacity out.old ≤ vec_capacity out.new }
{
    out.extend_from_slice(&value.to_le_bytes()).unwrap();
}

/// Appends a number as four bytes, the lowest first; the output has room for them.
#[tactic(auto, unfolding(mo_bytes::specs::Number::number_bytes))]
pub fn put_u32(out: &mut Vec<u8>, value: u32)
    requires { vec_len out.old + 4 ≤ vec_capacity out.old }
    ensures items { out.new.items ≡ out.old.items ++ number_bytes 4 value }
    ensures fits { value < 256 ^ 4 }
    ensures len { vec_len out.new ≡ vec_len out.old + 4 }
    ensures capacity { vec_capacity out.old ≤ vec_capacity out.new }
{
    out.extend_from_slice(&value.to_le_bytes()).unwrap();
}

/// Appends a number as eight bytes, the lowest first; the output has room for them.
#[tactic(auto, unfolding(mo_bytes::specs::Number::number_bytes))]
pub fn put_u64(out: &mut Vec<u8>, value: u64)
    requires { vec_len out.old + 8 ≤ vec_capacity out.old }
    ensures items { out.new.items ≡ out.old.items ++ number_bytes 8 value }
    ensures fits { value < 256 ^ 8 }
    ensures len { vec_len out.new ≡ vec_len out.old + 8 }
    ensures capacity { vec_capacity out.old ≤ vec_capacity out.new }
{
    out.extend_from_slice(&value.to_le_bytes()).unwrap();
}

/// Appends a name of 16 bytes; the output has room for it.
pub fn put_name(out: &mut Vec<u8>, name: &[u8; 16])
    requires { vec_len out.old + 16 ≤ vec_capacity out.old }
    ensures items { out.new.items ≡ out.old.items ++ name.now }
    ensures fits { length name.now ≡ 16 }
    ensures len { vec_len out.new ≡ vec_len out.old + 16 }
    ensures capacity { vec_capacity out.old ≤ vec_capacity out.new }
{
    out.extend_from_slice(name).unwrap();
}
