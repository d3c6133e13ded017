//! The fields of a structure whose numbers have their highest byte first.
ghost use Rattle.std.specs.Prelude.{◌≡◌, ◌+◌, ◌^◌, ◌<◌, ◌≤◌, ◌++◌, length, vec_len, vec_capacity};
ghost use Rattle.image_format.specs.BigFields.{big_number_at, big_number_bytes};

use byteorder::{BigEndian, ByteOrder};

#[tactic(auto, unfolding(crate::specs::BigFields::big_number_at))]
pub(crate) fn big_u8_at(bytes: &[u8], at: usize) -> u8
    requires { at + 1 ≤ length bytes.now }
    ensures { result ≡ big_number_at 1 bytes.now at }
{
    bytes[at]
}

#[tactic(auto, unfolding(crate::specs::BigFields::big_number_at))]
pub(crate) fn big_u32_at(bytes: &[u8], at: usize) -> u32
    requires { at + 4 ≤ length bytes.now }
    ensures { result ≡ big_number_at 4 bytes.now at }
{
    BigEndian::read_u32(&bytes[at..])
}

#[tactic(auto, unfolding(crate::specs::BigFields::big_number_at))]
pub(crate) fn big_u64_at(bytes: &[u8], at: usize) -> u64
    requires { at + 8 ≤ length bytes.now }
    ensures { result ≡ big_number_at 8 bytes.now at }
{
    BigEndian::read_u64(&bytes[at..])
}

#[tactic(auto, unfolding(crate::specs::BigFields::big_number_bytes))]
pub(crate) fn put_big_u8(out: &mut Vec<u8>, value: u8)
    requires { vec_len out.old + 1 ≤ vec_capacity out.old }
    ensures items { out.new.items ≡ out.old.items ++ big_number_bytes 1 value }
    ensures fits { value < 256 ^ 1 }
    ensures len { vec_len out.new ≡ vec_len out.old + 1 }
    ensures capacity { vec_capacity out.old ≤ vec_capacity out.new }
{
    out.extend_from_slice(&value.to_be_bytes()).unwrap();
}

#[tactic(auto, unfolding(crate::specs::BigFields::big_number_bytes))]
pub(crate) fn put_big_u32(out: &mut Vec<u8>, value: u32)
    requires { vec_len out.old + 4 ≤ vec_capacity out.old }
    ensures items { out.new.items ≡ out.old.items ++ big_number_bytes 4 value }
    ensures fits { value < 256 ^ 4 }
    ensures len { vec_len out.new ≡ vec_len out.old + 4 }
    ensures capacity { vec_capacity out.old ≤ vec_capacity out.new }
{
    out.extend_from_slice(&value.to_be_bytes()).unwrap();
}

#[tactic(auto, unfolding(crate::specs::BigFields::big_number_bytes))]
pub(crate) fn put_big_u64(out: &mut Vec<u8>, value: u64)
    requires { vec_len out.old + 8 ≤ vec_capacity out.old }
    ensures items { out.new.items ≡ out.old.items ++ big_number_bytes 8 value }
    ensures fits { value < 256 ^ 8 }
    ensures len { vec_len out.new ≡ vec_len out.old + 8 }
    ensures capacity { vec_capacity out.old ≤ vec_capacity out.new }
{
    out.extend_from_slice(&value.to_be_bytes()).unwrap();
}
