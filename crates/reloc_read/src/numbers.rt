//! The numbers in fields and in relocations.

ghost use Rattle.std.specs.Prelude.{◌≡◌, ◌<◌, ◌≤◌, ◌^◌, slice_index};
ghost use Rattle.mo_types.specs.Refs as refs;
ghost use Rattle.mo_types.specs.RelocationRules as rules;
ghost use Rattle.reloc_read.specs.Fields.{IsSmall};

use mo_types::FieldRange;

// The byte at a place, or 0 past the end.
fn byte_at(bytes: &[u8], at: u64) -> u8
    ensures { result ≡ slice_index bytes.now at }
{
    bytes.get(at as usize).copied().unwrap_or(0)
}

/// The number in a field, without sign.
#[tactic(auto, using(crate::proofs::NumberLemmas::numbers), unfolding(mo_types::specs::RelocationRules::field_number))]
pub fn field_number(bytes: &[u8], field: FieldRange) -> u64
    requires { IsSmall field }
    ensures value { result ≡ rules.field_number bytes.now field }
    ensures small { field.size ≡ 4 → result < 2 ^ 32 }
{
    let at = field.offset;
    let low = [
        byte_at(bytes, at),
        byte_at(bytes, at + 1),
        byte_at(bytes, at + 2),
        byte_at(bytes, at + 3),
    ];
    if field.size == 4 {
        return u64::from(u32::from_le_bytes(low));
    }
    let high = [
        byte_at(bytes, at + 4),
        byte_at(bytes, at + 5),
        byte_at(bytes, at + 6),
        byte_at(bytes, at + 7),
    ];
    u64::from_le_bytes([
        low[0], low[1], low[2], low[3], high[0], high[1], high[2], high[3],
    ])
}

/// The number in a field, in two's complement.
pub fn field_signed(bytes: &[u8], field: FieldRange) -> i64
    requires { IsSmall field }
    ensures { result ≡ refs.field_signed bytes.now field }
{
    let number = field_number(bytes, field);
    if field.size == 4 {
        i64::from((number as u32).cast_signed())
    } else {
        number.cast_signed()
    }
}

/// A number of 24 bits in two's complement.
pub fn signed_24(number: u32) -> i64
    ensures { result ≡ refs.signed_24 number }
{
    if number < 1 << 23 {
        i64::from(number)
    } else {
        -1 - i64::from(0xff_ffff_u32.saturating_sub(number))
    }
}
