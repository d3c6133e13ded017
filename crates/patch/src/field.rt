//! What the field of a reference is to hold.

ghost use Rattle.std.specs.Prelude.{◌≡◌, ◌+◌, ◌≤◌, ◌<◌, ◌^◌, pos, ◌-ℤ◌, ◌≤ℤ◌, ◌<ℤ◌, neg_ℤ, length, IfOk};
ghost use Rattle.mo_types.specs.Rows.{field_size};
ghost use Rattle.arm64_insn.specs.Branch as branch;
ghost use Rattle.arm64_insn.specs.Field.{twos_complement};
ghost use Rattle.mo_bytes.specs.Number.{number};
ghost use Rattle.patch.specs.Field as fields;
ghost use Rattle.patch.specs.inner.Writing.{is_in_reach, with_number};

use crate::met::{Met, RangeFault};
use arm64_insn::{put_branch, put_low12, put_page};
use byteorder::{ByteOrder, LittleEndian};
use mo_types::{RangeKind, RefKind};

/// The bytes that a branch reaches.
const BRANCH_REACH: i128 = 1 << 27;

/// The numbers that 32 bits hold in two's complement.
const SIGNED_32: i128 = 1 << 31;

/// How the number of an address's page is found: pages have 2 to this power bytes.
const PAGE_BITS: u32 = 12;

// The fault of a value that doesn't fit.
fn range(met: &Met, kind: RangeKind, value: i128) -> RangeFault
    ensures { result ≡ record { file_place = met.now.file_place; kind = kind; value = value } }
{
    RangeFault {
        file_place: met.file_place,
        kind,
        value,
    }
}

// What is there, or the value that doesn't fit.
fn or_range<T>(met: &Met, kind: RangeKind, value: i128, found: Option<T>) -> Result<T, RangeFault>
    ensures { result ≡ fields.or_range met.now kind value found }
{
    match found {
        Some(found) => Ok(found),
        None => Err(range(met, kind, value)),
    }
}

// The target with its addend.
#[tactic(auto, unfolding(crate::specs::Field::target_of))]
fn target_of(met: &Met) -> i128
    ensures value { result ≡ fields.target_of met.now }
    ensures least { neg_ℤ (pos (2 ^ 63)) ≤ℤ result }
    ensures greatest { result <ℤ pos (2 ^ 65) }
{
    i128::from(met.value) + i128::from(met.addend)
}

fn address_of(number: i128) -> Option<u64>
    ensures { result ≡ fields.address_of number }
{
    if number < 0 || number >= 1 << 64 {
        return None;
    }
    Some(number as u64)
}

#[tactic(auto, using(crate::proofs::FieldLemmas::tests))]
fn is_in_reach(delta: i128) -> bool
    ensures { result ≡ is_in_reach delta }
{
    -BRANCH_REACH <= delta && delta < BRANCH_REACH
}

// The word with the distance of a branch, which may be beyond 64 bits.
#[tactic(auto, using(crate::proofs::FieldLemmas::branches))]
fn branch_word(word: u32, delta: i128) -> Option<u32>
    ensures { result ≡ branch.put_branch word delta }
{
    if !is_in_reach(delta) {
        return None;
    }
    put_branch(word, delta as i64)
}

#[tactic(auto, unfolding(crate::specs::Field::branch_field))]
fn branch_field(at: u64, word: u32, met: &Met) -> Result<u64, RangeFault>
    ensures value { result ≡ fields.branch_field at word met.now }
    ensures small { IfOk result (λ field. field < 2 ^ 32) }
{
    let sum = target_of(met);
    let target = or_range(met, RangeKind::Branch, sum, address_of(sum))?;
    let delta = i128::from(target) - i128::from(at);
    let field = or_range(met, RangeKind::Branch, delta, branch_word(word, delta))?;
    Ok(u64::from(field))
}

#[tactic(auto, unfolding(crate::specs::Field::pages_between))]
fn pages_between(from: u64, to: u64) -> i64
    ensures { result ≡ fields.pages_between from to }
{
    (to >> PAGE_BITS) as i64 - (from >> PAGE_BITS) as i64
}

#[tactic(auto, unfolding(crate::specs::Field::page_field))]
fn page_field(at: u64, word: u32, met: &Met) -> Result<u64, RangeFault>
    ensures value { result ≡ fields.page_field at word met.now }
    ensures small { IfOk result (λ field. field < 2 ^ 32) }
{
    let sum = target_of(met);
    let target = or_range(met, RangeKind::Page, sum, address_of(sum))?;
    let pages = pages_between(at, target);
    let field = or_range(
        met,
        RangeKind::Page,
        i128::from(pages),
        put_page(word, pages),
    )?;
    Ok(u64::from(field))
}

// The target modulo 2^64.
#[tactic(auto, using(crate::proofs::FieldLemmas::wrapped_sum), unfolding(crate::specs::Field::wrapped_target, crate::specs::Field::target_of))]
fn wrapped_target(met: &Met) -> u64
    ensures { result ≡ fields.wrapped_target met.now }
{
    met.value.wrapping_add(met.addend.cast_unsigned())
}

// The difference modulo 2^64.
#[tactic(auto, using(crate::proofs::FieldLemmas::wrapped_less), unfolding(crate::specs::Field::wrapped_target, crate::specs::Field::difference_of))]
fn wrapped_difference(met: &Met) -> u64
    ensures { result ≡ twos_complement 64 (fields.difference_of met.now) }
{
    wrapped_target(met).wrapping_sub(met.minus)
}

#[tactic(auto, unfolding(crate::specs::Field::low12_field))]
fn low12_field(word: u32, met: &Met) -> Result<u64, RangeFault>
    ensures value { result ≡ fields.low12_field word met.now }
    ensures small { IfOk result (λ field. field < 2 ^ 32) }
{
    let target = wrapped_target(met);
    let low = i128::from(target % (1 << PAGE_BITS));
    let field = or_range(met, RangeKind::LowBits, low, put_low12(word, target))?;
    Ok(u64::from(field))
}

#[tactic(auto, using(crate::proofs::FieldLemmas::tests))]
fn is_signed_32(number: i128) -> bool
    ensures { result ≡ fields.is_signed_32 number }
{
    -SIGNED_32 <= number && number < SIGNED_32
}

// The two's complement of a number in 32 bits.
#[tactic(auto, using(crate::proofs::FieldLemmas::signed), unfolding(crate::specs::Field::signed_32))]
fn signed_32(number: i128) -> Option<u32>
    ensures { result ≡ fields.signed_32 number }
{
    if !is_signed_32(number) {
        return None;
    }
    Some((number as i32).cast_unsigned())
}

#[tactic(auto, unfolding(crate::specs::Field::signed_field))]
fn signed_field(met: &Met, kind: RangeKind, difference: i128) -> Result<u64, RangeFault>
    ensures value { result ≡ fields.signed_field kind difference met.now }
    ensures small { IfOk result (λ field. field < 2 ^ 32) }
{
    let field = or_range(met, kind, difference, signed_32(difference))?;
    Ok(u64::from(field))
}

// The target less what is subtracted from it.
#[tactic(auto, unfolding(crate::specs::Field::difference_of))]
fn difference_of(met: &Met) -> i128
    ensures { result ≡ fields.difference_of met.now }
{
    target_of(met) - i128::from(met.minus)
}

// The distance from a field to its target.
fn distance_from(at: u64, met: &Met) -> i128
    ensures { result ≡ fields.target_of met.now -ℤ pos at }
{
    target_of(met) - i128::from(at)
}

// The instruction at a place.
#[tactic(auto, unfolding(mo_bytes::specs::Number::number))]
fn word_at(bytes: &[u8], place: u64) -> u32
    requires { place + 4 ≤ length bytes.now }
    ensures { result ≡ number 4 bytes.now place }
{
    LittleEndian::read_u32(&bytes[place as usize..])
}

/// What a field is to hold, or the value that doesn't fit it.
#[tactic(auto, unfolding(crate::specs::Field::field_of, crate::specs::Field::field_by))]
pub fn field_of(bytes: &[u8], address: u64, met: &Met) -> Result<u64, RangeFault>
    requires within { met.now.place + field_size met.now.kind ≤ length bytes.now }
    requires addresses { address + length bytes.now < 2 ^ 64 }
    ensures value { result ≡ fields.field_of address bytes.now met.now }
    ensures small { IfOk result (λ field. field < 256 ^ field_size met.now.kind) }
{
    let at = address + met.place;
    match met.kind {
        RefKind::Pointer | RefKind::GotPointer => Ok(wrapped_target(met)),
        RefKind::Diff64 => Ok(wrapped_difference(met)),
        RefKind::Diff32 => signed_field(met, RangeKind::Diff32, difference_of(met)),
        RefKind::GotDelta => signed_field(met, RangeKind::GotDelta, distance_from(at, met)),
        RefKind::Branch => branch_field(at, word_at(bytes, met.place), met),
        RefKind::Page | RefKind::GotPage | RefKind::TlvPage => {
            page_field(at, word_at(bytes, met.place), met)
        }
        RefKind::PageOff | RefKind::GotPageOff | RefKind::TlvPageOff => {
            low12_field(word_at(bytes, met.place), met)
        }
    }
}

/// Writes a number into a field.
#[tactic(auto, unfolding(crate::specs::inner::Writing::with_number, mo_bytes::specs::Number::number_bytes))]
pub fn put_field(bytes: &mut [u8], met: &Met, field: u64)
    requires within { met.now.place + field_size met.now.kind ≤ length bytes.old }
    requires small { field < 256 ^ field_size met.now.kind }
    ensures { bytes.new ≡ with_number (field_size met.now.kind) met.now.place field bytes.old }
{
    let place = &mut bytes[met.place as usize..];
    match met.kind {
        RefKind::Pointer | RefKind::GotPointer | RefKind::Diff64 => {
            LittleEndian::write_u64(place, field);
        }
        _ => LittleEndian::write_u32(place, field as u32),
    }
}
