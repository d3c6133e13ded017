//! The immediate fields of the arm64 instructions that a linker patches, written and read.
//!
//! This crate writes and reads the immediate fields that a linker patches in arm64 instructions, named as in the Arm
//! Architecture Reference Manual. `put_branch`, `put_page` and `put_low12` give `None` exactly where the field can't
//! hold the number; each leaves every bit outside its field as it was, what it wrote is read back by `branch_of`,
//! `page_of` and `low12_of`, and of two writes the last counts. What is read from any word can be written back
//! unchanged where it is in form. No call takes memory or loops.
//!
//! A field of a word is defined in `specs/Field.antt`, and the immediates in `specs/Branch.antt`, `specs/Page.antt`
//! and `specs/Low12.antt`.
//!
//! Refused are a body that takes a branch out of reach by its lowest bits, one that reads the low bits of an access
//! without their scale, and one that exchanges the two parts of a page.
#![tactic(auto)]

ghost use Rattle.std.specs.Prelude.{◌≡◌, ◌%◌, ◌^◌, ◌<◌, ◌≤◌, ◌==◌, ℕ, ℤ, Some, IfSome};
ghost use Rattle.std.specs.Option.{SomeIff};
ghost use Rattle.arm64_insn.specs.Field.{SameBits};
ghost use Rattle.arm64_insn.specs.Branch.{IsBranchDelta, is_branch_delta, branch_word, put_branch, branch_of};
ghost use Rattle.arm64_insn.specs.Page.{IsPageDelta, is_page_delta, page_word, put_page, page_of};
ghost use Rattle.arm64_insn.specs.Low12.{IsWholeSteps, imm12_scale, low12_word, put_low12, low12_of, is_unsigned_offset, is_128_bits};

mod field;

use field::{BitField, sign_extended, twos_complement};

/// Bits 0 to 25 of `B` and `BL`: a signed distance in words of 4 bytes.
const IMM26: BitField = BitField { low: 0, width: 26 };

/// Bits 5 to 23 of `ADRP`: the upper 19 bits of a signed distance in pages.
const IMMHI: BitField = BitField { low: 5, width: 19 };

/// Bits 29 and 30 of `ADRP`: the low 2 bits of that distance.
const IMMLO: BitField = BitField { low: 29, width: 2 };

/// The bits of immhi:immlo.
const PAGE_BITS: u32 = 21;

/// Bits 10 to 21 of `ADD` (immediate), and of a load or store with an unsigned offset.
const IMM12: BitField = BitField { low: 10, width: 12 };

/// Bits 27 to 29, 111 in the loads and stores of one register.
const LOAD_STORE: BitField = BitField { low: 27, width: 3 };

/// Bits 24 and 25 of such a load or store, 01 where its offset is unsigned.
const ADDRESSING: BitField = BitField { low: 24, width: 2 };

/// size, bits 30 and 31 of such a load or store.
const SIZE: BitField = BitField { low: 30, width: 2 };

/// V, bit 26 of such a load or store: the register is one of SIMD and floating point.
const VECTOR: BitField = BitField { low: 26, width: 1 };

/// The upper bit of opc, bit 23 of such a load or store.
const OPC_HIGH: BitField = BitField { low: 23, width: 1 };

/// The bytes that a branch reaches backwards; forwards it reaches 4 bytes less.
const BRANCH_REACH: i64 = 1 << 27;

/// The pages that `ADRP` reaches backwards; forwards it reaches one page less.
const PAGE_REACH: i64 = 1 << 20;

/// Writes the distance of a branch, in bytes, into imm26 of `B` or `BL`.
///
/// `None` where the field can't hold it: `delta` is to be a multiple of 4 from -2^27 to 2^27 - 4.
/// Arm Architecture Reference Manual, "B" and "BL".
pub fn put_branch(word: u32, delta: i64) -> Option<u32>
    ensures written { result ≡ put_branch word delta }
    ensures in_reach { SomeIff result (IsBranchDelta delta) (branch_word word delta) }

    ensures read_back { IfSome result (λ new. branch_of new ≡ delta) }
    ensures others { IfSome result (SameBits 26 32 word) }
    ensures last { IfSome result (λ new. (later : ℤ) → put_branch new later ≡ put_branch word later) }
{
    if !is_branch_delta(delta) {
        return None;
    }
    Some(IMM26.write(word, twos_complement(delta >> 2, IMM26.width)))
}

/// The distance in bytes that imm26 of `B` or `BL` holds.
pub fn branch_of(word: u32) -> i64
    ensures value { result ≡ branch_of word }
    ensures in_reach { IsBranchDelta result }
    ensures written_back { put_branch word result ≡ Some word }
{
    sign_extended(IMM26.read(word), IMM26.width) * 4
}

/// Writes a distance in pages of 4,096 bytes into immhi:immlo of `ADRP`.
///
/// `None` where the field can't hold it: `pages` is to be from -2^20 to 2^20 - 1.
/// Arm Architecture Reference Manual, "ADRP".
pub fn put_page(word: u32, pages: i64) -> Option<u32>
    ensures written { result ≡ put_page word pages }
    ensures in_reach { SomeIff result (IsPageDelta pages) (page_word word pages) }

    ensures read_back { IfSome result (λ new. page_of new ≡ pages) }
    ensures others { IfSome result (λ new. SameBits 0 5 word new × SameBits 24 29 word new × SameBits 31 32 word new) }
    ensures last { IfSome result (λ new. (later : ℤ) → put_page new later ≡ put_page word later) }
{
    if !is_page_delta(pages) {
        return None;
    }
    let imm = twos_complement(pages, PAGE_BITS);
    Some(IMMLO.write(IMMHI.write(word, imm >> 2), imm & 0b11))
}

/// The distance in pages of 4,096 bytes that immhi:immlo of `ADRP` holds.
pub fn page_of(word: u32) -> i64
    ensures value { result ≡ page_of word }
    ensures in_reach { IsPageDelta result }
    ensures written_back { put_page word result ≡ Some word }
{
    sign_extended(IMMHI.read(word) << 2 | IMMLO.read(word), PAGE_BITS)
}

/// Writes the low 12 bits of an address into imm12 of `ADD` (immediate), or of a load or store with an
/// unsigned offset, where the field counts in steps of the size that is loaded or stored.
///
/// `None` where those bits are no whole steps. Arm Architecture Reference Manual, "ADD (immediate)",
/// "LDR (immediate)", "LDR (immediate, SIMD&FP)" and their kin.
pub fn put_low12(word: u32, target: u64) -> Option<u32>
    ensures written { result ≡ put_low12 word target }
    ensures in_form { SomeIff result (IsWholeSteps word target) (low12_word word target) }

    ensures read_back { IfSome result (λ new. low12_of new ≡ target % 2 ^ 12) }
    ensures others { IfSome result (λ new. SameBits 0 10 word new × SameBits 22 32 word new) }
    ensures last { IfSome result (λ new. (later : ℕ) → put_low12 new later ≡ put_low12 word later) }
{
    let low = (target & 0xfff) as u32;
    let step = 1 << imm12_scale(word);
    if low % step != 0 {
        return None;
    }
    Some(IMM12.write(word, low / step))
}

/// The bytes that imm12 of `ADD` (immediate), or of a load or store with an unsigned offset, stands for:
/// the field times the size that is loaded or stored, or the field itself.
pub fn low12_of(word: u32) -> u64
    ensures value { result ≡ low12_of word }
    ensures written_back { result < 2 ^ 12 → put_low12 word result ≡ Some word }
{
    u64::from(IMM12.read(word)) << imm12_scale(word)
}

fn is_branch_delta(delta: i64) -> bool
    ensures { result ≡ is_branch_delta delta }
{
    -BRANCH_REACH <= delta && delta < BRANCH_REACH && delta % 4 == 0
}

#[tactic(auto, using(crate::proofs::PageLemmas::page_tests))]
fn is_page_delta(pages: i64) -> bool
    ensures { result ≡ is_page_delta pages }
{
    -PAGE_REACH <= pages && pages < PAGE_REACH
}

/// How imm12 counts: in steps of 2 to this power bytes.
#[tactic(auto, unfolding(crate::specs::Low12::imm12_scale))]
fn imm12_scale(word: u32) -> u32
    ensures value { result ≡ imm12_scale word }
    ensures small { result ≤ 4 }
{
    if !is_unsigned_offset(word) {
        0
    } else if is_128_bits(word) {
        4
    } else {
        SIZE.read(word)
    }
}

fn is_unsigned_offset(word: u32) -> bool
    ensures { result ≡ is_unsigned_offset word }
{
    LOAD_STORE.read(word) == 0b111 && ADDRESSING.read(word) == 0b01
}

fn is_128_bits(word: u32) -> bool
    ensures { result ≡ is_128_bits word }
{
    SIZE.read(word) == 0 && VECTOR.read(word) == 1 && OPC_HIGH.read(word) == 1
}
