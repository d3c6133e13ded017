//! The bytes of stubs.
ghost use Rattle.std.specs.Prelude.{◌≡◌, ◌++◌, ◌<◌, ℕ, IfOk, OnOk, Some, length};
ghost use Rattle.arm64_insn.specs.Low12.{IsWholeSteps};
ghost use Rattle.arm64_insn.specs.Page.{IsPageDelta};
ghost use Rattle.image_read.specs.Reaches as reaches;
ghost use Rattle.mo_bytes.specs.Number.{number_bytes};
ghost use Rattle.slot_place.specs.Places.{HaveRoom};
ghost use Rattle.slot_place.specs.Stubs as spec;
ghost use Rattle.slot_place.specs.Stubs.{AreReached};

use crate::places::{SlotStarts, slot_address};
use arm64_insn::{put_low12, put_page};
use mo_types::{Goal, OutOfMemory};
use slot_plan::{Slots, Way};
use std::alloc::Global;

const ADRP_X16: u32 = 0x9000_0010;

const LDR_X16: u32 = 0xf940_0210;

const BR_X16: u32 = 0xd61f_0200;

/// The bytes of a stub: three instructions.
const STUB_SIZE: usize = 12;

/// How the number of an address's page is found: pages have 2 to this power bytes.
const PAGE_BITS: u32 = 12;

#[tactic(auto, unfolding(mo_bytes::specs::Number::number_bytes))]
fn put_word(out: &mut Vec<u8>, word: u32) -> Result<(), OutOfMemory>
    ensures { OnOk result (out.new.items ≡ out.old.items ++ number_bytes 4 word) }
{
    out.extend_from_slice(&word.to_le_bytes())?;
    Ok(())
}

#[tactic(auto, unfolding(crate::specs::Stubs::pages_between))]
fn pages_between(from: u64, to: u64) -> i64
    ensures { result ≡ spec.pages_between from to }
{
    (to >> PAGE_BITS) as i64 - (from >> PAGE_BITS) as i64
}

// Appends two instructions and `br x16`.
#[tactic(auto, using(crate::proofs::StubLemmas::appends))]
fn put_way(out: &mut Vec<u8>, first: u32, second: u32) -> Result<(), OutOfMemory>
    ensures { OnOk result (out.new.items ≡ out.old.items ++ (number_bytes 4 first ++ (number_bytes 4 second ++ number_bytes 4 reaches.BR_X16))) }
{
    put_word(out, first)?;
    put_word(out, second)?;
    put_word(out, BR_X16)
}

// Appends the stub at an address that loads a slot.
#[tactic(auto, unfolding(crate::specs::Stubs::stub_bytes))]
fn put_stub(out: &mut Vec<u8>, at: u64, slot: u64) -> Result<(), OutOfMemory>
    requires pages { IsPageDelta (spec.pages_between at slot) }
    requires whole { IsWholeSteps reaches.LDR_X16 slot }
    ensures { OnOk result (out.new.items ≡ out.old.items ++ spec.stub_bytes at slot) }
{
    let Some(adrp) = put_page(ADRP_X16, pages_between(at, slot)) else {
        unreachable!()
    };
    let Some(ldr) = put_low12(LDR_X16, slot) else {
        unreachable!()
    };
    put_way(out, adrp, ldr)
}

// Appends the stub of a number, which loads the slot of its goal, where stubs begin at an address.
fn put_numbered(
    out: &mut Vec<u8>,
    starts: SlotStarts,
    slots: &Slots,
    start: u64,
    number: usize,
    goal: &Goal,
) -> Result<(), OutOfMemory>
    requires room { HaveRoom starts slots.now }
    requires reached { (base : ℕ) × AreReached base starts slots.now }
    requires start { starts.stubs ≡ Some start }
    requires number { number < length slots.now.stubs }
    ensures { OnOk result (out.new.items ≡ out.old.items ++ spec.stub_of starts slots.now start (number, goal.now)) }
{
    match slot_address(starts, slots, Way::Got, goal) {
        Some(slot) => put_stub(out, start + 12 * number as u64, slot),
        None => Ok(()),
    }
}

// The stubs of a section that begins at an address.
fn stubs_from(
    alloc: Global,
    starts: SlotStarts,
    slots: &Slots,
    start: u64,
) -> Result<Vec<u8>, OutOfMemory>
    requires room { HaveRoom starts slots.now }
    requires reached { (base : ℕ) × AreReached base starts slots.now }
    requires start { starts.stubs ≡ Some start }
    ensures { IfOk result (λ bytes. bytes.items ≡ spec.stubs_from starts slots.now start) }
{
    let goals = slots.stubs.as_slice();
    let mut bytes = Vec::with_capacity(alloc, goals.len() * STUB_SIZE)?;
    for (number, goal) in goals.iter().enumerate() {
        put_numbered(&mut bytes, starts, slots, start, number, goal)?;
    }
    Ok(bytes)
}

/// The bytes of the stubs of an image, of 12 each: a stub loads the slot of its goal in the global offset table and
/// branches there (ld(1)). None where the image has no section for them. Stubs and slots are to be within 2^32 bytes from
/// the start of the image, and slots at multiples of 8.
#[tactic(auto, unfolding(crate::specs::Stubs::stubs_bytes))]
pub fn stub_bytes(alloc: Global, starts: SlotStarts, slots: &Slots) -> Result<Vec<u8>, OutOfMemory>
    requires room { HaveRoom starts slots.now }
    requires reached { (base : ℕ) × AreReached base starts slots.now }
    ensures { IfOk result (λ bytes. bytes.items ≡ spec.stubs_bytes starts slots.now) }
{
    match starts.stubs {
        Some(start) => stubs_from(alloc, starts, slots, start),
        None => Ok(Vec::new(alloc)),
    }
}
