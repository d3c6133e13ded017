//! What stands in an image beside its atoms.
ghost use Rattle.std.specs.Prelude.{◌≡◌, ◌++◌, ℕ, IfOk, OnOk, Some, unwrap_or};
ghost use Rattle.std.specs.List.{enumerate_from, flat_map};
ghost use Rattle.std.specs.Option.{option_copied};
ghost use Rattle.image_make.specs.Parts as spec;
ghost use Rattle.image_make.specs.inner.PartsReady.{AreReadyParts, AreReadySlots};
ghost use Rattle.mo_bytes.specs.Number.{number_bytes};
ghost use Rattle.ref_meet.specs.Mets.{word_at};
ghost use Rattle.ref_meet.specs.Ready.{AreInOrder};
ghost use Rattle.sect_place.specs.Arrangement.{section_of};
ghost use Rattle.sect_place.specs.declared.part.Made.TheVariants.{UnwindInfo};
ghost use Rattle.slot_place.specs.Places.{HasRoom, is_made_as};

use fixup_chain::{ChainWord, WordList};
use image_join::{Part, PartList, Parts, join};
use mo_format::loader::S_REGULAR;
use mo_types::{Bytes, OutOfMemory};
use ref_meet::word_near;
use sect_place::{Layout, PlacedSection, Segment};
use slot_place::{own_section, slot_starts, stub_bytes};
use slot_plan::{SlotList, Slots, Way};
use std::alloc::Global;

/// Where the last segment begins in the file.
#[tactic(auto, unfolding(crate::specs::Parts::linkedit_offset))]
pub(crate) fn linkedit_offset(segments: &[Segment]) -> u64
    ensures { result ≡ spec.linkedit_offset segments.now }
{
    match segments.get(segments.len().saturating_sub(1)) {
        Some(last) => last.file_offset,
        None => 0,
    }
}

/// Where it begins in memory.
#[tactic(auto, unfolding(crate::specs::Parts::linkedit_address))]
pub(crate) fn linkedit_address(segments: &[Segment]) -> u64
    ensures { result ≡ spec.linkedit_address segments.now }
{
    match segments.get(segments.len().saturating_sub(1)) {
        Some(last) => last.address,
        None => 0,
    }
}

// Appends a word.
#[tactic(auto, unfolding(mo_bytes::specs::Number::number_bytes))]
fn put_word(out: &mut Vec<u8>, word: u64) -> Result<(), OutOfMemory>
    ensures { OnOk result (out.new.items ≡ out.old.items ++ number_bytes 8 word) }
{
    out.extend_from_slice(&word.to_le_bytes())?;
    Ok(())
}

// Appends the word of the slot at an address.
fn put_slot(
    out: &mut Vec<u8>,
    words: &[ChainWord],
    last: &mut usize,
    address: u64,
) -> Result<(), OutOfMemory>
    requires { AreInOrder words.now }
    ensures { OnOk result (out.new.items ≡ out.old.items ++ number_bytes 8 (unwrap_or (word_at words.now address) 0)) }
{
    put_word(out, word_near(words, last, address).unwrap_or(0))
}

// The words of slots that begin at an address.
#[tactic(auto, using(crate::proofs::SlotLemmas::slots))]
fn words_from(
    alloc: Global,
    words: &[ChainWord],
    start: u64,
    goals: &SlotList,
) -> Result<Vec<u8>, OutOfMemory>
    requires words { AreInOrder words.now }
    requires room { HasRoom 8 (Some start) goals.now }
    ensures { IfOk result (λ bytes. bytes.items ≡ flat_map (spec.slot_word words.now start) (enumerate_from 0 goals.now)) }
{
    let count = goals.as_slice().len();
    let mut bytes = Vec::with_capacity(alloc, 8 * count)?;
    let mut last = 0;
    for number in 0..count {
        put_slot(&mut bytes, words, &mut last, start + 8 * number as u64)?;
    }
    Ok(bytes)
}

// Those of a section, if the image has it.
#[tactic(auto, unfolding(crate::specs::Parts::slot_words))]
fn slot_words(
    alloc: Global,
    words: &[ChainWord],
    start: Option<u64>,
    goals: &SlotList,
) -> Result<Vec<u8>, OutOfMemory>
    requires words { AreInOrder words.now }
    requires room { HasRoom 8 start goals.now }
    ensures { IfOk result (λ bytes. bytes.items ≡ spec.slot_words words.now start goals.now) }
{
    match start {
        Some(start) => words_from(alloc, words, start, goals),
        None => Ok(Vec::new(alloc)),
    }
}

// What the linker's own section for a way holds.
#[tactic(auto, unfolding(slot_place::specs::Places::starts_of))]
fn own_bytes(
    alloc: Global,
    layout: &Layout,
    slots: &Slots,
    words: &[ChainWord],
    way: Way,
) -> Result<Vec<u8>, OutOfMemory>
    requires { AreReadySlots layout.now slots.now words.now }
    ensures { IfOk result (λ bytes. bytes.items ≡ spec.own_bytes layout.now slots.now words.now way) }
{
    let starts = slot_starts(layout);
    match way {
        Way::Got => slot_words(alloc, words, starts.got, &slots.got),
        Way::Stub => stub_bytes(alloc, starts, slots),
        Way::Tlv => slot_words(alloc, words, starts.tlv, &slots.tlv),
    }
}

// Puts that section behind other parts, if the image has it.
#[tactic(auto, unfolding(crate::specs::Parts::own_part))]
fn add_own(
    parts: &mut PartList,
    alloc: Global,
    layout: &Layout,
    slots: &Slots,
    words: &[ChainWord],
    way: Way,
) -> Result<(), OutOfMemory>
    requires { AreReadySlots layout.now slots.now words.now }
    ensures { OnOk result (parts.new ≡ parts.old ++ spec.own_part layout.now slots.now words.now way) }
{
    let Some(section) = own_section(layout.sections.as_slice(), way) else {
        return Ok(());
    };
    let bytes = own_bytes(alloc, layout, slots, words, way)?;
    parts.push(Part {
        from: section.file_offset,
        bytes: Bytes::from_vec(bytes)?,
    })?;
    Ok(())
}

// Whether a section is `__unwind_info`.
fn is_info(placed: &PlacedSection) -> bool
    ensures { result ≡ is_made_as (section_of UnwindInfo) placed.now.section }
{
    let section = &placed.section;
    section.segment.as_slice() == b"__TEXT".as_slice()
        && section.name.as_slice() == b"__unwind_info".as_slice()
        && u32::from(section.kind) == S_REGULAR
        && section.atoms.len() == 0
}

#[tactic(auto, unfolding(crate::specs::Parts::info_section))]
fn info_section(sections: &[PlacedSection]) -> Option<&PlacedSection>
    ensures { option_copied result ≡ spec.info_section sections.now }
{
    sections.iter().find(|placed| is_info(placed))
}

// Puts `__unwind_info` with its bytes behind other parts, if the image has it.
#[tactic(auto, unfolding(crate::specs::Parts::info_part))]
fn add_info(parts: &mut PartList, layout: &Layout, info: Bytes) -> Result<(), OutOfMemory>
    ensures { OnOk result (parts.new ≡ parts.old ++ spec.info_part layout.now info) }
{
    let Some(section) = info_section(layout.sections.as_slice()) else {
        return Ok(());
    };
    parts.push(Part {
        from: section.file_offset,
        bytes: info,
    })?;
    Ok(())
}

/// An image with its header and load commands, stubs, these bytes of `__unwind_info`, slots and chains, and zeros elsewhere.
pub(crate) fn blank_image(
    alloc: Global,
    layout: &Layout,
    slots: &Slots,
    info: Bytes,
    words: &[ChainWord],
    blob: Bytes,
    front: Bytes,
) -> Result<Vec<u8>, OutOfMemory>
    requires { AreReadyParts layout.now slots.now info (record { words = words.now; blob = blob }) front }
    ensures { IfOk result (λ blank. blank.items ≡ spec.blank_of layout.now slots.now info (record { words = words.now; blob = blob }) front) }
{
    let offset = linkedit_offset(layout.segments.as_slice());
    let size = offset + blob.len() as u64;
    let mut parts = PartList::new(alloc);
    parts.push(Part {
        from: 0,
        bytes: front,
    })?;
    add_own(&mut parts, alloc, layout, slots, words, Way::Stub)?;
    add_info(&mut parts, layout, info)?;
    add_own(&mut parts, alloc, layout, slots, words, Way::Got)?;
    add_own(&mut parts, alloc, layout, slots, words, Way::Tlv)?;
    parts.push(Part {
        from: offset,
        bytes: blob,
    })?;
    join(alloc, &Parts { size, parts })
}
