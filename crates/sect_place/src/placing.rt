ghost use Rattle.std.specs.Prelude.{◌≡◌, ◌+◌, ◌-◌, ◌*◌, ◌<◌, ◌≤◌, ◌^◌, ◌++◌, ◌∷◌, [], All, IfOk, IsPermutation, MatchResult, length, max, if◌then◌else◌};
ghost use Rattle.std.specs.List.Sorted.{IsSorted, IsStrictlySortedBy};
ghost use Rattle.std.specs.Ordering.{on};
ghost use Rattle.mo_types.specs.Keys.{compare_keys};
ghost use Rattle.mo_types.specs.declared.atom.Atom.{Atom};
ghost use Rattle.mo_types.specs.declared.out_section.OutSection.{OutSection};
ghost use Rattle.sect_place.specs.Arrangement.{parts_count};
ghost use Rattle.sect_place.specs.Places as places;
ghost use Rattle.sect_place.specs.Layout as spec;
ghost use Rattle.sect_place.specs.Whole.{IsWholeLayout};
ghost use Rattle.sect_place.specs.declared.layout.Placed.{Placed};
ghost use Rattle.sect_place.specs.inner.Room.{capped};

use crate::arrange::{MadeSizes, arrange, count_of};
use crate::island::IslandPlan;
use crate::layout::{Layout, PlacedList, PlacedSectionList, Segment, SegmentList};
use crate::part::{Group, is_in};
use crate::size::{PlaceFault, PlaceSizes};
use crate::walk::{Laid, Room, place_groups};
use crate::wide::{cap, widened};
use command_line::Command;
use mo_format::loader::{VM_PROT_NONE, VM_PROT_READ};
use mo_types::{AtomList, Bytes, OutOfMemory, OutSection, OutSections};
use slot_plan::{SlotList, Slots};
use std::alloc::Global;

/// Where everything of an image stands: its segments, its sections and its atoms one behind the other, each at the
/// least place that is a multiple of its alignment and isn't below the end of what comes before (`loader.h`:
/// segment_command_64, section_64). The sections with atoms stand in the order of their list. `ImageSize` comes exactly
/// where what stands before `__LINKEDIT`, but for `__PAGEZERO`, has 2^32 bytes or more.
pub fn place(
    alloc: Global,
    kept: &AtomList,
    sections: &OutSections,
    slots: &Slots,
    islands: &IslandPlan,
    sizes: &PlaceSizes,
    command: &Command,
) -> Result<Layout, PlaceFault>
    requires rising { IsStrictlySortedBy (on (λ (atom : Atom). atom.key) compare_keys) kept.now }
    requires atoms { All (λ atom. atom.align ≤ 14) kept.now }
    requires sections { All (λ section. section.align ≤ 14) sections.now }
    requires commands { sizes.now.commands < 2 ^ 123 }
    ensures segments { IfOk result (λ layout. layout.segments
        ≡ spec.image_segments command.now (spec.plan_of kept.now sections.now slots.now islands.now sizes.now command.now)) }
    ensures sections { IfOk result (λ layout. layout.sections
        ≡ spec.image_sections (spec.plan_of kept.now sections.now slots.now islands.now sizes.now command.now)) }
    ensures places { IfOk result (λ layout. IsPermutation (spec.image_places
        (spec.plan_of kept.now sections.now slots.now islands.now sizes.now command.now)) layout.placed) }
    ensures order { IfOk result (λ layout. IsSorted (on (λ (p : Placed). p.atom) compare_keys) layout.placed) }
    ensures whole { IfOk result IsWholeLayout }
    ensures size { MatchResult result (λ layout. spec.image_size
        (spec.plan_of kept.now sections.now slots.now islands.now sizes.now command.now) < 2 ^ 32)
        (spec.IsTooLarge (spec.image_size (spec.plan_of kept.now sections.now slots.now islands.now sizes.now command.now))) }
{
    let sections = sections.as_slice();
    let groups = arrange(alloc, sections, made_sizes(slots, sizes))?;
    let lead = lead_of(groups.as_slice(), sizes, command);
    let base = base_of(command);
    let room = Room {
        kept: kept.as_slice(),
        areas: islands.areas.as_slice(),
        unit: area_unit(sections),
    };
    let before = first_segments(alloc, command.dylib)?;
    let laid = place_groups(alloc, &room, before, base, lead, groups)?;
    finished(alloc, laid, base)
}

// Where `__TEXT` begins.
fn base_of(command: &Command) -> u128
    ensures { result ≡ spec.base_of command.now }
{
    if command.dylib { 0 } else { 1 << 32 }
}

// The bytes of the linker's own sections.
fn made_sizes(slots: &Slots, sizes: &PlaceSizes) -> MadeSizes
    ensures { result ≡ record {
      stubs = 12 * length slots.now.stubs;
      unwind = sizes.now.unwind;
      got = 8 * length slots.now.got;
      tlv = 8 * length slots.now.tlv;
    } }
{
    MadeSizes {
        stubs: 12 * slot_count(&slots.stubs),
        unwind: sizes.unwind,
        got: 8 * slot_count(&slots.got),
        tlv: 8 * slot_count(&slots.tlv),
    }
}

// How many slots there are, of which fewer than 2^58 lie in memory.
fn slot_count(slots: &SlotList) -> u64
    ensures exact { result ≡ length slots.now }
    ensures small { result < 2 ^ 58 }
{
    slots.as_slice().len() as u64
}

// How many bytes stand before the first section.
#[tactic(auto, unfolding(crate::specs::Layout::lead_of))]
fn lead_of(groups: &[Group], sizes: &PlaceSizes, command: &Command) -> u128
    requires { sizes.now.commands < 2 ^ 123 }
    ensures exact { result ≡ spec.lead_of groups.now sizes.now command.now }
    ensures small { result < 2 ^ 124 }
{
    let others = if command.dylib { 1 } else { 2 };
    let segments = 72 * (groups.len() as u128 + others);
    let sections = 80 * count_of(groups);
    32 + (sizes.commands + segments + sections) + widened(u64::from(command.headerpad))
}

// The greatest alignment in `__TEXT`.
fn area_unit(sections: &[OutSection]) -> u8
    requires { All (λ section. section.align ≤ 14) sections.now }
    ensures exact { result ≡ places.area_unit sections.now }
    ensures low { result ≤ 14 }
{
    let mut unit = 2;
    for section in sections {
        if is_in(section, b"__TEXT") {
            unit = larger(unit, section.align);
        }
    }
    unit
}

// The larger of two numbers.
pub(crate) fn larger(a: u8, b: u8) -> u8
    ensures { result ≡ max a b }
{
    if a < b { b } else { a }
}

// The segments before `__TEXT`.
fn first_segments(alloc: Global, dylib: bool) -> Result<Vec<Segment>, OutOfMemory>
    ensures { IfOk result (λ segments. segments.items ≡ (if dylib then [] else spec.pagezero ∷ [])) }
{
    let mut segments = Vec::new(alloc);
    if !dylib {
        segments.push(Segment {
            name: Bytes::from_static(b"__PAGEZERO"),
            address: 0,
            vmsize: 0x1_0000_0000,
            file_offset: 0,
            file_size: 0,
            protection: VM_PROT_NONE,
            flags: 0,
            sections: 0,
        })?;
    }
    Ok(segments)
}

// The layout of what was placed, unless it is too large.
fn finished(alloc: Global, laid: Laid, base: u128) -> Result<Layout, PlaceFault>
    requires begins { base ≤ laid.end }
    requires small { laid.end < 2 ^ 127 }
    ensures segments { IfOk result (λ layout. layout.segments ≡ laid.segments.items ++ spec.linkedit (capped laid.end) (capped laid.file) ∷ []) }
    ensures sections { IfOk result (λ layout. layout.sections ≡ laid.sections.items) }
    ensures places { IfOk result (λ layout. IsPermutation laid.placed.items layout.placed) }
    ensures order { IfOk result (λ layout. IsSorted (on (λ (p : Placed). p.atom) compare_keys) layout.placed) }
    ensures size { MatchResult result (λ layout. laid.end - base < 2 ^ 32) (spec.IsTooLarge (laid.end - base)) }
{
    let size = laid.end - base;
    if size >= 1 << 32 {
        return Err(PlaceFault::ImageSize {
            value: size as i128,
        });
    }
    let Laid {
        segments,
        sections,
        placed,
        end,
        file,
    } = laid;
    let mut segments = segments;
    segments.push(Segment {
        name: Bytes::from_static(b"__LINKEDIT"),
        address: cap(end),
        vmsize: 0,
        file_offset: cap(file),
        file_size: 0,
        protection: VM_PROT_READ,
        flags: 0,
        sections: 0,
    })?;
    Ok(Layout {
        segments: SegmentList::from_vec(segments),
        sections: PlacedSectionList::from_vec(sections),
        placed: PlacedList::from_vec(alloc, placed)?,
    })
}
