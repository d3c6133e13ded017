//! The headers of sections.

ghost use Rattle.std.specs.Prelude.{◌≡◌, ◌↔◌, ◌<◌, ◌≤◌, ◌^◌, ◌++◌, IsTrue, OnOk, true};
ghost use Rattle.std.specs.List.{flat_map};
ghost use Rattle.mo_types.specs.Scan.{first_some};
ghost use Rattle.load_cmds.specs.Segments as segs;

use crate::fields::{name_field, u32_of};
use mo_format::SectionHeader;
use mo_format::loader::{
    S_NON_LAZY_SYMBOL_POINTERS, S_SYMBOL_STUBS, S_THREAD_LOCAL_VARIABLE_POINTERS,
};
use sect_place::PlacedSection;
use std::alloc::AllocError;

/// How many entries of the table of indirect symbols belong to the first ones of the linker's own sections.
#[derive(Clone, Copy, Debug, PartialEq, Eq)]
pub struct Indirect {
    /// Those of `__stubs`.
    pub stubs: u64,
    /// Those of `__got`.
    pub slots: u64,
}

// Whether a section is the linker's own one of a type.
fn is_own(kind: u32, placed: &PlacedSection) -> bool
    ensures { result ≡ segs.is_own kind placed.now }
{
    u32::from(placed.section.kind) == kind && placed.section.atoms.is_empty()
}

#[tactic(auto, unfolding(crate::specs::Segments::size_if_own))]
fn size_if_own(kind: u32, placed: &PlacedSection) -> Option<u64>
    ensures { result ≡ segs.size_if_own kind placed.now }
{
    if !is_own(kind, placed) {
        return None;
    }
    Some(placed.size)
}

// The linker's own section of a type.
#[tactic(auto, using(mo_types::proofs::Scanning::scans))]
fn first_own(kind: u32, sections: &[PlacedSection]) -> Option<u64>
    ensures { result ≡ first_some (segs.size_if_own kind) sections.now }
{
    for placed in sections {
        if let Some(size) = size_if_own(kind, placed) {
            return Some(size);
        }
    }
    None
}

// The bytes of the linker's own section of a type, or 0 where there is none.
#[tactic(auto, unfolding(crate::specs::Segments::own_size))]
fn own_size(kind: u32, sections: &[PlacedSection]) -> u64
    ensures { result ≡ segs.own_size kind sections.now }
{
    first_own(kind, sections).unwrap_or(0)
}

/// How many stubs and slots of `__got` there are.
pub fn indirect_of(sections: &[PlacedSection]) -> Indirect
    ensures stubs { result.stubs ≡ segs.stub_count sections.now }
    ensures slots { result.slots ≡ segs.slot_count sections.now }
    ensures few { (result.stubs < 2 ^ 61) × (result.slots < 2 ^ 61) }
{
    Indirect {
        stubs: own_size(S_SYMBOL_STUBS, sections) / 12,
        slots: own_size(S_NON_LAZY_SYMBOL_POINTERS, sections) / 8,
    }
}

fn first_indirect(indirect: Indirect, placed: &PlacedSection) -> u64
    requires few { (indirect.stubs < 2 ^ 61) × (indirect.slots < 2 ^ 61) }
    ensures { result ≡ segs.first_indirect indirect.stubs indirect.slots placed.now }
{
    if is_own(S_NON_LAZY_SYMBOL_POINTERS, placed) {
        indirect.stubs
    } else if is_own(S_THREAD_LOCAL_VARIABLE_POINTERS, placed) {
        indirect.stubs + indirect.slots
    } else {
        0
    }
}

fn entry_size(placed: &PlacedSection) -> u32
    ensures { result ≡ segs.entry_size placed.now }
{
    if is_own(S_SYMBOL_STUBS, placed) {
        12
    } else {
        0
    }
}

fn header_of(indirect: Indirect, placed: &PlacedSection) -> SectionHeader
    requires few { (indirect.stubs < 2 ^ 61) × (indirect.slots < 2 ^ 61) }
    ensures { result ≡ segs.section_header indirect.stubs indirect.slots placed.now }
{
    let section = &placed.section;
    SectionHeader {
        sectname: name_field(section.name.as_slice()),
        segname: name_field(section.segment.as_slice()),
        addr: placed.address,
        size: placed.size,
        offset: u32_of(placed.file_offset),
        align: u32::from(section.align),
        reloff: 0,
        nreloc: 0,
        flags: section.flags,
        reserved1: u32_of(first_indirect(indirect, placed)),
        reserved2: entry_size(placed),
        reserved3: 0,
    }
}

/// Appends the headers of sections.
#[tactic(auto, using(crate::proofs::Appends::putting))]
pub fn put_sections(
    out: &mut Vec<u8>,
    indirect: Indirect,
    sections: &[PlacedSection],
) -> Result<(), AllocError>
    requires few { (indirect.stubs < 2 ^ 61) × (indirect.slots < 2 ^ 61) }
    ensures bytes { OnOk result (out.new.items ≡ out.old.items ++ flat_map (segs.section_bytes indirect.stubs indirect.slots) sections.now) }
{
    for placed in sections {
        header_of(indirect, placed).write(out)?;
    }
    Ok(())
}
