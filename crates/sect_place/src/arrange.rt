ghost use Rattle.std.specs.Prelude.{◌≡◌, ◌+◌, ◌*◌, ◌<◌, ◌≤◌, ◌^◌, ◌++◌, IfOk, OnOk, length};
ghost use Rattle.sect_place.specs.Arrangement as arrangement;

use crate::part::{Choice, Group, Made, Part, PartList, is_in};
use mo_types::{Bytes, KeyList, OutOfMemory, OutSection};
use std::alloc::Global;
use std::mem;

/// The bytes of the linker's own sections.
#[derive(Clone, Copy, Debug, PartialEq, Eq)]
pub(crate) struct MadeSizes {
    pub stubs: u64,
    pub unwind: u64,
    pub got: u64,
    pub tlv: u64,
}

// All sections of the image, segment by segment.
#[tactic(auto, unfolding(crate::specs::Arrangement::groups_of))]
pub(crate) fn arrange(
    alloc: Global,
    sections: &[OutSection],
    sizes: MadeSizes,
) -> Result<Vec<Group>, OutOfMemory>
    ensures { IfOk result (λ groups. groups.items ≡ arrangement.groups_of sections.now
        (record { stubs = sizes.stubs; unwind = sizes.unwind; got = sizes.got; tlv = sizes.tlv })) }
{
    let mut groups = Vec::new(alloc);
    groups.push(Group {
        name: Bytes::from_static(b"__TEXT"),
        parts: text_parts(alloc, sections, sizes)?,
    })?;
    let constant = constant_parts(alloc, sections, sizes)?;
    add_group(&mut groups, Bytes::from_static(b"__DATA_CONST"), constant)?;
    let writable = writable_parts(alloc, sections, sizes)?;
    add_group(&mut groups, Bytes::from_static(b"__DATA"), writable)?;
    let mut others = Vec::new(alloc);
    add_chosen(alloc, &mut others, sections, Choice::Elsewhere)?;
    add_runs(alloc, &mut groups, others)?;
    Ok(groups)
}

#[tactic(auto, unfolding(crate::specs::Arrangement::text_parts))]
fn text_parts(
    alloc: Global,
    sections: &[OutSection],
    sizes: MadeSizes,
) -> Result<PartList, OutOfMemory>
    ensures { IfOk result (λ parts. parts ≡ arrangement.text_parts sections.now
        (record { stubs = sizes.stubs; unwind = sizes.unwind; got = sizes.got; tlv = sizes.tlv })) }
{
    let mut parts = Vec::new(alloc);
    add_chosen(alloc, &mut parts, sections, Choice::Code)?;
    add_made(alloc, &mut parts, Made::Stubs, sizes.stubs)?;
    add_chosen(alloc, &mut parts, sections, Choice::BesideCode)?;
    add_made(alloc, &mut parts, Made::UnwindInfo, sizes.unwind)?;
    Ok(PartList::from_vec(parts))
}

#[tactic(auto, unfolding(crate::specs::Arrangement::constant_parts))]
fn constant_parts(
    alloc: Global,
    sections: &[OutSection],
    sizes: MadeSizes,
) -> Result<PartList, OutOfMemory>
    ensures { IfOk result (λ parts. parts ≡ arrangement.constant_parts sections.now
        (record { stubs = sizes.stubs; unwind = sizes.unwind; got = sizes.got; tlv = sizes.tlv })) }
{
    let mut parts = Vec::new(alloc);
    add_made(alloc, &mut parts, Made::Got, sizes.got)?;
    add_chosen(alloc, &mut parts, sections, Choice::Constant)?;
    Ok(PartList::from_vec(parts))
}

#[tactic(auto, unfolding(crate::specs::Arrangement::writable_parts))]
fn writable_parts(
    alloc: Global,
    sections: &[OutSection],
    sizes: MadeSizes,
) -> Result<PartList, OutOfMemory>
    ensures { IfOk result (λ parts. parts ≡ arrangement.writable_parts sections.now
        (record { stubs = sizes.stubs; unwind = sizes.unwind; got = sizes.got; tlv = sizes.tlv })) }
{
    let mut parts = Vec::new(alloc);
    add_made(alloc, &mut parts, Made::ThreadPtrs, sizes.tlv)?;
    add_chosen(alloc, &mut parts, sections, Choice::Writable)?;
    Ok(PartList::from_vec(parts))
}

// Appends a section of the linker's own, where it has bytes.
fn add_made(alloc: Global, parts: &mut Vec<Part>, made: Made, bytes: u64) -> Result<(), OutOfMemory>
    ensures { OnOk result (parts.new.items ≡ parts.old.items ++ arrangement.own made bytes) }
{
    if bytes != 0 {
        parts.push(Part {
            section: made.section(alloc),
            fixed: bytes,
        })?;
    }
    Ok(())
}

// Appends the sections with atoms that are chosen.
fn add_chosen(
    alloc: Global,
    parts: &mut Vec<Part>,
    sections: &[OutSection],
    choice: Choice,
) -> Result<(), OutOfMemory>
    ensures { OnOk result (parts.new.items ≡ parts.old.items ++ arrangement.chosen choice sections.now) }
{
    for section in sections {
        if choice.has(section) {
            parts.push(Part {
                section: copy_of(alloc, section)?,
                fixed: 0,
            })?;
        }
    }
    Ok(())
}

// A copy of a section.
fn copy_of(alloc: Global, section: &OutSection) -> Result<OutSection, OutOfMemory>
    ensures { IfOk result (λ copy. copy ≡ section.now) }
{
    let segment = section.segment.clone()?;
    let name = section.name.clone()?;
    let keys = section.atoms.as_slice().to_vec(alloc)?;
    Ok(OutSection {
        segment,
        name,
        kind: section.kind,
        flags: section.flags,
        align: section.align,
        atoms: KeyList::from_vec(keys),
    })
}

// Appends a segment, where it has a section.
fn add_group(groups: &mut Vec<Group>, name: Bytes, parts: PartList) -> Result<(), OutOfMemory>
    ensures { OnOk result (groups.new.items ≡ groups.old.items ++ arrangement.group_named name parts) }
{
    if !parts.is_empty() {
        groups.push(Group { name, parts })?;
    }
    Ok(())
}

// Appends the segments of some sections.
fn add_runs(alloc: Global, groups: &mut Vec<Group>, parts: Vec<Part>) -> Result<(), OutOfMemory>
    ensures { OnOk result (groups.new.items ≡ groups.old.items ++ arrangement.runs parts.items) }
{
    let mut name = Bytes::new();
    let mut run = PartList::new(alloc);
    for part in parts {
        if !is_in(&part.section, name.as_slice()) {
            let next = part.section.segment.clone()?;
            let done = mem::replace(&mut run, PartList::new(alloc));
            add_group(groups, mem::replace(&mut name, next), done)?;
        }
        run.push(part)?;
    }
    add_group(groups, name, run)
}

// How many sections some segments have.
pub(crate) fn count_of(groups: &[Group]) -> u128
    ensures exact { result ≡ arrangement.parts_count groups.now }
    ensures small { result ≤ length groups.now * 2 ^ 57 }
{
    let mut count = 0;
    for group in groups {
        count += part_count(group.parts.as_slice());
    }
    count
}

// How many sections there are, of which fewer than 2^57 lie in memory.
fn part_count(parts: &[Part]) -> u128
    ensures exact { result ≡ length parts.now }
    ensures small { result < 2 ^ 57 }
{
    parts.len() as u128
}
