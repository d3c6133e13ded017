//! Places everything, one behind the other.
ghost use Rattle.std.specs.Prelude.{◌≡◌, ◌+◌, ◌-◌, ◌*◌, ◌<◌, ◌≤◌, ◌^◌, ◌++◌, ◌==◌, ◌&&◌, not, All, IfOk, length, map, if◌then◌else◌};
ghost use Rattle.std.specs.List.{find};
ghost use Rattle.std.specs.List.Sorted.{IsStrictlySortedBy};
ghost use Rattle.std.specs.Option.{option_copied};
ghost use Rattle.std.specs.Ordering.{on, is_eq};
ghost use Rattle.mo_types.specs.Keys.{compare_keys};
ghost use Rattle.mo_types.specs.Whole as whole;
ghost use Rattle.mo_types.specs.declared.atom.Atom.{Atom};
ghost use Rattle.tlv_plan.specs.Template.{stand, end_of};
ghost use Rattle.sect_place.specs.declared.island.IslandArea.{IslandArea};
ghost use Rattle.sect_place.specs.declared.part.Group.{Group};
ghost use Rattle.sect_place.specs.declared.part.Part.{Part};
ghost use Rattle.sect_place.specs.Places as spec;
ghost use Rattle.sect_place.specs.inner.Room.{IsRoom, capped_place, capped_section, capped_segment};

use crate::island::IslandArea;
use crate::layout::{Placed, PlacedSection, Segment};
use crate::part::{Group, Part};
use crate::wide::{cap, cap_count, up, widened};
use atom_index::is_same;
use mo_format::loader::{
    S_THREAD_LOCAL_ZEROFILL, S_ZEROFILL, SG_READ_ONLY, VM_PROT_EXECUTE, VM_PROT_READ, VM_PROT_WRITE,
};
use mo_types::{Atom, AtomKey, Bytes, OutOfMemory, OutSection, compare_atoms};
use std::alloc::Global;

/// Which atoms there are, and what stands behind them.
#[derive(Clone, Copy)]
pub(crate) struct Room<'a> {
    pub kept: &'a [Atom],
    pub areas: &'a [IslandArea],
    /// Areas are multiples of 2 to this power.
    pub unit: u8,
}

// Of places, fewer than 2^58 lie in memory.
fn placed_are_few(placed: &[Placed])
    ensures { length placed.now < 2 ^ 58 }
{
    let _ = placed;
}

// And of sections fewer than 2^57.
fn sections_are_few(sections: &[PlacedSection])
    ensures { length sections.now < 2 ^ 57 }
{
    let _ = sections;
}

// Appends where the atoms of some keys stand from a place on, and answers where the last one ends. Each takes fewer than
// 15 * 2^64 bytes, with the area behind it.
fn place_atoms(
    placed: &mut Vec<Placed>,
    room: &Room,
    from: u128,
    keys: &[AtomKey],
) -> Result<u128, OutOfMemory>
    requires room { IsRoom room.now.kept.now room.now.areas.now room.now.unit }
    requires reach { from ≤ 2 ^ 125 + 2 ^ 123 + length placed.old.items * (15 * 2 ^ 64) }
    requires small { from < 2 ^ 127 }
    ensures places { IfOk result (λ end. placed.new.items ≡ placed.old.items
        ++ map capped_place (spec.places (stand from (spec.spaced room.now.kept.now room.now.areas.now room.now.unit keys.now)))) }
    ensures end { IfOk result (λ end. end ≡ end_of from (spec.spaced room.now.kept.now room.now.areas.now room.now.unit keys.now)) }
    ensures reach { IfOk result (λ end. end + length placed.old.items * (15 * 2 ^ 64) ≤ from + length placed.new.items * (15 * 2 ^ 64)) }
    ensures small { IfOk result (λ end. end < 2 ^ 127) }
{
    let mut at = from;
    let mut near = 0;
    for key in keys {
        let (found, next) = find_near(room.kept, near, key);
        near = next;
        match found {
            Some(atom) => {
                placed_are_few(placed.as_slice());
                let place = up(at, atom.align);
                let size = widened(atom.size) + bytes_behind(room.areas, room.unit, key);
                placed.push(Placed {
                    atom: *key,
                    address: cap(place),
                })?;
                at = place + size;
            }
            None => {}
        }
    }
    Ok(at)
}

// The kept atom with a key, which is looked for at a place first, and the place behind it.
fn find_near(kept: &[Atom], near: usize, key: &AtomKey) -> (Option<Atom>, usize)
    requires { IsStrictlySortedBy (on (λ (atom : Atom). atom.key) compare_keys) kept.now }
    ensures { result.0 ≡ find (λ atom. is_eq (compare_keys atom.key key.now)) kept.now }
{
    if near < kept.len() {
        let atom = kept[near];
        if is_same(&atom.key, key) {
            return (Some(atom), near + 1);
        }
    }
    match kept.binary_search_by(|atom| compare_atoms(&atom.key, key)) {
        Ok(at) => (Some(kept[at]), at + 1),
        Err(at) => (None, at),
    }
}

// How many bytes the area behind an atom has.
fn bytes_behind(areas: &[IslandArea], unit: u8, key: &AtomKey) -> u128
    requires areas { IsStrictlySortedBy (on (λ (area : IslandArea). area.last) compare_keys) areas.now }
    requires unit { unit ≤ 14 }
    ensures exact { result ≡ spec.bytes_behind areas.now unit key.now }
    ensures small { result < 13 * 2 ^ 64 }
{
    match find_area(areas, key) {
        Some(area) => area_bytes(unit, area.targets.len()),
        None => 0,
    }
}

// How many bytes an area of so many islands has.
pub(crate) fn area_bytes(unit: u8, count: usize) -> u128
    requires { unit ≤ 14 }
    ensures exact { result ≡ spec.islands_bytes unit count }
    ensures small { result < 13 * 2 ^ 64 }
{
    if count == 0 {
        return 0;
    }
    up(3 + 12 * count as u128, unit)
}

// The area behind an atom.
fn find_area<'a>(areas: &'a [IslandArea], key: &AtomKey) -> Option<&'a IslandArea>
    requires { IsStrictlySortedBy (on (λ (area : IslandArea). area.last) compare_keys) areas.now }
    ensures { option_copied result ≡ find (λ area. is_eq (compare_keys area.last key.now)) areas.now }
{
    match areas.binary_search_by(|area| compare_atoms(&area.last, key)) {
        Ok(at) => Some(&areas[at]),
        Err(_) => None,
    }
}

// Where the sections of a segment end, in memory and in the file.
#[derive(Clone, Copy)]
struct Ends {
    memory: u128,
    file: u128,
}

// Appends where the sections of a segment stand, and their atoms. The segment begins at `start`, and in the file at
// `file`; its sections begin at `from`. Each takes fewer than 2^65 bytes beside its atoms.
fn place_parts(
    sections: &mut Vec<PlacedSection>,
    placed: &mut Vec<Placed>,
    room: &Room,
    start: u128,
    file: u128,
    from: u128,
    parts: Vec<Part>,
) -> Result<Ends, OutOfMemory>
    requires room { IsRoom room.now.kept.now room.now.areas.now room.now.unit }
    requires low { All (λ (part : Part). part.section.align ≤ 14) parts.items }
    requires begins { start ≤ from }
    requires file { file ≤ start }
    requires reach { from ≤ 2 ^ 125 + length sections.old.items * 2 ^ 65 + length placed.old.items * (15 * 2 ^ 64) }
    ensures sections { IfOk result (λ ends. sections.new.items ≡ sections.old.items
        ++ map capped_section (spec.parts_sections (spec.spaced room.now.kept.now room.now.areas.now room.now.unit) start file from parts.items)) }
    ensures places { IfOk result (λ ends. placed.new.items ≡ placed.old.items
        ++ map capped_place (spec.parts_places (spec.spaced room.now.kept.now room.now.areas.now room.now.unit) from parts.items)) }
    ensures memory { IfOk result (λ ends. ends.memory ≡ spec.parts_end (spec.spaced room.now.kept.now room.now.areas.now room.now.unit) from parts.items) }
    ensures file { IfOk result (λ ends. ends.file ≡ spec.parts_filled (spec.spaced room.now.kept.now room.now.areas.now room.now.unit) from from parts.items) }
    ensures reach { IfOk result (λ ends. ends.memory + length sections.old.items * 2 ^ 65 + length placed.old.items * (15 * 2 ^ 64)
        ≤ from + length sections.new.items * 2 ^ 65 + length placed.new.items * (15 * 2 ^ 64)) }
{
    let mut at = from;
    let mut filled = from;
    for part in parts {
        let Part { section, fixed } = part;
        sections_are_few(sections.as_slice());
        placed_are_few(placed.as_slice());
        let address = up(at, section.align);
        let atoms_end = place_atoms(placed, room, address, section.atoms.as_slice())?;
        let end = atoms_end + widened(fixed);
        filled = filled_to(section.kind, address, end, filled);
        sections.push(section_at(section, start, file, address, end))?;
        at = end;
    }
    Ok(Ends {
        memory: at,
        file: filled,
    })
}

// Where what has bytes in the file ends, with a section more.
fn filled_to(kind: u8, address: u128, end: u128, filled: u128) -> u128
    ensures { result ≡ (if not (whole.is_zerofill kind) && not (end == address) then end else filled) }
{
    if !is_zerofill(kind) && end != address {
        end
    } else {
        filled
    }
}

// A section from an address to its end, in the segment that begins at `start`, and in the file at `file`.
fn section_at(
    section: OutSection,
    start: u128,
    file: u128,
    address: u128,
    end: u128,
) -> PlacedSection
    requires begins { start ≤ address }
    requires ends { address ≤ end }
    requires file { file ≤ start }
    ensures { result ≡ capped_section (record {
      section = section;
      address = address;
      size = end - address;
      file_offset = (if whole.is_zerofill section.kind then 0 else file + (address - start));
    }) }
{
    let offset = offset_of(section.kind, file + (address - start));
    PlacedSection {
        section,
        address: cap(address),
        size: cap(end - address),
        file_offset: cap(offset),
    }
}

// A section's place in the file, if it has bytes there.
fn offset_of(kind: u8, at: u128) -> u128
    ensures { result ≡ (if whole.is_zerofill kind then 0 else at) }
{
    if is_zerofill(kind) { 0 } else { at }
}

/// Whether sections of a type have no bytes in the file (`loader.h`: S_ZEROFILL, S_THREAD_LOCAL_ZEROFILL).
pub fn is_zerofill(kind: u8) -> bool
    ensures { result ≡ whole.is_zerofill kind }
{
    let kind = u32::from(kind);
    kind == S_ZEROFILL || kind == S_THREAD_LOCAL_ZEROFILL
}

/// Where everything stands, and where it ends in memory and in the file.
#[derive(Drop)]
pub(crate) struct Laid {
    pub segments: Vec<Segment>,
    pub sections: Vec<PlacedSection>,
    pub placed: Vec<Placed>,
    pub end: u128,
    pub file: u128,
}

// Where segments stand from a place on, behind others, with their sections and atoms. The first one's sections begin
// `lead` bytes behind its start.
pub(crate) fn place_groups(
    alloc: Global,
    room: &Room,
    before: Vec<Segment>,
    base: u128,
    lead: u128,
    groups: Vec<Group>,
) -> Result<Laid, OutOfMemory>
    requires room { IsRoom room.now.kept.now room.now.areas.now room.now.unit }
    requires low { All (λ (group : Group). All (λ (part : Part). part.section.align ≤ 14) group.parts) groups.items }
    requires near { base + lead < 2 ^ 124 + 2 ^ 123 }
    ensures segments { IfOk result (λ laid. laid.segments.items ≡ before.items
        ++ map capped_segment (spec.groups_segments (spec.spaced room.now.kept.now room.now.areas.now room.now.unit) base 0 lead groups.items)) }
    ensures sections { IfOk result (λ laid. laid.sections.items
        ≡ map capped_section (spec.groups_sections (spec.spaced room.now.kept.now room.now.areas.now room.now.unit) base 0 lead groups.items)) }
    ensures places { IfOk result (λ laid. laid.placed.items ≡ map capped_place
        (spec.groups_places (spec.spaced room.now.kept.now room.now.areas.now room.now.unit) base lead groups.items)) }
    ensures end { IfOk result (λ laid. laid.end ≡ spec.groups_end (spec.spaced room.now.kept.now room.now.areas.now room.now.unit) base lead groups.items) }
    ensures file { IfOk result (λ laid. laid.file ≡ spec.groups_file
        (spec.spaced room.now.kept.now room.now.areas.now room.now.unit) base 0 lead groups.items) }
    ensures small { IfOk result (λ laid. laid.end < 2 ^ 127) }
{
    let mut segments = before;
    let mut sections = Vec::new(alloc);
    let mut placed = Vec::with_capacity(alloc, room.kept.len())?;
    let mut at = base;
    let mut file = 0;
    let mut lead = lead;
    for group in groups {
        let Group { name, parts } = group;
        let count = parts.len();
        let from = at + lead;
        let parts = parts.into_vec();
        let ends = place_parts(&mut sections, &mut placed, room, at, file, from, parts)?;
        sections_are_few(sections.as_slice());
        placed_are_few(placed.as_slice());
        let next = up(ends.memory, 14);
        let file_end = up(ends.file, 14);
        let bytes = file_end - at;
        segments.push(segment_at(name, at, next, file, bytes, count))?;
        at = next;
        file += bytes;
        lead = 0;
    }
    Ok(Laid {
        segments,
        sections,
        placed,
        end: at,
        file,
    })
}

// A segment from one place to another, and in the file from `file` on.
fn segment_at(name: Bytes, at: u128, next: u128, file: u128, bytes: u128, count: usize) -> Segment
    requires { at ≤ next }
    ensures { result ≡ capped_segment (record {
      name = name;
      address = at;
      vmsize = next - at;
      file_offset = file;
      file_size = bytes;
      protection = spec.protection_of name;
      flags = spec.flags_of name;
      sections = count;
    }) }
{
    let protection = if name.as_slice() == b"__TEXT".as_slice() {
        VM_PROT_READ | VM_PROT_EXECUTE
    } else {
        VM_PROT_READ | VM_PROT_WRITE
    };
    let flags = if name.as_slice() == b"__DATA_CONST".as_slice() {
        SG_READ_ONLY
    } else {
        0
    };
    Segment {
        name,
        address: cap(at),
        vmsize: cap(next - at),
        file_offset: cap(file),
        file_size: cap(bytes),
        protection,
        flags,
        sections: cap_count(count),
    }
}
