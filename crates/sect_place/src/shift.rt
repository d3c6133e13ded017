//! Where atoms stand in an image with islands, found by its layout without them.
ghost use Rattle.std.specs.Prelude.{◌≡◌, ◌+◌, ◌<◌, ◌≤◌, ◌^◌, ◌++◌, All, Contains, IfOk, IfSome, IsTrue, List, None, false, length, map, true};
ghost use Rattle.std.specs.List.Sorted.{IsPartitionPoint, IsStrictlySortedBy};
ghost use Rattle.std.specs.Ordering.{on, is_lt};
ghost use Rattle.command_line.specs.declared.command.Command.{Command};
ghost use Rattle.mo_types.specs.Keys.{compare_keys};
ghost use Rattle.mo_types.specs.declared.atom.Atom.{Atom};
ghost use Rattle.mo_types.specs.declared.out_section.OutSection.{OutSection};
ghost use Rattle.slot_plan.specs.declared.list.Slots.{Slots};
ghost use Rattle.sect_place.specs.Layout.{IsLayoutOf, plan_of};
ghost use Rattle.sect_place.specs.Moved as moved;
ghost use Rattle.sect_place.specs.Places as places;
ghost use Rattle.sect_place.specs.Shifts as spec;
ghost use Rattle.sect_place.specs.declared.island.IslandArea.{IslandArea};
ghost use Rattle.sect_place.specs.declared.island.IslandPlan.{IslandPlan};
ghost use Rattle.sect_place.specs.declared.layout.PlacedSection.{PlacedSection};
ghost use Rattle.sect_place.specs.declared.shift.Step.{Step};
ghost use Rattle.sect_place.specs.declared.size.PlaceSizes.{PlaceSizes};
ghost use Rattle.sect_place.specs.inner.Around as inner;
ghost use Rattle.sect_place.specs.inner.Room.{capped};

use crate::island::{IslandArea, IslandPlan};
use crate::layout::{Layout, PlacedSection};
use crate::lookup::address;
use crate::part::{is_code, is_in};
use crate::placing::larger;
use crate::walk::area_bytes;
use crate::wide::{cap, up, widened};
use mo_types::{AtomKey, OutOfMemory, OutSection, compare_atoms};
use std::alloc::Global;
use std::marker::Model;

/// An area's atom, and the bytes of the areas before it.
#[derive(Clone, Copy, Debug, PartialEq, Eq)]
pub struct Step {
    pub last: AtomKey,
    pub before: u128,
}

/// Sections that islands move in the same way.
#[derive(Clone, Copy, Debug, PartialEq, Eq)]
pub enum Region {
    /// `__TEXT,__text` of instructions.
    Code,
    /// All of `__TEXT`.
    Text,
}

impl Region {
    // Whether it has a section.
    fn has(self, section: &OutSection) -> bool
        ensures { result ≡ spec.in_region self section.now }
    {
        match self {
            Region::Code => is_code(section),
            Region::Text => is_in(section, b"__TEXT"),
        }
    }
}

/// How far islands move what a layout without islands has: a table that is made once for many look-ups. It has one row
/// for each area.
#[derive(Debug, Drop)]
pub struct IslandShifts {
    steps: Vec<Step>,
    // In bytes, of all areas.
    all: u128,
    // In bytes, of what is behind `__TEXT`.
    pages: u128,
}

impl Model for IslandShifts {
    ghost use Rattle.sect_place.specs.Shifts.{ShiftTable};

    ghost Value = { ShiftTable };

    ghost view = { λ shifts. record { steps = shifts.steps.items; all = shifts.all; pages = shifts.pages } };
}

impl IslandShifts {
    /// How far the areas of some islands move what a layout without islands has.
    #[tactic(auto, unfolding(crate::specs::Shifts::shifts_of))]
    pub fn new(
        alloc: Global,
        layout: &Layout,
        islands: &IslandPlan,
    ) -> Result<IslandShifts, OutOfMemory>
        ensures { IfOk result (λ shifts. shifts ≡ spec.shifts_of layout.now.sections islands.now.areas) }
    {
        let sections = layout.sections.as_slice();
        let areas = islands.areas.as_slice();
        let unit = unit_in(sections);
        let mut steps = Vec::new(alloc);
        let all = add_steps(&mut steps, areas, unit)?;
        let pages = pages_moved(text_end(sections), all);
        Ok(IslandShifts { steps, all, pages })
    }
}

// The greatest alignment in `__TEXT`, at least that of an instruction.
fn unit_in(sections: &[PlacedSection]) -> u8
    ensures exact { result ≡ spec.unit_in sections.now }
    ensures low { result ≤ 14 }
{
    let mut unit = 2;
    for placed in sections {
        if is_in(&placed.section, b"__TEXT") {
            unit = larger(unit, placed.section.align);
        }
    }
    if unit < 14 { unit } else { 14 }
}

// Where the last section of `__TEXT` ends.
fn text_end(sections: &[PlacedSection]) -> u128
    ensures exact { result ≡ spec.text_end_from 0 sections.now }
    ensures small { result < 2 ^ 65 }
{
    let mut end = 0;
    for placed in sections {
        if is_in(&placed.section, b"__TEXT") {
            end = widened(placed.address) + widened(placed.size);
        }
    }
    end
}

// Of steps, fewer than 2^58 lie in memory.
fn steps_are_few(steps: &[Step])
    ensures { length steps.now < 2 ^ 58 }
{
    let _ = steps;
}

// Appends the atoms of areas, each with the bytes of the areas before it, and answers the bytes of all.
fn add_steps(steps: &mut Vec<Step>, areas: &[IslandArea], unit: u8) -> Result<u128, OutOfMemory>
    requires { unit ≤ 14 }
    ensures steps { IfOk result (λ all. steps.new.items ≡ steps.old.items ++ spec.steps_from unit 0 areas.now) }
    ensures all { IfOk result (λ all. all ≡ moved.areas_bytes unit None areas.now) }
    ensures small { IfOk result (λ all. all < 2 ^ 126) }
{
    let mut bytes = 0;
    for area in areas {
        steps.push(Step {
            last: area.last,
            before: bytes,
        })?;
        steps_are_few(steps.as_slice());
        bytes += area_bytes(unit, area.targets.len());
    }
    Ok(bytes)
}

// How far areas of so many bytes move what is behind `__TEXT`.
fn pages_moved(end: u128, bytes: u128) -> u128
    requires end { end < 2 ^ 65 }
    requires bytes { bytes < 2 ^ 126 }
    ensures { result ≡ moved.pages_moved end bytes }
{
    let without = up(end, 14);
    let with = up(end + bytes, 14);
    with.saturating_sub(without)
}

/// The address that an atom has with some islands, by the layout without them and the table of how far they move what it
/// has, or `None` exactly where the layout doesn't have the atom. An address of more than 64 bits is answered as the
/// largest. Takes no memory.
pub fn address_with(layout: &Layout, shifts: &IslandShifts, atom: AtomKey) -> Option<u64>
    ensures { (kept : List Atom) (sections : List OutSection) (slots : Slots) (islands : IslandPlan) (sizes : PlaceSizes) (command : Command)
        → moved.AreInOrder kept sections → moved.AreBehindCode kept sections islands.areas
        → IsStrictlySortedBy (on (λ (area : IslandArea). area.last) compare_keys) islands.areas
        → IsLayoutOf command (plan_of kept sections slots moved.no_islands sizes command) layout.now
        → shifts.now ≡ spec.shifts_of layout.now.sections islands.areas
        → spec.IsAddressIn (plan_of kept sections slots islands sizes command) atom result }
{
    match address(layout, atom) {
        Some(place) => {
            let bytes = bytes_to(layout.sections.as_slice(), shifts, &atom, place);
            Some(sum_to(place, bytes))
        }
        None => None,
    }
}

// How far an atom moves that stands at a place. Mostly the place tells its section.
fn bytes_to(sections: &[PlacedSection], shifts: &IslandShifts, atom: &AtomKey, place: u64) -> u128
    ensures { inner.IsShiftAt sections.now shifts.now atom.now place result }
{
    match section_around(sections, place) {
        Some(placed) => bytes_in(&placed.section, shifts, atom),
        None => bytes_by_lists(sections, shifts, atom),
    }
}

// The section in whose midst a place is, if a look at it tells.
fn section_around(sections: &[PlacedSection], place: u64) -> Option<&PlacedSection>
    ensures { IfSome result (λ p. inner.IsAround sections.now place p.now) }
{
    let before = sections.partition_point(|placed| placed.address < place);
    if before == 0 {
        return None;
    }
    let placed = &sections[before - 1];
    if is_amid(placed, place) {
        return Some(placed);
    }
    None
}

// Whether a place is in a section, and isn't its start.
fn is_amid(placed: &PlacedSection, place: u64) -> bool
    ensures { IsTrue result → (placed.now.address < place) × (place < placed.now.address + placed.now.size) }
{
    placed.address < place && widened(place) < widened(placed.address) + widened(placed.size)
}

// How far an atom of a section moves.
fn bytes_in(section: &OutSection, shifts: &IslandShifts, atom: &AtomKey) -> u128
    ensures { inner.IsShiftIn section.now shifts.now atom.now result }
{
    if is_code(section) {
        return bytes_before(shifts.steps.as_slice(), shifts.all, atom);
    }
    if is_in(section, b"__TEXT") {
        return shifts.all;
    }
    shifts.pages
}

// How far an atom moves, by the sections' lists.
fn bytes_by_lists(sections: &[PlacedSection], shifts: &IslandShifts, atom: &AtomKey) -> u128
    ensures { spec.IsShift sections.now shifts.now atom.now result }
{
    if lists(sections, Region::Code, atom) {
        return bytes_before(shifts.steps.as_slice(), shifts.all, atom);
    }
    if lists(sections, Region::Text, atom) {
        return shifts.all;
    }
    shifts.pages
}

// A place so many bytes behind another, or the largest of 64 bits.
fn sum_to(place: u64, bytes: u128) -> u64
    ensures { result ≡ capped (place + bytes) }
{
    match bytes.checked_add(u128::from(place)) {
        Some(sum) => cap(sum),
        None => u64::MAX,
    }
}

// Whether sections of a region list an atom.
fn lists(sections: &[PlacedSection], region: Region, atom: &AtomKey) -> bool
    ensures found { IsTrue result → spec.IsListed region sections.now atom.now }
    ensures missed { All (λ (p : PlacedSection). IsStrictlySortedBy compare_keys p.section.atoms) sections.now
        → spec.IsListed region sections.now atom.now → IsTrue result }
{
    for placed in sections {
        if region.has(&placed.section) && has_key(placed.section.atoms.as_slice(), atom) {
            return true;
        }
    }
    false
}

// Whether keys have one, where they are in order.
fn has_key(keys: &[AtomKey], key: &AtomKey) -> bool
    ensures found { IsTrue result → Contains keys.now key.now }
    ensures missed { IsStrictlySortedBy compare_keys keys.now → Contains keys.now key.now → IsTrue result }
{
    match keys.binary_search_by(|k| compare_atoms(k, key)) {
        Ok(_) => true,
        Err(_) => false,
    }
}

// The bytes before an atom.
fn bytes_before(steps: &[Step], all: u128, atom: &AtomKey) -> u128
    ensures { IsStrictlySortedBy (on (λ (step : Step). step.last) compare_keys) steps.now → result ≡ spec.step_before steps.now all atom.now }
{
    let at = count_before(steps, atom);
    if at < steps.len() {
        steps[at].before
    } else {
        all
    }
}

// How many steps are before an atom.
fn count_before(steps: &[Step], atom: &AtomKey) -> usize
    ensures { IsStrictlySortedBy (on (λ (step : Step). step.last) compare_keys) steps.now
        → IsPartitionPoint (λ (step : Step). is_lt (compare_keys step.last atom.now) ≡ true)
        (λ (step : Step). is_lt (compare_keys step.last atom.now) ≡ false) steps.now result }
{
    steps.partition_point(|step| is_before(&step.last, atom))
}

// Whether an atom is before another.
fn is_before(a: &AtomKey, b: &AtomKey) -> bool
    ensures { result ≡ is_lt (compare_keys a.now b.now) }
{
    compare_atoms(a, b).is_lt()
}
