//! Images that are put together for plans of islands.
ghost use Rattle.std.specs.Prelude.{◌≡◌, ◌≤◌, [], All, IfOk, true};
ghost use Rattle.std.specs.List.Sorted.{IsStrictlySortedBy};
ghost use Rattle.std.specs.Ordering.{on};
ghost use Rattle.mo_types.specs.Keys.{compare_keys};
ghost use Rattle.mo_types.specs.declared.atom.Atom.{Atom};
ghost use Rattle.islands.specs.Plan as spec;

use command_line::Command;
use islands::Branch;
use mo_cmd::{UsageFault, read_all_words};
use mo_types::{
    Arg, ArgList, Atom, AtomKey, AtomList, Bytes, Goal, Object, OutOfMemory, SectionList,
    SymbolList,
};
use sect_place::{
    AreaList, IslandPlan, Layout, PlaceFault, PlaceSizes, WayList, out_sections, place,
};
use slot_plan::{Need, NeedList, Slots, Way, slots};
use std::alloc::Global;
use std::cmp::Ordering;
use test_objects::{file, file_id, key, object, only, section};

/// Functions, constants beside them, and data.
pub(crate) const CODE: u16 = 1;

pub(crate) const CONSTANT: u16 = 2;

pub(crate) const DATA: u16 = 3;

fn command_of(alloc: Global, words: &str) -> Result<Command, UsageFault> {
    let mut list = ArgList::new(alloc);
    for word in words.split(' ') {
        list.push(Arg::new(String::from_str(alloc, word)?))?;
    }
    read_all_words(alloc, &list)
}

/// The goal of a stub.
pub(crate) fn imported(number: u32) -> Goal {
    let name = match number {
        0 => Bytes::from_static(b"_a"),
        1 => Bytes::from_static(b"_b"),
        _ => Bytes::from_static(b"_c"),
    };
    Goal::Import {
        name,
        ordinal: 1,
        by_weak: false,
        optional: false,
    }
}

fn slots_of(alloc: Global, stubs: u32) -> Result<Slots, OutOfMemory> {
    let mut needs = NeedList::new(alloc);
    for number in 0..stubs {
        needs.push(Need {
            goal: imported(number),
            way: Way::Stub,
        })?;
    }
    slots(alloc, &needs)
}

// An object with a section of each kind.
fn object_of(alloc: Global) -> Result<Object, OutOfMemory> {
    let mut sections = SectionList::new(alloc);
    sections.push(section(alloc, b"__TEXT", b"__text", 0, 2, Bytes::new()))?;
    sections.push(section(alloc, b"__TEXT", b"__const", 0, 2, Bytes::new()))?;
    sections.push(section(alloc, b"__DATA", b"__data", 0, 2, Bytes::new()))?;
    Ok(object(sections, SymbolList::new(alloc)))
}

/// Whether atoms rise.
pub(crate) fn is_rising(atoms: &[Atom]) -> bool
    ensures { result ≡ true → IsStrictlySortedBy (on (λ (atom : Atom). atom.key) compare_keys) atoms.now }
{
    for i in 1..atoms.len() {
        match atoms[i - 1].key.cmp(&atoms[i].key) {
            Ordering::Less => {}
            _ => return false,
        }
    }
    true
}

/// Whether their alignments are those of pages at most.
pub(crate) fn are_low(atoms: &[Atom]) -> bool
    ensures { result ≡ true → All (λ (atom : Atom). atom.align ≤ 14) atoms.now }
{
    atoms.iter().all(|atom| atom.align <= 14)
}

// Whether a place is in an atom.
fn in_atom(kept: &[Atom], key: &AtomKey, place: u64) -> bool
    ensures { result ≡ true → spec.IsInAtom kept.now key.now place }
{
    for atom in kept {
        if atom.key == *key && place > atom.size {
            return false;
        }
    }
    true
}

fn in_goal(kept: &[Atom], goal: &Goal) -> bool
    ensures { result ≡ true → spec.IsInGoal kept.now goal.now }
{
    match goal {
        Goal::Def(key, offset) => in_atom(kept, key, *offset),
        Goal::WeakSelf(_name, key, offset) => in_atom(kept, key, *offset),
        Goal::Header | Goal::Import { .. } | Goal::Flat(_) | Goal::Nobody => true,
    }
}

fn is_within(kept: &[Atom], branch: &Branch) -> bool
    ensures { result ≡ true → spec.IsInAtoms kept.now branch.now }
{
    in_atom(kept, &branch.atom, branch.place) && in_goal(kept, &branch.target.goal)
}

/// Whether branches stand in their atoms, and go into some.
pub(crate) fn are_within(kept: &[Atom], branches: &[Branch]) -> bool
    ensures { result ≡ true → All (spec.IsInAtoms kept.now) branches.now }
{
    for branch in branches {
        if !is_within(kept, branch) {
            return false;
        }
    }
    true
}

/// The layout without islands of atoms of one file, with so many stubs.
pub(crate) fn laid(alloc: Global, kept: &AtomList, stubs: u32) -> Result<Layout, PlaceFault>
    requires rises { IsStrictlySortedBy (on (λ (atom : Atom). atom.key) compare_keys) kept.now }
    requires low { All (λ (atom : Atom). atom.align ≤ 14) kept.now }
    ensures { IfOk result (spec.IsWithoutIslands kept.now) }
{
    let slots = slots_of(alloc, stubs)?;
    let command = command_of(alloc, "-o out main.o");
    match &command {
        Ok(command) => placed(alloc, kept, &slots, command),
        Err(_) => Err(PlaceFault::OutOfMemory),
    }
}

fn placed(
    alloc: Global,
    kept: &AtomList,
    slots: &Slots,
    command: &Command,
) -> Result<Layout, PlaceFault>
    requires rises { IsStrictlySortedBy (on (λ (atom : Atom). atom.key) compare_keys) kept.now }
    requires low { All (λ (atom : Atom). atom.align ≤ 14) kept.now }
    ensures { IfOk result (spec.IsWithoutIslands kept.now) }
{
    let loaded = only(alloc, file(alloc, file_id(0), object_of(alloc)?))?;
    let sections = out_sections(alloc, &loaded, kept)?;
    let islands = IslandPlan {
        areas: AreaList::new(alloc),
        ways: WayList::new(alloc),
    };
    let sizes = PlaceSizes {
        commands: 80,
        unwind: 0,
    };
    place(alloc, kept, &sections, slots, &islands, &sizes, command)
}

/// An atom of the file: its section, its offset there and its size.
pub(crate) fn atom(section: u16, offset: u64, size: u64) -> Atom {
    test_objects::atom(key(0, section, offset), size, 2)
}
