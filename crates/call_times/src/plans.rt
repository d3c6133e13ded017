//! Plans the islands of an image.
ghost use Rattle.std.specs.Prelude.{◌≡◌, ◌≤◌, All, IfOk, true};
ghost use Rattle.std.specs.List.{AllPairs};
ghost use Rattle.std.specs.List.Sorted.{IsStrictlySortedBy};
ghost use Rattle.std.specs.Ordering.{on};
ghost use Rattle.mo_types.specs.Keys.{compare_keys};
ghost use Rattle.mo_types.specs.Loaded.{IsBefore};
ghost use Rattle.mo_types.specs.declared.atom.Atom.{Atom};
ghost use Rattle.mo_types.specs.declared.loaded.LoadedFile.{LoadedFile};
ghost use Rattle.islands.specs.Plan as spec;

use crate::given::command;
use crate::order::{atoms_are_low, atoms_rise};
use anyhow::{Result, bail};
use command_line::Command;
use islands::{Branch, BranchList, hop, plan};
use mo_types::{
    Atom, AtomKey, AtomList, Bytes, Goal, Loaded, OutOfMemory, SectionList, SymbolList,
};
use sect_list::out_sections;
use sect_place::{
    AreaList, BranchTarget, IslandPlan, Layout, PlaceFault, PlaceSizes, WayList, place,
};
use slot_plan::{NeedList, Slots, slots};
use std::alloc::Global;
use std::time::Instant;
use test_objects::{file, file_id, key, object, only, section};

// The bytes of a function.
const SIZE: u64 = 200;

// How far near branches go, in functions.
const NEAR: u32 = 1000;

// The key of a function.
fn function(number: u32) -> AtomKey {
    key(0, 1, SIZE * u64::from(number))
}

fn functions(alloc: Global, count: u32) -> Result<AtomList, OutOfMemory> {
    let mut atoms = Vec::with_capacity(alloc, count as usize)?;
    for number in 0..count {
        atoms.push(test_objects::atom(function(number), SIZE, 2))?;
    }
    Ok(AtomList::from_vec(atoms))
}

fn loaded(alloc: Global) -> Result<Loaded, OutOfMemory>
    ensures { IfOk result (λ loaded. AllPairs (λ (a : LoadedFile) (b : LoadedFile). IsBefore a.id b.id) loaded.files) }
{
    let mut sections = SectionList::new(alloc);
    sections.push(section(alloc, b"__TEXT", b"__text", 0, 2, Bytes::new()))?;
    let object = object(sections, SymbolList::new(alloc));
    only(alloc, file(alloc, file_id(0), object))
}

// Where functions stand without islands.
fn placed(
    alloc: Global,
    kept: &AtomList,
    slots: &Slots,
    command: &Command,
) -> Result<Layout, PlaceFault>
    requires rises { IsStrictlySortedBy (on (λ (atom : Atom). atom.key) compare_keys) kept.now }
    requires low { All (λ (atom : Atom). atom.align ≤ 14) kept.now }
    ensures { IfOk result (spec.IsWithoutIslands kept.now) }
{
    let loaded = loaded(alloc)?;
    let sections = out_sections(alloc, &loaded, kept)?;
    let islands = IslandPlan {
        areas: AreaList::new(alloc),
        ways: WayList::new(alloc),
    };
    let sizes = PlaceSizes {
        commands: 80,
        unwind: 0,
    };
    place(alloc, kept, &sections, slots, &islands, &sizes, command)
}

// Another function of so many: each so many'th goes from the first or the last three tenths of them seven tenths on, and
// the others stay near.
fn other(number: u32, count: u32, each: u32, turn: u32) -> u32 {
    let tenth = count / 10;
    let is_far = turn == 0 && each > 0 && number % each.max(1) == 0;
    if is_far && number < 3 * tenth {
        number + 7 * tenth
    } else if is_far && number >= 7 * tenth {
        number - 7 * tenth
    } else {
        let drawn = (number ^ turn << 31)
            .wrapping_mul(0x9e37_79b1)
            .rotate_right(7)
            % NEAR;
        (number / NEAR * NEAR).wrapping_add(drawn) % count.max(1)
    }
}

// Two branches of each function, from its start to another one's.
fn branches(alloc: Global, count: u32, each: u32) -> Result<BranchList, OutOfMemory> {
    let mut list = Vec::with_capacity(alloc, 2 * count as usize)?;
    for number in 0..count {
        for turn in 0..2 {
            let target = function(other(number, count, each, turn));
            list.push(Branch {
                atom: function(number),
                place: 0,
                target: BranchTarget {
                    goal: Goal::Def(target, 0),
                    addend: 0,
                    stub: None,
                },
            })?;
        }
    }
    Ok(BranchList::from_vec(list))
}

// Whether branches go from starts of atoms to starts of atoms, and so stand in their atoms and go into some, whatever
// these are.
fn are_within(kept: &[Atom], branches: &[Branch]) -> bool
    ensures { result ≡ true → All (spec.IsInAtoms kept.now) branches.now }
{
    for branch in branches {
        if !is_within(kept, branch) {
            return false;
        }
    }
    true
}

fn is_within(kept: &[Atom], branch: &Branch) -> bool
    ensures { result ≡ true → spec.IsInAtoms kept.now branch.now }
{
    let _ = kept;
    match &branch.target.goal {
        Goal::Def(_key, offset) => branch.place == 0 && *offset == 0,
        _ => false,
    }
}

fn counted(rt: &HostRuntime, plan: &IslandPlan, branches: usize) -> Result<()> {
    let mut islands = 0usize;
    for area in plan.areas.as_slice() {
        islands = islands.saturating_add(area.targets.len());
    }
    let mut by_island = 0u32;
    for number in 0..branches.min(plan.ways.len()) {
        if hop(plan, number).is_some() {
            by_island = by_island.saturating_add(1);
        }
    }
    println!(rt;
        "{} areas, {islands} islands, {by_island} branches",
        plan.areas.as_slice().len()
    )?;
    Ok(())
}

fn planned(rt: &HostRuntime, kept: &AtomList, branches: &BranchList, reach: u32) -> Result<()> {
    let alloc = rt.alloc();
    if !atoms_rise(kept.as_slice())
        || !atoms_are_low(kept.as_slice())
        || !are_within(kept.as_slice(), branches.as_slice())
        || reach < 4
    {
        bail!("the atoms aren't in order");
    }
    let Ok(command) = command(alloc) else {
        bail!("no memory is left");
    };
    let Ok(slots) = slots(alloc, &NeedList::new(alloc)) else {
        bail!("no memory is left");
    };
    let Ok(layout) = placed(alloc, kept, &slots, &command) else {
        bail!("the image has no layout");
    };
    let start = Instant::now(rt)?;
    let plan = plan(alloc, kept, &layout, branches, reach)?;
    eprintln!(rt; "{}", start.elapsed(rt)?.as_micros())?;
    counted(rt, &plan, branches.as_slice().len())
}

/// Plans the islands of so many functions of 200 bytes with two branches each, one of which goes far in each so many'th
/// function, where that isn't 0, and prints how many areas and islands there are, and how many branches go by one.
pub(crate) fn plan_islands(rt: &HostRuntime, count: u32, each: u32, reach: u32) -> Result<()> {
    let count = count.min(1 << 22);
    let kept = functions(rt.alloc(), count)?;
    let branches = branches(rt.alloc(), count, each)?;
    planned(rt, &kept, &branches, reach)
}
