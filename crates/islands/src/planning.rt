//! The islands of an image.
ghost use Rattle.std.specs.Prelude.{◌≡◌, ◌<◌, ◌≤◌, [], All, IfOk, None, length, max, replicate, slice_index_or};
ghost use Rattle.mo_types.specs.Keys.{compare_keys};
ghost use Rattle.mo_types.specs.declared.atom.Atom.{Atom};
ghost use Rattle.sect_place.specs.Shifts as shifts;
ghost use Rattle.island_core.specs.Far as far;
ghost use Rattle.island_core.specs.declared.row.Pair.{Pair};
ghost use Rattle.islands.specs.Plan as spec;
ghost use Rattle.islands.specs.Rows.{rows_of};
ghost use Rattle.islands.specs.Targets.{AreTargets};
ghost use Rattle.islands.specs.Text as text;
ghost use Rattle.islands.specs.declared.branch.Branch.{Branch};
ghost use Rattle.islands.specs.inner.Cut.{IsCut};
ghost use Rattle.islands.specs.inner.Held.{target_of};
ghost use Rattle.islands.specs.inner.Scaled.{IsScaleOf};

use crate::area::{areas, ways};
use crate::branch::{Branch, BranchList};
use crate::ground::ground_of;
use crate::quick::all_reach;
use crate::row::{Known, rows};
use crate::spot::spots;
use crate::target::{Aim, Aims, targets};
use crate::text::{extents, is_text, lasts, text_atoms};
use island_core::{Pair, Row, Scale, cut_atoms, far_pairs, moved_by, pairs_of};
use mo_types::{Atom, AtomKey, AtomList, OutOfMemory};
use sect_place::{AreaList, IslandPlan, Layout, PlacedSection, WayList};
use std::alloc::Global;

/// The islands of an image: where branches don't reach, and no more of them than it takes. The layout has the kept atoms
/// and no islands, and the reach is in bytes.
pub fn plan(
    alloc: Global,
    kept: &AtomList,
    layout: &Layout,
    branches: &BranchList,
    reach: u32,
) -> Result<IslandPlan, OutOfMemory>
    requires layout { spec.IsWithoutIslands kept.now layout.now }
    requires branches { All (spec.IsInAtoms kept.now) branches.now }
    requires reach { 4 ≤ reach }
    ensures { IfOk result (spec.IsPlan kept.now layout.now branches.now reach) }
{
    let all = branches.as_slice();
    if all_reach(layout, all, reach) {
        return no_islands(alloc, all.len());
    }
    islands(alloc, kept, layout, branches, reach)
}

// The plan of an image without islands.
fn no_islands(alloc: Global, branches: usize) -> Result<IslandPlan, OutOfMemory>
    ensures areas { IfOk result (λ plan. plan.areas ≡ []) }
    ensures ways { IfOk result (λ plan. plan.ways ≡ replicate branches None) }
{
    Ok(IslandPlan {
        areas: AreaList::new(alloc),
        ways: WayList::from_vec(vec![in alloc; None; branches]?),
    })
}

// The plan of an image where some branch doesn't reach, or may not.
fn islands(
    alloc: Global,
    kept: &AtomList,
    layout: &Layout,
    branches: &BranchList,
    reach: u32,
) -> Result<IslandPlan, OutOfMemory>
    requires layout { spec.IsWithoutIslands kept.now layout.now }
    requires branches { All (spec.IsInAtoms kept.now) branches.now }
    requires reach { 4 ≤ reach }
    ensures { IfOk result (spec.IsPlan kept.now layout.now branches.now reach) }
{
    let branches = branches.as_slice();
    let lasts = cut(alloc, kept.as_slice(), layout, reach)?;
    let lasts = lasts.as_slice();
    let Aims { aims, hints } = targets(alloc, branches)?;
    let aims = aims.as_slice();
    let ground = ground_of(layout);
    let spots = spots(alloc, layout, &ground, lasts, aims)?;
    let known = Known {
        aims,
        spots: spots.as_slice(),
        hints: hints.as_slice(),
    };
    let rows = rows(alloc, layout, &ground, lasts, &known, branches)?;
    let rows = rows.as_slice();
    let scale = scale(alloc, layout.sections.as_slice(), lasts.len(), reach, rows)?;
    let far = far_pairs(alloc, rows, &scale)?;
    let far = far.as_slice();
    Ok(IslandPlan {
        areas: areas(alloc, lasts, aims, far)?,
        ways: ways(alloc, far, rows)?,
    })
}

// The last atoms of the groups of `__text`, each of at most half the reach.
fn cut(
    alloc: Global,
    kept: &[Atom],
    layout: &Layout,
    reach: u32,
) -> Result<Vec<AtomKey>, OutOfMemory>
    requires { spec.IsWithoutIslands kept.now layout.now }
    ensures { IfOk result (λ lasts. IsCut kept.now layout.now reach lasts.items) }
{
    let atoms = text_atoms(alloc, kept, layout.sections.as_slice())?;
    let atoms = atoms.as_slice();
    let extents = extents(alloc, layout, atoms)?;
    let extents = extents.as_slice();
    let ends = cut_atoms(alloc, extents, u128::from(reach / 2))?;
    let ends = ends.as_slice();
    lasts(alloc, atoms, ends)
}

// How far branches reach, and how far islands can move anything.
fn scale(
    alloc: Global,
    sections: &[PlacedSection],
    groups: usize,
    reach: u32,
    rows: &[Row],
) -> Result<Scale, OutOfMemory>
    requires { 4 ≤ reach }
    ensures exact { IfOk result (λ scale. IsScaleOf sections.now groups reach rows.now scale) }
    ensures fits { IfOk result far.IsScale }
{
    let pairs = pairs_of(alloc, rows)?;
    let scale = Scale {
        unit: unit_in(sections),
        groups,
        reach: u128::from(reach),
        slack: 0,
    };
    let slack = moved_by(alloc, pairs.as_slice(), &scale)?;
    Ok(Scale { slack, ..scale })
}

// The greatest alignment in `__TEXT`, at least that of an instruction.
fn unit_in(sections: &[PlacedSection]) -> u8
    ensures exact { result ≡ shifts.unit_in sections.now }
    ensures least { 2 ≤ result }
    ensures most { result ≤ 14 }
{
    let mut unit = 2;
    for placed in sections {
        if is_text(&placed.section) {
            unit = larger(unit, placed.section.align);
        }
    }
    if unit < 14 { unit } else { 14 }
}

// The larger of two numbers.
fn larger(a: u8, b: u8) -> u8
    ensures { result ≡ max a b }
{
    if a < b { b } else { a }
}

/// The number of the island that a branch goes to, among all islands counted from 0, area by area, or `None` exactly
/// where it goes to its target. Takes no memory.
pub fn hop(plan: &IslandPlan, branch: usize) -> Option<usize>
    requires { branch < length plan.now.ways }
    ensures { result ≡ slice_index_or plan.now.ways branch None }
{
    plan.ways.as_slice()[branch]
}
