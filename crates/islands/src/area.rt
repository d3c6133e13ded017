//! The areas of islands, and the way of each branch.
ghost use Rattle.std.specs.Prelude.{◌≡◌, ◌+◌, ◌<◌, ◌≤◌, ◌==◌, All, IfOk, map, length, nat_lt, slice_index_or, true, false, drop};
ghost use Rattle.std.specs.List.{filter};
ghost use Rattle.std.specs.List.Sorted.{IsPartitionPoint, IsStrictlySortedBy};
ghost use Rattle.mo_types.specs.Keys.{compare_keys};
ghost use Rattle.island_core.specs.Far as core;
ghost use Rattle.island_core.specs.declared.row.Pair.{Pair};
ghost use Rattle.islands.specs.Plan as spec;
ghost use Rattle.islands.specs.inner.Held.{target_of};

use crate::target::Aim;
use island_core::{Case, Pair, Row, place_of};
use mo_types::{AtomKey, OutOfMemory};
use sect_place::{AreaList, BranchTarget, BranchTargetList, IslandArea, WayList};
use std::alloc::Global;

// The areas of groups, by the last atom of each, the targets, and the pairs that have islands.
pub(crate) fn areas(
    alloc: Global,
    lasts: &[AtomKey],
    aims: &[Aim],
    far: &[Pair],
) -> Result<AreaList, OutOfMemory>
    requires lasts { IsStrictlySortedBy compare_keys lasts.now }
    requires far { IsStrictlySortedBy core.compare_pairs far.now }
    requires within { All (λ (pair : Pair). pair.target < length aims.now) far.now }
    ensures { IfOk result (λ areas. areas ≡ spec.areas_from (map target_of aims.now) far.now 0 lasts.now) }
{
    let mut areas = Vec::new(alloc);
    for (group, last) in lasts.iter().enumerate() {
        let targets = island_targets(alloc, aims, far, group)?;
        if targets.len() > 0 {
            areas.push(IslandArea {
                last: *last,
                targets,
            })?;
        }
    }
    Ok(AreaList::from_sorted(areas))
}

// Where the islands of a group go.
fn island_targets(
    alloc: Global,
    aims: &[Aim],
    far: &[Pair],
    group: usize,
) -> Result<BranchTargetList, OutOfMemory>
    requires far { IsStrictlySortedBy core.compare_pairs far.now }
    requires within { All (λ (pair : Pair). pair.target < length aims.now) far.now }
    ensures { IfOk result (λ targets. targets ≡ spec.island_targets (map target_of aims.now) far.now group) }
{
    let pairs = pairs_of_group(far, group);
    let mut targets = Vec::with_capacity(alloc, pairs.len())?;
    for pair in pairs {
        targets.push(target_at(aims, pair.target)?)?;
    }
    Ok(BranchTargetList::from_vec(targets))
}

// A copy of a target.
fn target_at(aims: &[Aim], at: usize) -> Result<BranchTarget, OutOfMemory>
    requires { at < length aims.now }
    ensures { IfOk result (λ target. target ≡ spec.target_at (map target_of aims.now) at) }
{
    aims[at].target()
}

// The pairs of a group, which stand together.
fn pairs_of_group(far: &[Pair], group: usize) -> &[Pair]
    requires { IsStrictlySortedBy core.compare_pairs far.now }
    ensures { result.now ≡ filter (λ (pair : Pair). pair.group == group) far.now }
{
    let first = far.partition_point(|pair| pair.group < group);
    let rest = &far[first..];
    let count = rest.partition_point(|pair| pair.group == group);
    &rest[..count]
}

// Whether a branch stands in a group.
fn is_grouped(row: &Row) -> bool
    ensures { result ≡ core.is_grouped row.now.case }
{
    match row.case {
        Case::Outside => false,
        Case::Away | Case::Plain | Case::Added => true,
    }
}

// Which island a branch goes to.
fn way_of(far: &[Pair], row: &Row) -> Option<usize>
    requires { IsStrictlySortedBy core.compare_pairs far.now }
    ensures { spec.IsWay far.now row.now result }
{
    if is_grouped(row) {
        place_of(far, &row.pair)
    } else {
        None
    }
}

// The island of each branch.
pub(crate) fn ways(alloc: Global, far: &[Pair], rows: &[Row]) -> Result<WayList, OutOfMemory>
    requires { IsStrictlySortedBy core.compare_pairs far.now }
    ensures { IfOk result (λ ways. spec.AreWays far.now rows.now ways) }
{
    let mut ways = Vec::with_capacity(alloc, rows.len())?;
    for row in rows {
        ways.push(way_of(far, row))?;
    }
    Ok(WayList::from_vec(ways))
}
