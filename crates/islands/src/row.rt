//! Branches by numbers.
ghost use Rattle.std.specs.Prelude.{◌≡◌, ◌+◌, ◌<◌, ◌^◌, ◌≤◌, IfOk, IfSome, All, length, map, pos};
ghost use Rattle.std.specs.List.Sorted.{IsStrictlySortedBy};
ghost use Rattle.mo_types.specs.Keys.{compare_keys};
ghost use Rattle.islands.specs.Rows as spec;
ghost use Rattle.islands.specs.Targets.{number_of};
ghost use Rattle.islands.specs.inner.Bounds.{IsNear, IsNearSpot};
ghost use Rattle.islands.specs.inner.Ground.{IsGround, IsTold};
ghost use Rattle.islands.specs.inner.Held.{target_of};
ghost use Rattle.islands.specs.inner.Known.{IsKnown, IsStand};

use crate::branch::Branch;
use crate::ground::{Ground, stands_in_code};
use crate::spot::{Spot, spot_by};
use crate::target::{Aim, is_at, number_of};
use crate::text::{address_of, groups_before};
use atom_index::is_same;
use island_core::{Case, Pair, Row};
use mo_types::{AtomKey, OutOfMemory};
use sect_place::{BranchTarget, Layout};
use std::alloc::Global;

/// Targets in order, where they stand, and where that of each branch mostly is among them.
#[derive(Clone, Copy, Debug)]
pub(crate) struct Known<'a> {
    pub aims: &'a [Aim],
    pub spots: &'a [Spot],
    pub hints: &'a [usize],
}

/// Where an atom of a branch stands: its place, how many groups are before it, and whether it is in `__text`.
#[derive(Clone, Copy, Debug)]
pub(crate) struct Stand {
    pub key: AtomKey,
    pub place: u64,
    pub group: usize,
    pub inside: bool,
}

/// The number of a target, and where it stands.
#[derive(Clone, Copy, Debug)]
pub(crate) struct Goes {
    pub number: usize,
    pub spot: Spot,
}

// Branches by numbers.
pub(crate) fn rows(
    alloc: Global,
    layout: &Layout,
    ground: &Ground,
    lasts: &[AtomKey],
    known: &Known,
    branches: &[Branch],
) -> Result<Vec<Row>, OutOfMemory>
    requires layout { IsTold layout.now }
    requires ground { IsGround layout.now ground.now }
    requires lasts { IsStrictlySortedBy compare_keys lasts.now }
    requires known { IsKnown layout.now lasts.now known.now }
    ensures exact { IfOk result (λ rows. rows.items ≡ spec.rows_of layout.now lasts.now (map target_of known.now.aims.now) branches.now) }
    ensures near { IfOk result (λ rows. All (IsNear (length lasts.now)) rows.items) }
{
    let mut rows = Vec::with_capacity(alloc, branches.len())?;
    let mut last = None;
    for (at, branch) in branches.iter().enumerate() {
        let stand = stand_of(layout, ground, lasts, last, &branch.atom);
        last = Some(stand);
        let hint = known.hints.get(at).copied().unwrap_or(0);
        let goes = goes_to(layout, ground, lasts, known, hint, &branch.target)?;
        rows.push(row_of(&stand, &goes, branch))?;
    }
    Ok(rows)
}

// Where a branch's atom stands, which mostly is that of the branch before.
fn stand_of(
    layout: &Layout,
    ground: &Ground,
    lasts: &[AtomKey],
    last: Option<Stand>,
    key: &AtomKey,
) -> Stand
    requires layout { IsTold layout.now }
    requires ground { IsGround layout.now ground.now }
    requires lasts { IsStrictlySortedBy compare_keys lasts.now }
    requires last { IfSome last (λ stand. IsStand layout.now lasts.now stand.key stand) }
    ensures { IsStand layout.now lasts.now key.now result }
{
    match last {
        Some(stand) => {
            if is_same(&stand.key, key) {
                stand
            } else {
                stand_at(layout, ground, lasts, key)
            }
        }
        None => stand_at(layout, ground, lasts, key),
    }
}

fn stand_at(layout: &Layout, ground: &Ground, lasts: &[AtomKey], key: &AtomKey) -> Stand
    requires layout { IsTold layout.now }
    requires ground { IsGround layout.now ground.now }
    requires lasts { IsStrictlySortedBy compare_keys lasts.now }
    ensures { IsStand layout.now lasts.now key.now result }
{
    let group = groups_before(lasts, key);
    match address_of(layout, key) {
        Some(place) => Stand {
            key: *key,
            place,
            group,
            inside: stands_in_code(layout, ground, key, place),
        },
        None => Stand {
            key: *key,
            place: 0,
            group,
            inside: false,
        },
    }
}

// The number of a target that mostly stands at a place, and where it stands.
fn goes_to(
    layout: &Layout,
    ground: &Ground,
    lasts: &[AtomKey],
    known: &Known,
    hint: usize,
    target: &BranchTarget,
) -> Result<Goes, OutOfMemory>
    requires layout { IsTold layout.now }
    requires ground { IsGround layout.now ground.now }
    requires lasts { IsStrictlySortedBy compare_keys lasts.now }
    requires known { IsKnown layout.now lasts.now known.now }
    ensures number { IfOk result (λ goes. goes.number ≡ number_of (map target_of known.now.aims.now) target.now) }
    ensures spot { IfOk result (λ goes. goes.spot ≡ spec.spot_of layout.now lasts.now target.now) }
    ensures near { IfOk result (λ goes. IsNearSpot (length lasts.now) goes.spot) }
{
    if is_at(known.aims, hint, target) && hint < known.spots.len() {
        let spot = known.spots[hint];
        return Ok(Goes { number: hint, spot });
    }
    Ok(Goes {
        number: number_of(known.aims, target)?,
        spot: spot_by(layout, ground, lasts, &target.goal, target.stub),
    })
}

// A branch by numbers.
fn row_of(stand: &Stand, goes: &Goes, branch: &Branch) -> Row
    requires { goes.now.spot.place < 2 ^ 65 }
    ensures exact { result ≡ record {
      case = spec.case_of stand.now.inside goes.now.spot.inside (spec.is_plain branch.now.target.addend);
      pair = record { group = stand.now.group; target = goes.now.number };
      from = spec.raised (stand.now.place + branch.now.place) (pos 0);
      to = spec.raised goes.now.spot.place branch.now.target.addend;
      zone = goes.now.spot.zone;
    } }
    ensures from { result.from < 2 ^ 66 }
    ensures to { result.to < 2 ^ 66 }
{
    let target = &branch.target;
    let place = u128::from(stand.place) + u128::from(branch.place);
    Row {
        case: case_of(stand.inside, goes.spot.inside, target.addend == 0),
        pair: Pair {
            group: stand.group,
            target: goes.number,
        },
        from: raised(place, 0),
        to: raised(goes.spot.place, target.addend),
        zone: goes.spot.zone,
    }
}

// What a branch is, by whether it stands in `__text`, its target in `__TEXT`, and whether it has no addend.
fn case_of(grouped: bool, inside: bool, plain: bool) -> Case
    ensures { result ≡ spec.case_of grouped inside plain }
{
    if !grouped {
        Case::Outside
    } else if !inside {
        Case::Away
    } else if plain {
        Case::Plain
    } else {
        Case::Added
    }
}

// A place so many bytes farther, counted from 2^63 bytes below the first address on.
pub(crate) fn raised(place: u128, addend: i64) -> u128
    requires { place < 2 ^ 65 }
    ensures exact { result ≡ spec.raised place addend }
    ensures near { result < 2 ^ 66 }
{
    if addend < 0 {
        place + (1 << 63) - u128::from(addend.unsigned_abs())
    } else {
        place + (1 << 63) + addend as u128
    }
}
