//! Where the targets of branches stand.
ghost use Rattle.std.specs.Prelude.{◌≡◌, ◌≤◌, All, IfOk, Option, Some, length, map, if◌then◌else◌};
ghost use Rattle.std.specs.List.Sorted.{IsStrictlySortedBy};
ghost use Rattle.std.specs.Option.{option_map};
ghost use Rattle.mo_types.specs.Keys.{compare_keys};
ghost use Rattle.sect_place.specs.Addresses.{address_in};
ghost use Rattle.sect_place.specs.declared.layout.PlacedSection.{PlacedSection};
ghost use Rattle.islands.specs.Rows as spec;
ghost use Rattle.islands.specs.Text as text;
ghost use Rattle.islands.specs.inner.Bounds.{IsNearSpot};
ghost use Rattle.islands.specs.inner.Ground.{IsGround, IsTold};
ghost use Rattle.islands.specs.inner.Known.{spot_of_aim};

use crate::ground::{Ground, stands_in_code, stands_in_text};
use crate::target::Aim;
use crate::text::{address_of, groups_before};
use mo_types::{AtomKey, Goal, OutOfMemory};
use sect_place::Layout;
use std::alloc::Global;

/// Where a target stands, but for its addend.
#[derive(Clone, Copy, Debug, PartialEq, Eq)]
pub struct Spot {
    /// Whether it is in `__TEXT`.
    pub inside: bool,
    /// Its address.
    pub place: u128,
    /// How many groups are before it.
    pub zone: usize,
}

/// Where the targets stand, in their order.
pub(crate) fn spots(
    alloc: Global,
    layout: &Layout,
    ground: &Ground,
    lasts: &[AtomKey],
    aims: &[Aim],
) -> Result<Vec<Spot>, OutOfMemory>
    requires layout { IsTold layout.now }
    requires ground { IsGround layout.now ground.now }
    requires lasts { IsStrictlySortedBy compare_keys lasts.now }
    ensures exact { IfOk result (λ spots. spots.items ≡ map (spot_of_aim layout.now lasts.now) aims.now) }
    ensures near { IfOk result (λ spots. All (IsNearSpot (length lasts.now)) spots.items) }
{
    let mut spots = Vec::with_capacity(alloc, aims.len())?;
    for aim in aims {
        spots.push(spot_by(layout, ground, lasts, &aim.goal, aim.stub))?;
    }
    Ok(spots)
}

/// Where a goal, or the stub for it, stands.
pub(crate) fn spot_by(
    layout: &Layout,
    ground: &Ground,
    lasts: &[AtomKey],
    goal: &Goal,
    stub: Option<u32>,
) -> Spot
    requires layout { IsTold layout.now }
    requires ground { IsGround layout.now ground.now }
    requires lasts { IsStrictlySortedBy compare_keys lasts.now }
    ensures exact { result ≡ spec.spot_by layout.now lasts.now goal.now stub }
    ensures near { IsNearSpot (length lasts.now) result }
{
    match stub {
        Some(number) => stub_spot(ground.stubs, lasts.len(), number),
        None => goal_spot(layout, ground, lasts, goal),
    }
}

// Where a goal stands.
fn goal_spot(layout: &Layout, ground: &Ground, lasts: &[AtomKey], goal: &Goal) -> Spot
    requires layout { IsTold layout.now }
    requires ground { IsGround layout.now ground.now }
    requires lasts { IsStrictlySortedBy compare_keys lasts.now }
    ensures exact { result ≡ spec.goal_spot layout.now lasts.now goal.now }
    ensures near { IsNearSpot (length lasts.now) result }
{
    match goal {
        Goal::Def(key, offset) => atom_spot(layout, ground, lasts, key, *offset),
        Goal::WeakSelf(_name, key, offset) => atom_spot(layout, ground, lasts, key, *offset),
        Goal::Header => Spot {
            inside: true,
            place: u128::from(ground.header),
            zone: 0,
        },
        Goal::Import { .. } | Goal::Flat(_) | Goal::Nobody => nowhere(lasts.len()),
    }
}

// No place in `__TEXT`.
fn nowhere(groups: usize) -> Spot
    ensures { result ≡ spec.nowhere groups }
{
    Spot {
        inside: false,
        place: 0,
        zone: groups,
    }
}

// Where a place in an atom stands.
fn atom_spot(
    layout: &Layout,
    ground: &Ground,
    lasts: &[AtomKey],
    key: &AtomKey,
    offset: u64,
) -> Spot
    requires layout { IsTold layout.now }
    requires ground { IsGround layout.now ground.now }
    requires lasts { IsStrictlySortedBy compare_keys lasts.now }
    ensures exact { result ≡ spec.atom_spot layout.now lasts.now key.now offset }
    ensures near { IsNearSpot (length lasts.now) result }
{
    match address_of(layout, key) {
        Some(at) => Spot {
            inside: stands_in_text(layout, ground, key, at),
            place: u128::from(at) + u128::from(offset),
            zone: zone_of(layout, ground, lasts, key, at),
        },
        None => Spot {
            inside: false,
            place: u128::from(offset),
            zone: lasts.len(),
        },
    }
}

// How many groups are before an atom of the layout, whose address is known.
fn zone_of(layout: &Layout, ground: &Ground, lasts: &[AtomKey], key: &AtomKey, at: u64) -> usize
    requires layout { IsTold layout.now }
    requires ground { IsGround layout.now ground.now }
    requires lasts { IsStrictlySortedBy compare_keys lasts.now }
    requires at { address_in layout.now.placed key.now ≡ Some at }
    ensures exact { result ≡ (if text.in_code layout.now key.now then text.groups_before lasts.now key.now else length lasts.now) }
    ensures low { result ≤ length lasts.now }
{
    if stands_in_code(layout, ground, key, at) {
        groups_before(lasts, key)
    } else {
        lasts.len()
    }
}

// Where a stub stands, by the place of the first one.
fn stub_spot(stubs: Option<u64>, groups: usize, number: u32) -> Spot
    ensures exact { (found : Option PlacedSection) → stubs ≡ option_map (λ (p : PlacedSection). p.address) found → result ≡ spec.stub_spot found groups number }
    ensures near { IsNearSpot groups result }
{
    match stubs {
        Some(at) => Spot {
            inside: true,
            place: u128::from(at) + 12 * u128::from(number),
            zone: groups,
        },
        None => nowhere(groups),
    }
}
