//! The references of one atom.

ghost use Rattle.std.specs.Prelude.{◌≡◌, ◌≤◌, IsTrue, length};
ghost use Rattle.std.specs.List.Sorted.{IsSorted};
ghost use Rattle.liveness.specs.Order as spec;
ghost use Rattle.liveness.specs.inner.Parted.{AreBefore, AreUpTo, BeginsAt, EndsBefore};

use crate::order::place_of;
use mo_types::RefList;

// The place of the atom of the reference at an index of a file's list.
#[tactic(auto, unfolding(crate::specs::Order::place_at))]
fn place_at(refs: &RefList, index: u32) -> u128
    ensures { result ≡ spec.place_at refs.now index }
{
    match refs.get(index as usize) {
        Some(reference) => place_of(reference.atom.section, reference.atom.offset),
        None => 0,
    }
}

// How many references have atoms before a place.
fn count_before(refs: &RefList, order: &[u32], at: u128) -> usize
    requires { IsSorted (spec.compare_at refs.now) order.now }
    ensures bound { result ≤ length order.now }
    ensures point { AreBefore refs.now order.now at result }
{
    order.partition_point(|index| place_at(refs, *index) < at)
}

// Whether the reference before a place, if there is one, has an atom before another place.
fn ends_before(refs: &RefList, order: &[u32], near: usize, at: u128) -> bool
    requires { near ≤ length order.now }
    ensures { IsTrue result → EndsBefore refs.now order.now near at }
{
    if near == 0 {
        return true;
    }
    place_at(refs, order[near - 1]) < at
}

// Whether the reference at a place, if there is one, has an atom at another place or behind it.
fn begins_at(refs: &RefList, order: &[u32], near: usize, at: u128) -> bool
    ensures { IsTrue result → BeginsAt refs.now order.now near at }
{
    if near >= order.len() {
        return true;
    }
    place_at(refs, order[near]) >= at
}

// How many references have atoms before a place: mostly so many.
fn count_before_near(refs: &RefList, order: &[u32], near: usize, at: u128) -> usize
    requires { IsSorted (spec.compare_at refs.now) order.now }
    ensures bound { result ≤ length order.now }
    ensures point { AreBefore refs.now order.now at result }
{
    if near <= order.len()
        && ends_before(refs, order, near, at)
        && begins_at(refs, order, near, at)
    {
        return near;
    }
    count_before(refs, order, at)
}

// How many have atoms there or before, where so many have atoms before it.
fn end_of_run(refs: &RefList, order: &[u32], from: usize, at: u128) -> usize
    requires sorted { IsSorted (spec.compare_at refs.now) order.now }
    requires bound { from ≤ length order.now }
    requires point { AreBefore refs.now order.now at from }
    ensures from { from ≤ result }
    ensures bound { result ≤ length order.now }
    ensures point { AreUpTo refs.now order.now at result }
{
    for to in from..order.len() {
        if place_at(refs, order[to]) > at {
            return to;
        }
    }
    order.len()
}

/// The references of the atom at an offset of the section of a number: of each its place in the file's list, in that order.
/// Atoms mostly follow one another, so they are first looked for where those of the last one ended. Takes no memory.
#[tactic(auto, using(crate::proofs::RunLemmas::runs))]
pub fn next_spots<'a>(
    refs: &RefList,
    order: &'a [u32],
    next: &mut usize,
    section: u16,
    offset: u64,
) -> &'a [u32]
    requires { spec.AreInOrder refs.now order.now }
    ensures { result.now ≡ spec.refs_of_atom refs.now section offset }
{
    let at = place_of(section, offset);
    let from = count_before_near(refs, order, *next, at);
    let to = end_of_run(refs, order, from, at);
    *next = to;
    &order[from..to]
}
