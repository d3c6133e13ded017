//! The references of a file, by the atoms that have them.

ghost use Rattle.std.specs.Prelude.{◌≡◌, ◌<◌, ◌≤◌, ℕ, IfOk, IsPermutation, IsTrue, OnOk, false, length, map};
ghost use Rattle.std.specs.List.{enumerate_from, filter, range_with_len};
ghost use Rattle.std.specs.List.Sorted.{IsSorted};
ghost use Rattle.liveness.specs.Order.{AreInOrder, place_of};
ghost use Rattle.liveness.specs.inner.Spots as spec;
ghost use Rattle.liveness.specs.inner.Turned.{AreShuffled, AreTurned, Begins, FallsTo, GoesOn, IsFalling, IsWithShuffled};

use mo_types::{Items, OutOfMemory, RefList};
use std::alloc::Global;
use std::cmp::Ordering;

// Four of them share a cache line.
const _: () = prove!(size_of::<Spot>() == 16);

/// A reference of a file, while it is put in order: where its atom is cut from the object, and its place in the file's
/// list.
#[derive(Clone, Copy)]
pub(crate) struct Spot {
    /// The atom's offset in its section, in bytes.
    pub offset: u64,
    /// The reference's place in the file's list, counted from 0.
    pub index: u32,
    /// The number of the atom's section, counted from 1.
    pub section: u16,
}

/// The references of a file in the order of their atoms, and those of one atom as the file lists them: of each its
/// place in the file's list, counted from 0.
pub type RefOrder = Items<u32>;

/// The place of an atom among those of its object, as one number.
pub(crate) fn place_of(section: u16, offset: u64) -> u128
    ensures { result ≡ place_of section offset }
{
    (u128::from(section) << 64) + u128::from(offset)
}

// The order of references by their atoms.
#[tactic(auto, unfolding(crate::specs::inner::Spots::place))]
fn compare(a: &Spot, b: &Spot) -> Ordering
    ensures { result ≡ spec.compare_spots a.now b.now }
{
    place_of(a.section, a.offset).cmp(&place_of(b.section, b.offset))
}

// The references of a file, as they are listed.
#[tactic(auto, using(crate::proofs::ListLemmas::lists))]
fn spots_in(alloc: Global, refs: &RefList) -> Result<Vec<Spot>, OutOfMemory>
    ensures { IfOk result (λ spots. spots.items ≡ spec.spots_of refs.now) }
{
    let mut spots = Vec::with_capacity(alloc, refs.len())?;
    for at in 0..refs.len() {
        let Ok(index) = u32::try_from(at) else {
            return Err(OutOfMemory);
        };
        match refs.get(at) {
            Some(reference) => spots.push(Spot {
                section: reference.atom.section,
                offset: reference.atom.offset,
                index,
            })?,
            None => {}
        }
    }
    Ok(spots)
}

// Puts references in the order of their atoms; those of one atom stay as they are listed.
fn put_in_order(spots: &mut Vec<Spot>) -> Result<(), OutOfMemory>
    ensures all { IsPermutation spots.old.items spots.new.items }
    ensures sorted { OnOk result (IsSorted spec.compare_spots spots.new.items) }
    ensures listed { (section offset : ℕ) → filter (spec.is_of section offset) spots.new.items ≡ filter (spec.is_of section offset) spots.old.items }
{
    Ok(spots.sort_by(compare)?)
}

// Whether no reference has an atom before that of the one listed before it.
fn never_fall(spots: &[Spot]) -> bool
    ensures { IsTrue result → IsSorted spec.compare_spots spots.now }
{
    spots.is_sorted_by(|a, b| !compare(b, a).is_lt())
}

// Whether the reference at a place has another atom than the one listed before it, or is the first.
fn begins(spots: &[Spot], at: usize) -> bool
    requires { at < length spots.now }
    ensures other { IsTrue result → Begins spots.now at }
    ensures same { result ≡ false → GoesOn spots.now at }
{
    if at == 0 {
        return true;
    }
    compare(&spots[at - 1], &spots[at]) != Ordering::Equal
}

// Behind others, references whose atoms never rise, by atom: those of each atom stand together, and are taken from last to
// first, each as they are listed.
#[tactic(auto, using(crate::proofs::TurnLemmas::turns))]
fn with_turned(before: Vec<Spot>, spots: &[Spot]) -> Result<Vec<Spot>, OutOfMemory>
    requires { IsFalling spots.now }
    ensures { IfOk result (λ new. IsWithShuffled before.items spots.now new.items) }
{
    let mut new = before;
    let mut end = spots.len();
    for step in 0..spots.len() {
        let start = spots.len() - 1 - step;
        if begins(spots, start) {
            new.extend_from_slice(&spots[start..end])?;
            end = start;
        }
    }
    Ok(new)
}

// Whether the list ends at a place, or the reference there has an atom behind that of the one listed before it.
fn ends_run(spots: &[Spot], at: usize) -> bool
    requires behind { 0 < at }
    requires within { at ≤ length spots.now }
    ensures end { at ≡ length spots.now → IsTrue result }
    ensures falls { result ≡ false → FallsTo spots.now at }
{
    match spots.get(at) {
        Some(spot) => compare(&spots[at - 1], spot).is_lt(),
        None => true,
    }
}

// References, of which each run whose atoms never rise is put in the order of its atoms.
#[tactic(auto, using(crate::proofs::RunsLemmas::turns_runs))]
fn turned(alloc: Global, spots: &[Spot]) -> Result<Vec<Spot>, OutOfMemory>
    ensures { IfOk result (λ new. AreShuffled spots.now new.items) }
{
    let mut new = Vec::with_capacity(alloc, spots.len())?;
    let mut start = 0;
    for last in 0..spots.len() {
        let end = last + 1;
        if ends_run(spots, end) {
            new = with_turned(new, &spots[start..end])?;
            start = end;
        }
    }
    Ok(new)
}

// References in the order of their atoms; those of one atom stay as they are listed. Relocations are listed mostly section
// by section, and in a section by falling place, so most lists need no sort.
#[tactic(auto, using(crate::proofs::RunsLemmas::orders))]
fn ordered(alloc: Global, spots: Vec<Spot>) -> Result<Vec<Spot>, OutOfMemory>
    ensures { IfOk result (λ new. AreTurned spots.items new.items) }
{
    if never_fall(spots.as_slice()) {
        return Ok(spots);
    }
    let mut spots = turned(alloc, spots.as_slice())?;
    if !never_fall(spots.as_slice()) {
        put_in_order(&mut spots)?;
    }
    Ok(spots)
}

// The places of references in their file's list.
fn indices_of(alloc: Global, spots: &[Spot]) -> Result<Vec<u32>, OutOfMemory>
    ensures { IfOk result (λ indices. indices.items ≡ map (λ spot. spot.index) spots.now) }
{
    Ok(spots.iter().map(|spot| spot.index).collect(alloc)?)
}

/// All references of a file in the order of their atoms, and of one atom in the order in which the file lists them. A
/// file with 2^32 of them runs out of memory.
pub fn ref_order(alloc: Global, refs: &RefList) -> Result<RefOrder, OutOfMemory>
    ensures { IfOk result (AreInOrder refs.now) }
{
    let spots = ordered(alloc, spots_in(alloc, refs)?)?;
    Ok(Items::from_vec(indices_of(alloc, spots.as_slice())?))
}
