//! An object with its atoms.

ghost use Rattle.std.specs.Prelude.{◌≡◌, ◌+◌, ◌-◌, ◌<◌, ◌≤◌, true, false, length, slice_get, slice_index_or};
ghost use Rattle.std.specs.List.{AllPairs};
ghost use Rattle.std.specs.List.Sorted.{IsPartitionPoint};
ghost use Rattle.std.specs.Option.{option_copied};
ghost use Rattle.mo_types.specs.Atoms as cutting;
ghost use Rattle.mo_types.specs.Whole.{is_dropped};
ghost use Rattle.mo_types.specs.declared.atom.Atom.{Atom};
ghost use Rattle.mo_types.specs.declared.object.Section.{Section};
ghost use Rattle.atom_cut.specs.Laws.{IsBefore};
ghost use Rattle.reloc_read.specs.CutObject as cuts;
ghost use Rattle.reloc_read.specs.CutObject.{IsCut, IsHigh, IsLow, IsPointOf};

use crate::guide::Guide;
use mo_types::{Atom, AtomKey, FileId, Object};

/// An object with its atoms, and where the search for an atom begins in each section.
#[derive(Clone, Copy)]
pub struct CutObject<'a> {
    pub object: &'a Object,
    pub atoms: &'a [Atom],
    pub guides: &'a [Guide],
    pub file: FileId,
}

fn is_up_to(key: &AtomKey, number: u16, offset: u64) -> bool
    ensures { result ≡ cuts.is_up_to number offset key.now }
{
    key.section < number || key.section == number && key.offset <= offset
}

// How many atoms aren't after an offset of the section of a number.
fn count_up_to(atoms: &[Atom], number: u16, offset: u64) -> usize
    requires { AllPairs (λ a b. IsBefore a.key b.key) atoms.now }
    ensures bound { result ≤ length atoms.now }
    ensures point { IsPointOf number offset atoms.now result }
{
    atoms.partition_point(|atom| is_up_to(&atom.key, number, offset))
}

// How many atoms in a row from a place on aren't after the offset, up to sixteen, and the place behind them.
fn walk(atoms: &[Atom], number: u16, offset: u64, from: usize) -> usize {
    let mut at = from;
    for _step in 0..16 {
        match atoms.get(at) {
            Some(atom) if is_up_to(&atom.key, number, offset) => at = at.saturating_add(1),
            _ => return at,
        }
    }
    at
}

fn atom_at(atoms: &[Atom], at: usize) -> Option<&Atom>
    ensures { option_copied result ≡ slice_get atoms.now at }
{
    atoms.get(at)
}

// Whether the atoms before a place aren't after the offset, by the last of them.
#[tactic(auto, using(crate::proofs::PointLemmas::points))]
fn is_low(atoms: &[Atom], number: u16, offset: u64, at: usize) -> bool
    requires { AllPairs (λ a b. IsBefore a.key b.key) atoms.now }
    ensures { result ≡ true → IsLow number offset atoms.now at }
{
    if at == 0 {
        return true;
    }
    match atom_at(atoms, at - 1) {
        Some(atom) => is_up_to(&atom.key, number, offset),
        None => false,
    }
}

// Whether the atoms from a place on are after the offset, by the first of them.
#[tactic(auto, using(crate::proofs::PointLemmas::points))]
fn is_high(atoms: &[Atom], number: u16, offset: u64, at: usize) -> bool
    requires { AllPairs (λ a b. IsBefore a.key b.key) atoms.now }
    ensures { result ≡ true → IsHigh number offset atoms.now at }
{
    match atom_at(atoms, at) {
        Some(atom) => !is_up_to(&atom.key, number, offset),
        None => true,
    }
}

// How many atoms aren't after an offset of the section of a number, where the search begins at a place.
#[tactic(auto, using(crate::proofs::PointLemmas::founds))]
fn count_from(atoms: &[Atom], number: u16, offset: u64, from: usize) -> usize
    requires { AllPairs (λ a b. IsBefore a.key b.key) atoms.now }
    ensures bound { result ≤ length atoms.now }
    ensures point { IsPointOf number offset atoms.now result }
{
    let near = walk(atoms, number, offset, from);
    if is_low(atoms, number, offset, near) && is_high(atoms, number, offset, near) {
        return near;
    }
    count_up_to(atoms, number, offset)
}

fn first_for(guides: &[Guide], index: usize, offset: u64) -> usize {
    match guides.get(index) {
        Some(guide) => guide.first_for(offset),
        None => 0,
    }
}

// Where the last of some atoms begins.
fn last_start(atoms: &[Atom], count: usize) -> u64
    requires some { 0 < count }
    requires bound { count ≤ length atoms.now }
    ensures { (x : Atom) → result ≡ (slice_index_or atoms.now (count - 1) x).key.offset }
{
    atoms[count - 1].key.offset
}

// How many atoms aren't after an offset of the section of an index, where the search begins at a place, and the cut
// of the last of them.
fn cut_from(cut: &CutObject, index: usize, offset: u64, from: usize) -> (usize, u64)
    requires cut { IsCut cut.now }
    requires index { index < length cut.now.object.now.sections }
    requires linked { (d : Section) → is_dropped (slice_index_or cut.now.object.now.sections index d) ≡ false }
    ensures value { (d : Section) → result.1 ≡ cutting.cut_of cut.now.object.now (index + 1) (slice_index_or cut.now.object.now.sections index d) offset }
    ensures within { result.1 ≤ offset }
{
    let after = count_from(cut.atoms, index as u16 + 1, offset, from);
    (after, last_start(cut.atoms, after))
}

/// The cut of the atom to which an offset of the section of an index belongs.
pub fn cut_of(cut: &CutObject, index: usize, offset: u64) -> u64
    requires cut { IsCut cut.now }
    requires index { index < length cut.now.object.now.sections }
    requires linked { (d : Section) → is_dropped (slice_index_or cut.now.object.now.sections index d) ≡ false }
    ensures value { (d : Section) → result ≡ cutting.cut_of cut.now.object.now (index + 1) (slice_index_or cut.now.object.now.sections index d) offset }
    ensures within { result ≤ offset }
{
    let from = first_for(cut.guides, index, offset);
    cut_from(cut, index, offset, from).1
}

/// The cuts of the atoms to which two offsets of the section of an index belong; the second is looked for from the
/// atom of the first on.
pub fn cuts_of(cut: &CutObject, index: usize, offset: u64, behind: u64) -> (u64, u64)
    requires cut { IsCut cut.now }
    requires index { index < length cut.now.object.now.sections }
    requires linked { (d : Section) → is_dropped (slice_index_or cut.now.object.now.sections index d) ≡ false }
    ensures first { (d : Section) → result.0 ≡ cutting.cut_of cut.now.object.now (index + 1) (slice_index_or cut.now.object.now.sections index d) offset }
    ensures within { result.0 ≤ offset }
    ensures second { (d : Section) → result.1 ≡ cutting.cut_of cut.now.object.now (index + 1) (slice_index_or cut.now.object.now.sections index d) behind }
{
    let from = first_for(cut.guides, index, offset);
    let (after, first) = cut_from(cut, index, offset, from);
    let (_, second) = cut_from(cut, index, behind, after);
    (first, second)
}
