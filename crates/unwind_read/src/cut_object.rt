//! An object with its atoms, and the atom to which an offset of a section belongs.

ghost use Rattle.std.specs.Prelude.{◌≡◌, ◌+◌, ◌-◌, ◌<◌, ◌≤◌, true, false, length, slice_get, slice_index_or, Some};
ghost use Rattle.std.specs.List.{AllPairs};
ghost use Rattle.std.specs.Option.{option_copied};
ghost use Rattle.mo_types.specs.Atoms.{cut_of};
ghost use Rattle.mo_types.specs.RelocationRules.{section_numbered};
ghost use Rattle.mo_types.specs.Whole.{is_dropped};
ghost use Rattle.mo_types.specs.declared.atom.Atom.{Atom};
ghost use Rattle.atom_cut.specs.Laws.{IsBefore};
ghost use Rattle.reloc_read.specs.CutObject as keys;
ghost use Rattle.reloc_read.specs.CutObject.{IsHigh, IsLow, IsPointOf};
ghost use Rattle.unwind_read.specs.CutObject.{IsCut};
ghost use Rattle.unwind_read.specs.Spots.{end_of};

use crate::guide::Hint;
use crate::section_notes::SectionNote;
use mo_types::{Atom, AtomKey, FileId, Object, Section};

/// An object with its atoms, and what is noted of its sections.
#[derive(Clone, Copy)]
pub struct CutObject<'a> {
    pub object: &'a Object,
    pub atoms: &'a [Atom],
    pub notes: &'a [SectionNote],
    pub file: FileId,
}

fn is_up_to(key: &AtomKey, number: u16, offset: u64) -> bool
    ensures { result ≡ keys.is_up_to number offset key.now }
{
    key.section < number || key.section == number && key.offset <= offset
}

// How many atoms aren't after an offset of the section of a number.
fn count_up_to(atoms: &[Atom], number: u16, offset: u64) -> usize
    requires { AllPairs (λ a b. IsBefore a.key b.key) atoms.now }
    ensures bound { result ≤ length atoms.now }
    ensures point { IsPointOf number offset atoms.now result }
{
    atoms.partition_point(|atom| is_up_to(&atom.key, number, offset))
}

// How many atoms in a row from a place on aren't after the offset, up to sixteen, and the place behind them.
fn walk(atoms: &[Atom], number: u16, offset: u64, from: usize) -> usize {
    let mut at = from;
    for _step in 0..16 {
        match atoms.get(at) {
            Some(atom) if is_up_to(&atom.key, number, offset) => at = at.saturating_add(1),
            _ => return at,
        }
    }
    at
}

fn atom_at(atoms: &[Atom], at: usize) -> Option<&Atom>
    ensures { option_copied result ≡ slice_get atoms.now at }
{
    atoms.get(at)
}

// Whether the atoms before a place aren't after the offset, by the last of them.
#[tactic(auto, using(reloc_read::proofs::PointLemmas::points))]
fn is_low(atoms: &[Atom], number: u16, offset: u64, at: usize) -> bool
    requires { AllPairs (λ a b. IsBefore a.key b.key) atoms.now }
    ensures { result ≡ true → IsLow number offset atoms.now at }
{
    if at == 0 {
        return true;
    }
    match atom_at(atoms, at - 1) {
        Some(atom) => is_up_to(&atom.key, number, offset),
        None => false,
    }
}

// Whether the atoms from a place on are after the offset, by the first of them.
#[tactic(auto, using(reloc_read::proofs::PointLemmas::points))]
fn is_high(atoms: &[Atom], number: u16, offset: u64, at: usize) -> bool
    requires { AllPairs (λ a b. IsBefore a.key b.key) atoms.now }
    ensures { result ≡ true → IsHigh number offset atoms.now at }
{
    match atom_at(atoms, at) {
        Some(atom) => !is_up_to(&atom.key, number, offset),
        None => true,
    }
}

// How many atoms aren't after an offset of the section of a number, where the search begins at the hint.
#[tactic(auto, using(reloc_read::proofs::PointLemmas::founds))]
fn count_from(atoms: &[Atom], hint: &mut Hint, number: u16, offset: u64) -> usize
    requires { AllPairs (λ a b. IsBefore a.key b.key) atoms.now }
    ensures bound { result ≤ length atoms.now }
    ensures point { IsPointOf number offset atoms.now result }
{
    let near = walk(atoms, number, offset, hint.first_for(number, offset));
    if is_low(atoms, number, offset, near) && is_high(atoms, number, offset, near) {
        hint.found(near);
        return near;
    }
    hint.missed(number);
    let far = count_up_to(atoms, number, offset);
    hint.found(far);
    far
}

// The last of some atoms.
fn last_of(atoms: &[Atom], count: usize) -> Atom
    requires some { 0 < count }
    requires bound { count ≤ length atoms.now }
    ensures { (d : Atom) → result ≡ slice_index_or atoms.now (count - 1) d }
{
    atoms[count - 1]
}

/// Where the atom begins and ends to which an offset of the section of a number belongs. The search begins at the hint,
/// which then stands behind the atom.
pub fn bounds_of(
    cut: &CutObject,
    hint: &mut Hint,
    number: u32,
    section: &Section,
    offset: u64,
) -> (u64, u64)
    requires cut { IsCut cut.now }
    requires numbered { section_numbered cut.now.object.now.sections number ≡ Some section.now }
    requires linked { is_dropped section.now ≡ false }
    requires within { offset ≤ section.now.size }
    ensures start { result.0 ≡ cut_of cut.now.object.now number section.now offset }
    ensures end { result.1 ≡ end_of cut.now.object.now number section.now offset }
    ensures low { result.0 ≤ offset }
    ensures high { offset ≤ result.1 }
    ensures room { result.1 ≤ section.now.size }
{
    let count = count_from(cut.atoms, hint, number as u16, offset);
    let atom = last_of(cut.atoms, count);
    (atom.key.offset, atom.key.offset + atom.size)
}
