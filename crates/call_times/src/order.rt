//! What calls that lay an image out require of their lists, as tests.
ghost use Rattle.std.specs.Prelude.{◌≡◌, ◌≤◌, All, IsTrue};
ghost use Rattle.std.specs.List.{AllPairs};
ghost use Rattle.std.specs.List.Sorted.{IsStrictlySortedBy};
ghost use Rattle.std.specs.Ordering.{on};
ghost use Rattle.mo_types.specs.Keys.{compare_keys};
ghost use Rattle.mo_types.specs.Loaded.{IsBefore};
ghost use Rattle.mo_types.specs.declared.atom.Atom.{Atom};
ghost use Rattle.mo_types.specs.declared.loaded.LoadedFile.{LoadedFile};
ghost use Rattle.sect_place.specs.Addresses.{AreOnce};
ghost use Rattle.sect_place.specs.declared.island.IslandArea.{IslandArea};

use mo_types::{Atom, LoadedFile, OutSection};
use sect_place::{IslandArea, Placed};
use std::cmp::Ordering;

pub(crate) fn atoms_rise(atoms: &[Atom]) -> bool
    ensures { IsTrue result → IsStrictlySortedBy (on (λ (atom : Atom). atom.key) compare_keys) atoms.now }
{
    for i in 1..atoms.len() {
        match atoms[i - 1].key.cmp(&atoms[i].key) {
            Ordering::Less => {}
            _ => return false,
        }
    }
    true
}

pub(crate) fn areas_rise(areas: &[IslandArea]) -> bool
    ensures { IsTrue result → IsStrictlySortedBy (on (λ (area : IslandArea). area.last) compare_keys) areas.now }
{
    for i in 1..areas.len() {
        match areas[i - 1].last.cmp(&areas[i].last) {
            Ordering::Less => {}
            _ => return false,
        }
    }
    true
}

pub(crate) fn stand_once(placed: &[Placed]) -> bool
    ensures { IsTrue result → AreOnce placed.now }
{
    for i in 1..placed.len() {
        match placed[i - 1].atom.cmp(&placed[i].atom) {
            Ordering::Less => {}
            _ => return false,
        }
    }
    true
}

pub(crate) fn files_rise(files: &[LoadedFile]) -> bool
    ensures { IsTrue result → AllPairs (λ (a : LoadedFile) (b : LoadedFile). IsBefore a.id b.id) files.now }
{
    for i in 1..files.len() {
        match files[i - 1].id.cmp(&files[i].id) {
            Ordering::Less => {}
            _ => return false,
        }
    }
    true
}

pub(crate) fn atoms_are_low(atoms: &[Atom]) -> bool
    ensures { IsTrue result → All (λ atom. atom.align ≤ 14) atoms.now }
{
    atoms.iter().all(|atom| atom.align <= 14)
}

pub(crate) fn sections_are_low(sections: &[OutSection]) -> bool
    ensures { IsTrue result → All (λ section. section.align ≤ 14) sections.now }
{
    sections.iter().all(|section| section.align <= 14)
}
