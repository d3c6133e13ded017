//! What calls that lay an image out require of their lists, as tests.
ghost use Rattle.std.specs.Prelude.{◌≡◌, ◌≤◌, All, IsTrue};
ghost use Rattle.std.specs.List.Sorted.{IsStrictlySortedBy};
ghost use Rattle.std.specs.Ordering.{on};
ghost use Rattle.mo_types.specs.declared.atom.Atom.{Atom};
ghost use Rattle.mo_types.specs.Keys.{compare_keys};

use mo_types::{Atom, OutSection};
use std::cmp::Ordering;

pub(crate) fn is_rising(atoms: &[Atom]) -> bool
    ensures { IsTrue result → IsStrictlySortedBy (on (λ (atom : Atom). atom.key) compare_keys) atoms.now }
{
    for i in 1..atoms.len() {
        match atoms[i - 1].key.cmp(&atoms[i].key) {
            Ordering::Less => {}
            _ => return false,
        }
    }
    true
}

pub(crate) fn are_low(atoms: &[Atom]) -> bool
    ensures { IsTrue result → All (λ atom. atom.align ≤ 14) atoms.now }
{
    atoms.iter().all(|atom| atom.align <= 14)
}

pub(crate) fn are_low_sections(sections: &[OutSection]) -> bool
    ensures { IsTrue result → All (λ section. section.align ≤ 14) sections.now }
{
    sections.iter().all(|section| section.align <= 14)
}
