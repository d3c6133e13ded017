ghost use Rattle.std.specs.Prelude.{◌≡◌, ◌↔◌, ◌+◌, ◌<◌, ◌≤◌, ◌^◌, All, IsTrue, SomeIff};
ghost use Rattle.std.specs.List.Sorted.{IsStrictlySortedBy};
ghost use Rattle.std.specs.Ordering.{on};
ghost use Rattle.mo_types.specs.declared.atom.Atom.{Atom};
ghost use Rattle.mo_types.specs.Keys.{compare_keys};
ghost use Rattle.tlv_plan.specs.Template.{aligned, atoms_of, end_of, template_size};

use crate::place::find_atom;
use crate::plan::is_thread_local;
use mo_bytes::round_up;
use mo_types::{Atom, AtomKey, AtomList, OutSection, OutSections};

/// Whether the template of these sections has fewer than 2^64 bytes, as `template` requires. Takes no memory.
pub fn fits(kept: &AtomList, sections: &OutSections) -> bool
    requires rising { IsStrictlySortedBy (on (λ (atom : Atom). atom.key) compare_keys) kept.now }
    requires atoms { All (λ atom. atom.align ≤ 14) kept.now }
    requires sections { All (λ section. section.align ≤ 14) sections.now }
    ensures { IsTrue result ↔ (template_size kept.now sections.now < 2 ^ 64) }
{
    match end_of_sections(kept.as_slice(), sections.as_slice()) {
        Some(_) => true,
        None => false,
    }
}

// Where the template ends, or `None` exactly where that is past what a `u64` holds.
fn end_of_sections(kept: &[Atom], sections: &[OutSection]) -> Option<u64>
    requires rising { IsStrictlySortedBy (on (λ (atom : Atom). atom.key) compare_keys) kept.now }
    requires atoms { All (λ atom. atom.align ≤ 14) kept.now }
    requires sections { All (λ section. section.align ≤ 14) sections.now }
    ensures { SomeIff result (template_size kept.now sections.now < 2 ^ 64) (template_size kept.now sections.now) }
{
    let mut at = 0;
    for section in sections {
        if is_thread_local(section) {
            let from = next(at, section.align, 0)?;
            at = end_of_atoms(from, kept, section.atoms.as_slice())?;
        }
    }
    Some(at)
}

// Where the atoms of a section end that stand from a place on, likewise.
fn end_of_atoms(from: u64, kept: &[Atom], keys: &[AtomKey]) -> Option<u64>
    requires rising { IsStrictlySortedBy (on (λ (atom : Atom). atom.key) compare_keys) kept.now }
    requires atoms { All (λ atom. atom.align ≤ 14) kept.now }
    ensures { SomeIff result (end_of from (atoms_of kept.now keys.now) < 2 ^ 64) (end_of from (atoms_of kept.now keys.now)) }
{
    let mut at = from;
    for key in keys {
        match find_atom(kept, key) {
            Some(atom) => at = next(at, atom.align, atom.size)?,
            None => {}
        }
    }
    Some(at)
}

// Where a thing ends that stands from a place on at the least multiple of its alignment, likewise.
fn next(at: u64, align: u8, size: u64) -> Option<u64>
    requires { align ≤ 14 }
    ensures { SomeIff result (aligned align at + size < 2 ^ 64) (aligned align at + size) }
{
    match round_up(at, align) {
        Some(place) => place.checked_add(size),
        None => None,
    }
}
