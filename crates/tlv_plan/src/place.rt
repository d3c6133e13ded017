ghost use Rattle.std.specs.Prelude.{◌≡◌, ◌<◌, ◌≤◌, ◌^◌, ◌++◌, All, IfOk, length};
ghost use Rattle.std.specs.List.Sorted.{IsStrictlySortedBy};
ghost use Rattle.std.specs.List.{find};
ghost use Rattle.std.specs.Option.{option_copied};
ghost use Rattle.std.specs.Ordering.{on, is_eq};
ghost use Rattle.mo_types.specs.declared.atom.Atom.{Atom};
ghost use Rattle.mo_types.specs.Keys.{compare_keys};
ghost use Rattle.tlv_plan.specs.Template.{aligned, atoms_of, stand, end_of, template_stand, template_size, offsets};

use crate::parts::Offset;
use crate::plan::is_thread_local;
use mo_bytes::round_up;
use mo_types::{Atom, AtomKey, OutOfMemory, OutSection, compare_atoms};
use std::alloc::Global;

// Where the atoms of the template stand, section by section, and how many bytes it has.
pub(crate) fn place_sections(
    alloc: Global,
    kept: &[Atom],
    sections: &[OutSection],
) -> Result<(Vec<Offset>, u64), OutOfMemory>
    requires rising { IsStrictlySortedBy (on (λ (atom : Atom). atom.key) compare_keys) kept.now }
    requires atoms { All (λ atom. atom.align ≤ 14) kept.now }
    requires sections { All (λ section. section.align ≤ 14) sections.now }
    requires fits { template_size kept.now sections.now < 2 ^ 64 }
    ensures places { IfOk result (λ r. r.0.items ≡ offsets (template_stand kept.now sections.now)) }
    ensures size { IfOk result (λ r. r.1 ≡ template_size kept.now sections.now) }
{
    let mut places = Vec::new(alloc);
    let mut at = 0;
    for section in sections {
        if is_thread_local(section) {
            let from = up(at, section.align);
            at = place_atoms(&mut places, from, kept, section.atoms.as_slice())?;
        }
    }
    Ok((places, at))
}

// Appends where the atoms of a section stand from a place on, and answers where the last one ends.
fn place_atoms(
    places: &mut Vec<Offset>,
    from: u64,
    kept: &[Atom],
    keys: &[AtomKey],
) -> Result<u64, OutOfMemory>
    requires rising { IsStrictlySortedBy (on (λ (atom : Atom). atom.key) compare_keys) kept.now }
    requires atoms { All (λ atom. atom.align ≤ 14) kept.now }
    requires fits { end_of from (atoms_of kept.now keys.now) < 2 ^ 64 }
    ensures places { IfOk result (λ end. places.new.items ≡ places.old.items ++ offsets (stand from (atoms_of kept.now keys.now))) }
    ensures end { IfOk result (λ end. end ≡ end_of from (atoms_of kept.now keys.now)) }
{
    let mut at = from;
    for key in keys {
        match find_atom(kept, key) {
            Some(atom) => {
                let offset = up(at, atom.align);
                places.push(Offset { atom: *key, offset })?;
                at = offset + atom.size;
            }
            None => {}
        }
    }
    Ok(at)
}

// The least multiple of 2^`align` from a place on.
fn up(at: u64, align: u8) -> u64
    requires align { align ≤ 14 }
    requires fits { aligned align at < 2 ^ 64 }
    ensures { result ≡ aligned align at }
{
    match round_up(at, align) {
        Some(place) => place,
        None => at,
    }
}

// The kept atom with a key.
pub(crate) fn find_atom<'a>(kept: &'a [Atom], key: &AtomKey) -> Option<&'a Atom>
    requires { IsStrictlySortedBy (on (λ (atom : Atom). atom.key) compare_keys) kept.now }
    ensures { option_copied result ≡ find (λ atom. is_eq (compare_keys atom.key key.now)) kept.now }
{
    match kept.binary_search_by(|atom| compare_atoms(&atom.key, key)) {
        Ok(at) => Some(&kept[at]),
        Err(_) => None,
    }
}
