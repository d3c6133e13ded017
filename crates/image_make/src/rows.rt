//! The atoms that have bytes in the image, in its order, with their places.
ghost use Rattle.std.specs.Prelude.{◌≡◌, ◌+◌, ◌-◌, ◌≤◌, ◌++◌, ◌∷◌, [], All, IfOk, IsTrue, slice_get};
ghost use Rattle.std.specs.List.{filter_map};
ghost use Rattle.std.specs.Option.{option_map, option_to_list};
ghost use Rattle.sect_place.specs.Addresses.{AreOnce, address_in};
ghost use Rattle.image_make.specs.Atoms.{AreRising, kept_at};
ghost use Rattle.image_make.specs.Rows as spec;

use crate::kept::{KeptAtom, KeptList};
use mo_types::{AtomKey, OutOfMemory, compare_atoms};
use patch::PlacedWork;
use sect_place::{Layout, PlacedSection, address_near, is_zerofill};
use std::alloc::Global;

// A kept atom, and its place in the list.
#[derive(Clone, Copy)]
struct PlacedKept {
    kept: KeptAtom,
    at: usize,
}

// The kept atom at a place.
fn found_at(atoms: &KeptList, at: usize) -> Option<PlacedKept>
    ensures { option_map (λ found. found.kept) result ≡ slice_get atoms.now at }
{
    Some(PlacedKept {
        kept: atoms.get(at)?,
        at,
    })
}

// The kept atom with a key.
fn find_kept(atoms: &KeptList, key: AtomKey) -> Option<PlacedKept>
    requires { AreRising atoms.now }
    ensures { option_map (λ found. found.kept) result ≡ kept_at atoms.now key }
{
    let alone = atoms.atoms().as_slice();
    match alone.binary_search_by(|atom| compare_atoms(&atom.key, &key)) {
        Ok(at) => found_at(atoms, at),
        Err(_) => None,
    }
}

// Whether a kept atom has a key.
fn has_key(kept: &KeptAtom, key: &AtomKey) -> bool
    ensures { IsTrue result → kept.now.atom.key ≡ key.now }
{
    kept.atom.key == *key
}

// The kept atom with a key, which mostly stands at a place of the list.
#[tactic(auto, using(crate::proofs::KeptListLemmas::near))]
fn find_near(atoms: &KeptList, near: usize, key: AtomKey) -> Option<PlacedKept>
    requires { AreRising atoms.now }
    ensures { option_map (λ found. found.kept) result ≡ kept_at atoms.now key }
{
    if let Some(kept) = atoms.get(near) {
        if has_key(&kept, &key) {
            return Some(PlacedKept { kept, at: near });
        }
    }
    find_kept(atoms, key)
}

// The address of an atom, which mostly stands at a place of the list of addresses.
fn address_beside(layout: &Layout, near: usize, atom: AtomKey) -> Option<u64>
    requires { AreOnce layout.now.placed }
    ensures { result ≡ address_in layout.now.placed atom }
{
    address_near(layout, near, atom)
}

// Where an address of a section stands in the file.
fn place_in_file(section: &PlacedSection, address: u64) -> u64
    requires { section.now.file_offset ≤ section.now.address }
    ensures { result ≡ section.now.file_offset + (address - section.now.address) }
{
    section.file_offset + address.saturating_sub(section.address)
}

// Atoms, and a kept one that stands at an address in a section.
fn with_row(
    before: Vec<PlacedWork>,
    section: &PlacedSection,
    kept: &KeptAtom,
    address: u64,
) -> Result<Vec<PlacedWork>, OutOfMemory>
    requires { section.now.file_offset ≤ section.now.address }
    ensures { IfOk result (λ new. new.items ≡ before.items ++ spec.row_at section.now kept.now address ∷ []) }
{
    let mut items = before;
    items.push(PlacedWork {
        atom: kept.atom,
        file: kept.file,
        at: place_in_file(section, address),
        address,
    })?;
    Ok(items)
}

// Atoms, and the one with a key in a section, which mostly is the next of the kept ones; another one is then the next.
#[tactic(auto, using(crate::proofs::ListLemmas::no_more), unfolding(crate::specs::Rows::row_of))]
fn with_key(
    before: Vec<PlacedWork>,
    atoms: &KeptList,
    layout: &Layout,
    section: &PlacedSection,
    key: AtomKey,
    next: &mut usize,
) -> Result<Vec<PlacedWork>, OutOfMemory>
    requires once { AreOnce layout.now.placed }
    requires rising { AreRising atoms.now }
    requires file { section.now.file_offset ≤ section.now.address }
    ensures { IfOk result (λ new. new.items ≡ before.items ++ option_to_list (spec.row_of layout.now.placed atoms.now section.now key)) }
{
    let Some(found) = find_near(atoms, *next, key) else {
        return Ok(before);
    };
    *next = found.at.saturating_add(1);
    let Some(address) = address_beside(layout, found.at, key) else {
        return Ok(before);
    };
    with_row(before, section, &found.kept, address)
}

// Atoms, and those with some keys in a section.
#[tactic(auto, using(crate::proofs::ListLemmas::keys_start, crate::proofs::ListLemmas::keys_end))]
fn with_keys(
    before: Vec<PlacedWork>,
    atoms: &KeptList,
    layout: &Layout,
    section: &PlacedSection,
    keys: &[AtomKey],
) -> Result<Vec<PlacedWork>, OutOfMemory>
    requires once { AreOnce layout.now.placed }
    requires rising { AreRising atoms.now }
    requires file { section.now.file_offset ≤ section.now.address }
    ensures { IfOk result (λ new. new.items ≡ before.items ++ filter_map (spec.row_of layout.now.placed atoms.now section.now) keys.now) }
{
    let mut items = before;
    let mut next = 0;
    for key in keys {
        items = with_key(items, atoms, layout, section, *key, &mut next)?;
    }
    Ok(items)
}

// Atoms, and those of a section.
fn with_section(
    before: Vec<PlacedWork>,
    atoms: &KeptList,
    layout: &Layout,
    section: &PlacedSection,
) -> Result<Vec<PlacedWork>, OutOfMemory>
    requires once { AreOnce layout.now.placed }
    requires rising { AreRising atoms.now }
    requires file { section.now.file_offset ≤ section.now.address }
    ensures { IfOk result (λ new. new.items ≡ before.items ++ spec.section_rows layout.now.placed atoms.now section.now) }
{
    with_keys(
        before,
        atoms,
        layout,
        section,
        section.section.atoms.as_slice(),
    )
}

fn has_bytes(section: &PlacedSection) -> bool
    ensures { result ≡ spec.has_bytes section.now }
{
    !is_zerofill(section.section.kind)
}

// Atoms, and those of the sections that have bytes.
#[tactic(auto, using(crate::proofs::ListLemmas::sections))]
fn with_sections(
    before: Vec<PlacedWork>,
    atoms: &KeptList,
    layout: &Layout,
    sections: &[PlacedSection],
) -> Result<Vec<PlacedWork>, OutOfMemory>
    requires once { AreOnce layout.now.placed }
    requires rising { AreRising atoms.now }
    requires files { All (λ section. section.file_offset ≤ section.address) sections.now }
    ensures { IfOk result (λ new. new.items ≡ before.items ++ spec.rows layout.now.placed atoms.now sections.now) }
{
    let mut items = before;
    for section in sections {
        if has_bytes(section) {
            items = with_section(items, atoms, layout, section)?;
        }
    }
    Ok(items)
}

/// What is written into an image: each kept atom in a section with bytes in the file, in the order of the image, with its
/// places in the file and in memory.
pub fn work_of(
    alloc: Global,
    kept: &KeptList,
    layout: &Layout,
) -> Result<Vec<PlacedWork>, OutOfMemory>
    requires once { AreOnce layout.now.placed }
    requires rising { AreRising kept.now }
    requires files { All (λ section. section.file_offset ≤ section.address) layout.now.sections }
    ensures { IfOk result (λ work. work.items ≡ spec.rows layout.now.placed kept.now layout.now.sections) }
{
    let none = Vec::with_capacity(alloc, kept.len())?;
    with_sections(none, kept, layout, layout.sections.as_slice())
}
