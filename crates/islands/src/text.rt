//! The atoms of `__text` and their groups.
ghost use Rattle.std.specs.Prelude.{◌≡◌, ◌++◌, ◌&&◌, ◌<◌, ◌≤◌, ◌^◌, All, IfOk, length, map};
ghost use Rattle.std.specs.List.{find, list_any};
ghost use Rattle.std.specs.List.Sorted.{IsStrictlySortedBy};
ghost use Rattle.std.specs.Ordering.{on, is_eq, is_lt};
ghost use Rattle.mo_types.specs.Keys.{compare_keys};
ghost use Rattle.mo_types.specs.declared.atom.Atom.{Atom};
ghost use Rattle.mo_types.specs.declared.out_section.OutSection.{OutSection};
ghost use Rattle.tlv_plan.specs.Template.{atoms_of};
ghost use Rattle.sect_list.specs.OutSections.{is_in};
ghost use Rattle.sect_place.specs.Addresses.{address_in};
ghost use Rattle.sect_place.specs.Arrangement as arrangement;
ghost use Rattle.sect_place.specs.declared.layout.PlacedSection.{PlacedSection};
ghost use Rattle.sect_place.specs.Moved.{code_keys};
ghost use Rattle.sect_place.specs.Shifts.{sections_in};
ghost use Rattle.island_core.specs.declared.cut.Extent.{Extent};
ghost use Rattle.islands.specs.Text as spec;
ghost use Rattle.islands.specs.inner.Ordered.{IsOrdered, test_of};

use atom_index::is_same;
use island_core::Extent;
use mo_format::loader::S_REGULAR;
use mo_types::{Atom, AtomKey, OutOfMemory, OutSection, compare_atoms};
use sect_place::{Layout, PlacedSection, address};
use std::alloc::Global;

// Whether a section is of `__TEXT`.
pub(crate) fn is_text(section: &OutSection) -> bool
    ensures { result ≡ spec.is_text section.now }
{
    section.segment.as_slice() == b"__TEXT".as_slice()
}

// Whether it is `__text` of instructions.
pub(crate) fn is_code(section: &OutSection) -> bool
    ensures { result ≡ arrangement.is_code section.now }
{
    is_text(section)
        && section.name.as_slice() == b"__text".as_slice()
        && u32::from(section.kind) == S_REGULAR
}

// Sections that islands move in the same way.
#[derive(Clone, Copy)]
pub(crate) enum Region {
    Code,
    Text,
}

impl Region {
    // Whether it has a section.
    fn has(self, section: &OutSection) -> bool
        ensures { result ≡ test_of self section.now }
    {
        match self {
            Region::Code => is_code(section),
            Region::Text => is_text(section),
        }
    }
}

// The kept atoms of `__text`.
#[tactic(auto, unfolding(crate::specs::Text::text_atoms))]
pub(crate) fn text_atoms(
    alloc: Global,
    kept: &[Atom],
    sections: &[PlacedSection],
) -> Result<Vec<Atom>, OutOfMemory>
    requires { IsStrictlySortedBy (on (λ (atom : Atom). atom.key) compare_keys) kept.now }
    ensures { IfOk result (λ atoms. atoms.items ≡ atoms_of kept.now (code_keys (sections_in sections.now))) }
{
    let mut atoms = Vec::new(alloc);
    for placed in sections {
        if is_code(&placed.section) {
            add_atoms(&mut atoms, kept, placed.section.atoms.as_slice())?;
        }
    }
    Ok(atoms)
}

// Appends the kept atoms of some keys.
fn add_atoms(atoms: &mut Vec<Atom>, kept: &[Atom], keys: &[AtomKey]) -> Result<(), OutOfMemory>
    requires { IsStrictlySortedBy (on (λ (atom : Atom). atom.key) compare_keys) kept.now }
    ensures { IfOk result (λ done. atoms.new.items ≡ atoms.old.items ++ atoms_of kept.now keys.now) }
{
    let mut near = 0;
    for key in keys {
        let (found, next) = find_near(kept, near, key);
        near = next;
        match found {
            Some(atom) => atoms.push(atom)?,
            None => {}
        }
    }
    Ok(())
}

// The kept atom with a key, which is looked for at a place first, and the place behind it.
fn find_near(kept: &[Atom], near: usize, key: &AtomKey) -> (Option<Atom>, usize)
    requires { IsStrictlySortedBy (on (λ (atom : Atom). atom.key) compare_keys) kept.now }
    ensures { result.0 ≡ find (λ atom. is_eq (compare_keys atom.key key.now)) kept.now }
{
    if near < kept.len() {
        let atom = kept[near];
        if is_same(&atom.key, key) {
            return (Some(atom), near + 1);
        }
    }
    match kept.binary_search_by(|atom| compare_atoms(&atom.key, key)) {
        Ok(at) => (Some(kept[at]), at + 1),
        Err(at) => (None, at),
    }
}

// Where an atom stands, if the layout has it.
pub(crate) fn address_of(layout: &Layout, key: &AtomKey) -> Option<u64>
    requires { IsOrdered layout.now }
    ensures { result ≡ address_in layout.now.placed key.now }
{
    address(layout, *key)
}

// Where an atom stands, or 0.
pub(crate) fn place_of(layout: &Layout, key: &AtomKey) -> u64
    requires { IsOrdered layout.now }
    ensures { result ≡ spec.place_in layout.now key.now }
{
    address_of(layout, key).unwrap_or(0)
}

// Atoms from their first bytes to their ends.
pub(crate) fn extents(
    alloc: Global,
    layout: &Layout,
    atoms: &[Atom],
) -> Result<Vec<Extent>, OutOfMemory>
    requires { IsOrdered layout.now }
    ensures exact { IfOk result (λ extents. extents.items ≡ map (spec.extent_of layout.now) atoms.now) }
    ensures near { IfOk result (λ extents. All (λ (extent : Extent). extent.from < 2 ^ 66) extents.items) }
{
    let mut extents = Vec::with_capacity(alloc, atoms.len())?;
    for atom in atoms {
        extents.push(extent_of(layout, atom))?;
    }
    Ok(extents)
}

// An atom from its first byte to its end.
fn extent_of(layout: &Layout, atom: &Atom) -> Extent
    requires { IsOrdered layout.now }
    ensures exact { result ≡ spec.extent_of layout.now atom.now }
    ensures near { result.from < 2 ^ 66 }
{
    let from = u128::from(place_of(layout, &atom.key));
    Extent {
        from,
        to: from + u128::from(atom.size),
    }
}

// The last atom of each group, by the groups' ends.
pub(crate) fn lasts(
    alloc: Global,
    atoms: &[Atom],
    ends: &[usize],
) -> Result<Vec<AtomKey>, OutOfMemory>
    requires { All (λ end. (0 < end) × (end ≤ length atoms.now)) ends.now }
    ensures { IfOk result (λ lasts. lasts.items ≡ spec.lasts_of atoms.now ends.now) }
{
    let mut lasts = Vec::with_capacity(alloc, ends.len())?;
    for end in ends {
        lasts.push(atoms[*end - 1].key)?;
    }
    Ok(lasts)
}

// How many groups end before an atom of `__text`.
pub(crate) fn groups_before(lasts: &[AtomKey], key: &AtomKey) -> usize
    requires { IsStrictlySortedBy compare_keys lasts.now }
    ensures exact { result ≡ spec.groups_before lasts.now key.now }
    ensures low { result ≤ length lasts.now }
{
    lasts.partition_point(|last| is_before(last, key))
}

// Whether an atom is before another.
fn is_before(a: &AtomKey, b: &AtomKey) -> bool
    ensures { result ≡ is_lt (compare_keys a.now b.now) }
{
    compare_atoms(a, b).is_lt()
}

// Whether keys have one.
fn has_key(keys: &[AtomKey], key: &AtomKey) -> bool
    requires { IsStrictlySortedBy compare_keys keys.now }
    ensures { result ≡ spec.has_key keys.now key.now }
{
    match keys.binary_search_by(|k| compare_atoms(k, key)) {
        Ok(_) => true,
        Err(_) => false,
    }
}

// Whether sections of a region list an atom.
fn lists(sections: &[PlacedSection], region: Region, key: &AtomKey) -> bool
    requires { All (λ (p : PlacedSection). IsStrictlySortedBy compare_keys p.section.atoms) sections.now }
    ensures { result ≡ list_any (λ p. test_of region p.section && spec.has_key p.section.atoms key.now) sections.now }
{
    for placed in sections {
        if region.has(&placed.section) && has_key(placed.section.atoms.as_slice(), key) {
            return true;
        }
    }
    false
}

// Whether an atom stands in `__text`.
pub(crate) fn in_code(layout: &Layout, key: &AtomKey) -> bool
    requires { IsOrdered layout.now }
    ensures { result ≡ spec.in_code layout.now key.now }
{
    lists(layout.sections.as_slice(), Region::Code, key) && address(layout, *key).is_some()
}

// Whether an atom stands in `__TEXT`.
pub(crate) fn in_text(layout: &Layout, key: &AtomKey) -> bool
    requires { IsOrdered layout.now }
    ensures { result ≡ spec.in_text layout.now key.now }
{
    lists(layout.sections.as_slice(), Region::Text, key) && address(layout, *key).is_some()
}
