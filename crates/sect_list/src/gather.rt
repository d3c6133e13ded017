//! Gathers atoms into the sections of the image.
ghost use Rattle.std.specs.Prelude.{◌≡◌, ◌<◌, ◌++◌, ◌∷◌, [], List, IfOk, OnOk, length, map, slice_index_or, slice_set, if◌then◌else◌};
ghost use Rattle.std.specs.List.Sorted.{IsStrictlySortedBy};
ghost use Rattle.std.specs.Ordering.{on};
ghost use Rattle.mo_types.specs.Keys.{compare_files};
ghost use Rattle.mo_types.specs.declared.key.TheConstants.{COMMON_SECTION};
ghost use Rattle.mo_types.specs.declared.loaded.LoadedFile.{LoadedFile};
ghost use Rattle.mo_types.specs.declared.out_section.OutSection.{OutSection};
ghost use Rattle.sect_list.specs.OutSections as spec;
ghost use Rattle.sect_list.specs.inner.Gathered.{AreGathered, held_home, with_atom};

use crate::home::{Home, common_home, next_home};
use crate::to::To;
use indexmap::IndexSet;
use mo_types::{
    Atom, AtomKey, Bytes, COMMON_SECTION, FileId, KeyList, LoadedFile, OutOfMemory, OutSection,
};
use std::alloc::Global;

// A section without atoms.
#[tactic(auto, unfolding(crate::specs::OutSections::section_with))]
fn section_for(alloc: Global, home: &Home) -> Result<OutSection, OutOfMemory>
    ensures { IfOk result (λ section. section ≡ spec.section_with (held_home home.now).to []) }
{
    Ok(OutSection {
        segment: Bytes::from_slice(alloc, home.segment)?,
        name: Bytes::from_slice(alloc, home.name)?,
        kind: home.kind,
        flags: u32::from(home.kind),
        align: 0,
        atoms: KeyList::new(alloc),
    })
}

// Appends a section without atoms, where it is new.
fn open_section(
    alloc: Global,
    sections: &mut Vec<OutSection>,
    home: &Home,
    new: bool,
) -> Result<(), OutOfMemory>
    ensures { OnOk result (sections.new.items ≡ (if new then sections.old.items ++ spec.section_with (held_home home.now).to [] ∷ [] else sections.old.items)) }
{
    if new {
        sections.push(section_for(alloc, home)?)?;
    }
    Ok(())
}

// Puts an atom into a section.
fn add_atom(section: &mut OutSection, atom: &Atom, attributes: u32) -> Result<(), OutOfMemory>
    ensures { OnOk result (section.new ≡ with_atom section.old atom.now attributes) }
{
    section.atoms.push(atom.key)?;
    section.flags |= attributes;
    section.align = section.align.max(atom.align);
    Ok(())
}

// Puts an atom into the section at a place.
fn add_at(
    sections: &mut Vec<OutSection>,
    at: usize,
    atom: &Atom,
    attributes: u32,
) -> Result<(), OutOfMemory>
    requires { at < length sections.old.items }
    ensures { OnOk result ((d : OutSection) → sections.new.items
        ≡ slice_set sections.old.items at (with_atom (slice_index_or sections.old.items at d) atom.now attributes)) }
{
    add_atom(&mut sections[at], atom, attributes)
}

// Puts an atom into the section to which its home leads.
fn add_row<'a>(
    alloc: Global,
    places: &mut IndexSet<To<'a>>,
    sections: &mut Vec<OutSection>,
    home: Home<'a>,
    atom: &Atom,
) -> Result<(), OutOfMemory>
    ensures { OnOk result ((rows : List spec.Row) → AreGathered rows places.old.keys sections.old.items
        → AreGathered (rows ++ record { atom = atom.now; home = held_home home.entry } ∷ []) places.new.keys sections.new.items) }
{
    let (at, new) = places.insert_full(To::new(&home))?;
    open_section(alloc, sections, &home, new)?;
    if at < sections.len() {
        add_at(sections, at, atom, home.attributes)?;
    }
    Ok(())
}

// The sections of some atoms.
pub(crate) fn gather(
    alloc: Global,
    files: &[LoadedFile],
    kept: &[Atom],
) -> Result<Vec<OutSection>, OutOfMemory>
    requires { IsStrictlySortedBy (on (λ (file : LoadedFile). file.id) compare_files) files.now }
    ensures { IfOk result (λ sections. sections.items ≡ spec.sections_of (spec.rows files.now kept.now)) }
{
    let mut places = IndexSet::new(alloc);
    let mut sections = Vec::new(alloc);
    let mut last = common_key();
    let mut home = Some(common_home());
    for atom in kept {
        home = next_home(files, &last, home, &atom.key);
        last = atom.key;
        match home {
            Some(home) => add_row(alloc, &mut places, &mut sections, home, atom)?,
            None => {}
        }
    }
    Ok(sections)
}

// The key of a common symbol's atom.
fn common_key() -> AtomKey
    ensures { result.section ≡ COMMON_SECTION }
{
    AtomKey {
        file: FileId {
            position: 0,
            member: 0,
        },
        section: COMMON_SECTION,
        offset: 0,
    }
}
