//! The atoms of an object, section by section.

ghost use Rattle.std.specs.Prelude.{◌≡◌, ◌+◌, ◌++◌, ◌<◌, length, slice_index_or, IfOk, OnOk};
ghost use Rattle.mo_types.specs.Atoms as cutting;
ghost use Rattle.mo_types.specs.Whole.{IsWhole};
ghost use Rattle.mo_types.specs.declared.object.Section.{Section};
ghost use Rattle.atom_cut.specs.Offsets.{offsets_in};

use crate::offsets::symbol_offsets;
use crate::pieces::add_pieces;
use crate::section_cuts::cuts_of;
use mo_types::{Atom, AtomList, FileId, Object, OutOfMemory};
use std::alloc::Global;

// Puts the atoms of the section of an index at the end of the others.
#[tactic(auto, using(crate::proofs::AtomLemmas::sections), unfolding(mo_types::specs::Atoms::section_atoms))]
fn add_section(
    alloc: Global,
    atoms: &mut Vec<Atom>,
    object: &Object,
    file: FileId,
    index: usize,
    offsets: &[u64],
) -> Result<(), OutOfMemory>
    requires whole { IsWhole object.now }
    requires index { index < length object.now.sections }
    requires offsets { (d : Section) → offsets.now ≡ offsets_in object.now.symbols (index + 1) (slice_index_or object.now.sections index d) }
    ensures { OnOk result ((d : Section) → atoms.new.items
        ≡ atoms.old.items ++ cutting.section_atoms object.now file (index + 1) (slice_index_or object.now.sections index d)) }
{
    let section = &object.sections.as_slice()[index];
    if section.is_dropped() {
        return Ok(());
    }
    let cuts = cuts_of(alloc, object, index, offsets)?;
    let number = index as u16 + 1;
    add_pieces(atoms, file, number, section, cuts.as_slice())
}

/// The atoms of an object, by rising key. An object with `MH_SUBSECTIONS_VIA_SYMBOLS` is cut at the symbols
/// that may begin an atom; strings and literals are always cut.
#[tactic(auto, using(crate::proofs::AtomLemmas::atoms_loop))]
pub fn cut(alloc: Global, object: &Object, file: FileId) -> Result<AtomList, OutOfMemory>
    requires { IsWhole object.now }
    ensures { IfOk result (λ atoms. atoms ≡ cutting.atoms_of object.now file) }
{
    let offsets = symbol_offsets(alloc, object.sections.as_slice(), object.symbols.as_slice())?;
    let mut atoms = Vec::new(alloc);
    for (index, starts) in offsets.iter().enumerate() {
        add_section(alloc, &mut atoms, object, file, index, starts.as_slice())?;
    }
    Ok(AtomList::from_vec(atoms))
}
