ghost use Rattle.std.specs.Prelude.{◌≡◌, ◌≤◌, All, IfOk};
ghost use Rattle.std.specs.List.{AllPairs};
ghost use Rattle.mo_types.specs.Loaded.{IsBefore};
ghost use Rattle.mo_types.specs.declared.loaded.LoadedFile.{LoadedFile};
ghost use Rattle.sect_list.specs.OutSections as spec;

use crate::gather::gather;
use crate::lead::led;
use crate::order::in_order;
use mo_types::{AtomList, Loaded, OutOfMemory, OutSections};
use std::alloc::Global;

/// The sections of an image that hold the atoms that are kept of loaded files, in the order in which they stand: for each
/// segment, name and type to which an atom goes one section, with its atoms in the order of `kept` (`loader.h`:
/// section_64). Atoms come with the alignment with which they are to be placed; those of common symbols go to
/// `__DATA,__common`. An atom of which the files have no section is in none.
pub fn out_sections(
    alloc: Global,
    loaded: &Loaded,
    kept: &AtomList,
) -> Result<OutSections, OutOfMemory>
    requires { AllPairs (λ (a : LoadedFile) (b : LoadedFile). IsBefore a.id b.id) loaded.now.files }
    ensures exact { IfOk result (λ sections. sections ≡ spec.out_sections loaded.now.files kept.now) }
    ensures low { All (λ atom. atom.align ≤ 14) kept.now → IfOk result (All (λ section. section.align ≤ 14)) }
{
    let gathered = gather(alloc, loaded.files.as_slice(), kept.as_slice())?;
    let ordered = in_order(alloc, gathered)?;
    Ok(OutSections::from_vec(led(ordered)))
}
