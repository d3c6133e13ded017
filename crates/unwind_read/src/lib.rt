//! The unwind entries of an object: what its section `__LD,__compact_unwind` says (`compact_unwind_encoding.h`).
//!
//! `unwind_of` gives exactly the entries of the definition, `unwinds_of` (`specs/Unwinds.antt`), in the order in which
//! the object has them: each with its function's atom and the offset in it, its length, its encoding, its personality
//! and its lsda. Or it tells the least place at which the rule of entries fails. The rule is a list of parts
//! (`specs/Rules.antt`). Each says of how many things of a section it is asked, whether it fails at one of them, and at
//! which place that is told: that the section is whole entries, that its relocations are the first pointers of fields,
//! and four tests of an entry. Of the entries that pass these, two may not cover an offset together
//! (`specs/Overlaps.antt`). Which file it is matters to no part.
//!
//! Where a field leads is `pointee` (`specs/Spots.antt`): to the address that it holds, or to the object's own
//! definition of a symbol, moved by what it holds. A range ends at its atom's end, which is the next cut or the
//! section's end (`end_of`); an entry whose range is empty is dropped.
//!
//! The laws say that each entry stands for a part of an atom that isn't empty (`entries_lie_in_atoms`), that no two have a
//! byte of an atom in common (`entries_are_apart`), and which fault is told (`the_least_fault_is_told`).
//!
//! Relocations are sorted by their entries in one pass, into a table of 16 bytes an entry, and each entry is read once.
//! The search for an atom begins behind the one that was found last, or, where many were far from the last, where a guide
//! says. Ranges are sorted only where they don't rise, and counted only where two of them overlap. As `reloc_read` the
//! crate takes an object with its atoms, and so can be asked by the reader of objects.
//!
//! Refused are a body that takes a personality from its lsda's relocation, one that lets a range go past its atom's
//! end, one that keeps an entry whose range is empty, and one that takes an address for the section's start.
#![tactic(auto)]

ghost use Rattle.std.specs.Prelude.{◌≡◌};
ghost use Rattle.mo_types.specs.Atoms.{atoms_of};
ghost use Rattle.mo_types.specs.Gives.{Gives};
ghost use Rattle.mo_types.specs.Whole.{IsWhole};
ghost use Rattle.unwind_read.specs.Unwinds.{IsUnwindFault, unwinds_of};

mod cut_object;
mod entries;
mod entry;
mod entry_rows;
mod fault;
mod fields;
mod guide;
mod laws;
mod least;
mod overlaps;
mod pointers;
mod ranges;
mod section_notes;
mod sections;
mod spans;
mod spots;

use cut_object::CutObject;
pub use entry::CompactUnwindEntry;
pub use fault::UnwindFault;
pub use laws::{entries_are_apart, entries_lie_in_atoms, the_least_fault_is_told};
use least::lesser;
use mo_types::{AtomList, FileId, Object, UnwindList};
use ranges::range_fault;
use section_notes::notes_of;
use sections::{Entries, add_sections, room_for};
use std::alloc::Global;

/// The unwind entries of a whole object with its atoms, in the order of its sections of them; or the least place at
/// which the rule of entries fails. An entry whose range is empty is dropped.
pub fn unwind_of(
    alloc: Global,
    object: &Object,
    atoms: &AtomList,
    file: FileId,
) -> Result<UnwindList, UnwindFault>
    requires whole { IsWhole object.now }
    requires atoms { atoms.now ≡ atoms_of object.now file }
    ensures { Gives IsUnwindFault result (unwinds_of object.now file) }
{
    let notes = notes_of(alloc, object.sections.as_slice())?;
    let cut = CutObject {
        object,
        atoms: atoms.as_slice(),
        notes: notes.as_slice(),
        file,
    };
    let mut entries = room_for(alloc, object.sections.as_slice())?;
    let broken = add_sections(alloc, &mut entries, &cut, object.sections.as_slice())?;
    let overlapping = range_fault(alloc, &cut, entries.unwinds.as_slice(), &entries.ranges)?;
    if let Some(place) = lesser(broken, overlapping) {
        return Err(UnwindFault::BadEntry { place });
    }
    let Entries { unwinds, .. } = entries;
    Ok(UnwindList::from_vec(unwinds))
}
