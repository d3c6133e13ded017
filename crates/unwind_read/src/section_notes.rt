//! What is asked of a section for each field that leads into it, found out once.

ghost use Rattle.std.specs.Prelude.{◌≡◌, map, slice_get, IfOk, Some};
ghost use Rattle.std.specs.Option.{option_copied};
ghost use Rattle.mo_types.specs.RelocationRules.{section_numbered};
ghost use Rattle.unwind_read.specs.SectionNotes.{note_of};

use mo_types::{OutOfMemory, Section};
use std::alloc::Global;

/// Whether a section is linked, and whether it is in `__TEXT`.
#[derive(Clone, Copy, Debug, PartialEq, Eq)]
pub struct SectionNote {
    pub is_linked: bool,
    pub in_text: bool,
}

fn note_of(section: &Section) -> SectionNote
    ensures { result ≡ note_of section.now }
{
    SectionNote {
        is_linked: !section.is_dropped(),
        in_text: section.segment.as_slice() == b"__TEXT".as_slice(),
    }
}

/// What is noted of the sections of an object.
pub fn notes_of(alloc: Global, sections: &[Section]) -> Result<Vec<SectionNote>, OutOfMemory>
    ensures { IfOk result (λ notes. notes.items ≡ map note_of sections.now) }
{
    let mut notes = Vec::with_capacity(alloc, sections.len())?;
    for section in sections {
        notes.push(note_of(section))?;
    }
    Ok(notes)
}

fn note_there(notes: &[SectionNote], at: usize) -> Option<&SectionNote>
    ensures { option_copied result ≡ slice_get notes.now at }
{
    notes.get(at)
}

/// What is noted of the section of a number.
#[tactic(auto, using(crate::proofs::SectionNoteLemmas::notes))]
pub fn note_at(
    sections: &[Section],
    notes: &[SectionNote],
    number: u32,
    section: &Section,
) -> SectionNote
    requires notes { notes.now ≡ map note_of sections.now }
    requires numbered { section_numbered sections.now number ≡ Some section.now }
    ensures { result ≡ note_of section.now }
{
    match note_there(notes, (number as usize).saturating_sub(1)) {
        Some(note) => *note,
        None => note_of(section),
    }
}
