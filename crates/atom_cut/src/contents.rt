//! The bytes of atoms.

ghost use Rattle.std.specs.Prelude.{◌≡◌, drop, take};
ghost use Rattle.std.specs.Option.{option_copied};
ghost use Rattle.mo_types.specs.AtomBytes.{atom_bytes};
ghost use Rattle.mo_types.specs.RelocationRules.{section_numbered};

use mo_types::{Atom, Object, Section};

// The section of a number from 1.
fn section_of(sections: &[Section], number: u16) -> Option<&Section>
    ensures { option_copied result ≡ section_numbered sections.now number }
{
    if number == 0 {
        return None;
    }
    sections.get(usize::from(number) - 1)
}

// The part of some bytes from a place on, or as much of it as they have.
#[tactic(auto, using(crate::proofs::ContentLemmas::parts))]
fn part(bytes: &[u8], at: u64, size: u64) -> &[u8]
    ensures { result.now ≡ take size (drop at bytes.now) }
{
    let start = at.min(bytes.len() as u64) as usize;
    let rest = &bytes[start..];
    let count = size.min(rest.len() as u64) as usize;
    &rest[..count]
}

/// The bytes of an atom of an object: its part of its section's bytes. It has none in a section without bytes in
/// the file, and as a common symbol.
pub fn bytes_of<'a>(object: &'a Object, atom: &Atom) -> &'a [u8]
    ensures { result.now ≡ atom_bytes object.now atom.now }
{
    match section_of(object.sections.as_slice(), atom.key.section) {
        Some(section) => part(section.bytes.as_slice(), atom.key.offset, atom.size),
        None => &[],
    }
}
