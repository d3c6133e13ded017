//! Where the fields of an entry lead.

ghost use Rattle.std.specs.Prelude.{◌≡◌, ◌+◌, ◌^◌, ◌<◌, IfSome};
ghost use Rattle.mo_types.specs.RelocationRules as places;
ghost use Rattle.unwind_read.specs.CutObject.{IsCut};
ghost use Rattle.unwind_read.specs.SectionNotes.{note_of};
ghost use Rattle.unwind_read.specs.Spots as spots;
ghost use Rattle.unwind_read.specs.Spots.{IsSpot};

use crate::cut_object::{CutObject, bounds_of};
use crate::guide::Hint;
use crate::section_notes::{SectionNote, note_at};
use mo_types::{RawReloc, Section, SymbolKind};

/// A place in an atom of a linked section.
#[derive(Clone, Copy, Debug)]
pub struct Spot {
    /// The number of the section, from 1.
    pub section: u16,
    /// The offset in the section at which the atom begins.
    pub start: u64,
    /// The place's own offset in the section.
    pub offset: u64,
    /// The offset in the section at which the atom ends.
    pub end: u64,
    /// Whether the section is in `__TEXT`.
    pub in_text: bool,
}

fn is_within(section: &Section, address: u64) -> bool
    ensures { result ≡ places.is_within section.now address }
{
    section.address <= address && address - section.address <= section.size
}

fn holds(section: &Section, note: &SectionNote, address: u64) -> bool
    requires { note.now ≡ note_of section.now }
    ensures { result ≡ spots.holds section.now address }
{
    note.is_linked && is_within(section, address)
}

/// The place of an address in the section of a number, where that is linked and holds it, its end included.
#[tactic(auto, using(crate::proofs::SpotLemmas::spots))]
pub fn spot_at(cut: &CutObject, hint: &mut Hint, number: u32, address: u64) -> Option<Spot>
    requires { IsCut cut.now }
    ensures value { result ≡ spots.spot_at cut.now.object.now number address }
    ensures spot { IfSome result IsSpot }
{
    let section = cut.object.section(number)?;
    let note = note_at(cut.object.sections.as_slice(), cut.notes, number, section);
    if !holds(section, &note, address) {
        return None;
    }
    let offset = address - section.address;
    let (start, end) = bounds_of(cut, hint, number, section, offset);
    Some(Spot {
        section: number as u16,
        start,
        offset,
        end,
        in_text: note.in_text,
    })
}

// An address moved by a number of 64 bits in two's complement, unless it falls below 0.
fn moved(address: u64, by: u64) -> Option<u64>
    requires { address < 2 ^ 63 }
    ensures { result ≡ spots.moved address by }
{
    if by < 1 << 63 {
        return Some(address + by);
    }
    address.checked_sub(u64::MAX - by + 1)
}

/// Where a field that holds a number leads, by its relocation: to the object's own definition of a symbol, moved by
/// that number, or to the address that it is.
#[tactic(auto, using(crate::proofs::SpotLemmas::pointees), unfolding(crate::specs::Spots::pointee))]
pub fn pointee(cut: &CutObject, hint: &mut Hint, held: u64, reloc: &RawReloc) -> Option<Spot>
    requires { IsCut cut.now }
    ensures value { result ≡ spots.pointee cut.now.object.now held reloc.now }
    ensures spot { IfSome result IsSpot }
{
    if !reloc.external {
        return spot_at(cut, hint, reloc.number, held);
    }
    let symbol = cut.object.symbols.get(reloc.number as usize)?;
    let SymbolKind::Defined { section, value } = symbol.kind else {
        return None;
    };
    spot_at(cut, hint, u32::from(section), moved(value, held)?)
}
