//! The fields of an entry: its function, its personality and its lsda.

ghost use Rattle.std.specs.Prelude.{◌≡◌, ◌||◌, is_err, is_none, Some, IfOk, OnSome};
ghost use Rattle.mo_types.specs.RelocationRules as places;
ghost use Rattle.unwind_read.specs.CutObject.{IsCut};
ghost use Rattle.unwind_read.specs.Rules as rules;
ghost use Rattle.unwind_read.specs.Spots.{IsSpot};
ghost use Rattle.unwind_read.specs.Unwinds as unwinds;

use crate::cut_object::CutObject;
use crate::entry::CompactUnwindEntry;
use crate::guide::{Hint, Hints};
use crate::pointers::EntryRelocs;
use crate::spots::{Spot, pointee, spot_at};
use mo_types::{AtomKey, FileId, RawReloc, Section, Symbol, SymbolKind, Target};

/// An entry fails a test.
#[derive(Clone, Copy, Debug, PartialEq, Eq)]
pub struct AtFault;

/// The key of the atom of a place.
pub fn atom_of(file: FileId, spot: &Spot) -> AtomKey
    ensures { result ≡ unwinds.atom_of file spot.now }
{
    AtomKey {
        file,
        section: spot.section,
        offset: spot.start,
    }
}

/// The offset of a place in its atom.
pub fn offset_of(spot: &Spot) -> u64
    requires { IsSpot spot.now }
    ensures { result ≡ unwinds.offset_of spot.now }
{
    spot.offset - spot.start
}

/// Where the function of an entry stands: in a linked section in `__TEXT`.
pub fn function_of(
    cut: &CutObject,
    hints: &mut Hints,
    entry: &CompactUnwindEntry,
    relocs: &EntryRelocs,
) -> Result<Spot, AtFault>
    requires { IsCut cut.now }
    ensures fault { is_err result ≡ (rules.has_no_function cut.now.object.now entry.now relocs.now
        || rules.has_bad_function cut.now.object.now entry.now relocs.now) }
    ensures value { IfOk result (λ spot. unwinds.function_of cut.now.object.now entry.now relocs.now ≡ Some spot) }
    ensures spot { IfOk result IsSpot }
{
    let Some(reloc) = relocs.function else {
        return Err(AtFault);
    };
    match pointee(cut, &mut hints.function, entry.function, &reloc) {
        Some(spot) if spot.in_text => Ok(spot),
        _ => Err(AtFault),
    }
}

/// The lsda of an entry, where it has one: an atom, and an offset from its start.
pub fn lsda_of(
    cut: &CutObject,
    hints: &mut Hints,
    entry: &CompactUnwindEntry,
    relocs: &EntryRelocs,
) -> Result<Option<(AtomKey, u64)>, AtFault>
    requires { IsCut cut.now }
    ensures fault { is_err result ≡ rules.has_bad_lsda cut.now.object.now entry.now relocs.now }
    ensures value { IfOk result (λ lsda. lsda ≡ unwinds.lsda_of cut.now.object.now cut.now.file entry.now relocs.now) }
{
    let Some(reloc) = relocs.lsda else {
        return Ok(None);
    };
    match pointee(cut, &mut hints.lsda, entry.lsda, &reloc) {
        Some(spot) => Ok(Some((atom_of(cut.file, &spot), offset_of(&spot)))),
        None => Err(AtFault),
    }
}

fn is_in_dropped(sections: &[Section], kind: &SymbolKind) -> bool
    ensures { result ≡ places.is_in_dropped sections.now kind.now }
{
    let SymbolKind::Defined { section, .. } = *kind else {
        return false;
    };
    if section == 0 {
        return false;
    }
    match sections.get(usize::from(section) - 1) {
        Some(section) => section.is_dropped(),
        None => false,
    }
}

// Whether no relocation may name the symbol.
fn is_unnameable(sections: &[Section], symbol: &Symbol) -> bool
    ensures { result ≡ places.is_unnameable sections.now symbol.now }
{
    matches!(symbol.kind, SymbolKind::Passed)
        || !symbol.external && is_in_dropped(sections, &symbol.kind)
}

fn is_absolute(symbol: &Symbol) -> bool
    ensures { result ≡ places.is_absolute symbol.now.kind }
{
    matches!(symbol.kind, SymbolKind::Absolute)
}

// Whether a personality by name is none that may be named.
fn is_bad_name(cut: &CutObject, number: u32) -> bool
    ensures { result ≡ rules.is_bad_name cut.now.object.now number }
{
    match cut.object.symbols.get(number as usize) {
        Some(symbol) => {
            is_unnameable(cut.object.sections.as_slice(), symbol) || is_absolute(symbol)
        }
        None => true,
    }
}

// The personality to which a relocation leads, whose field holds a number.
fn personality_at(cut: &CutObject, hint: &mut Hint, held: u64, reloc: &RawReloc) -> Option<Target>
    requires { IsCut cut.now }
    ensures fault { is_none result ≡ rules.is_bad_personality cut.now.object.now held reloc.now }
    ensures value { OnSome result (result ≡ unwinds.personality_at cut.now.object.now cut.now.file held reloc.now) }
{
    if reloc.external {
        if is_bad_name(cut, reloc.number) {
            return None;
        }
        return Some(Target::Name(reloc.number));
    }
    let spot = spot_at(cut, hint, reloc.number, held)?;
    Some(Target::Local(atom_of(cut.file, &spot), offset_of(&spot)))
}

/// The personality of an entry, where it has one.
pub fn personality_of(
    cut: &CutObject,
    hints: &mut Hints,
    entry: &CompactUnwindEntry,
    relocs: &EntryRelocs,
) -> Result<Option<Target>, AtFault>
    requires { IsCut cut.now }
    ensures fault { is_err result ≡ rules.has_bad_personality cut.now.object.now entry.now relocs.now }
    ensures value { IfOk result (λ target. target ≡ unwinds.personality_of cut.now.object.now cut.now.file entry.now relocs.now) }
{
    let Some(reloc) = relocs.personality else {
        return Ok(None);
    };
    match personality_at(cut, &mut hints.personality, entry.personality, &reloc) {
        Some(target) => Ok(Some(target)),
        None => Err(AtFault),
    }
}
