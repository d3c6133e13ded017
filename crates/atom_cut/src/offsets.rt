//! The offsets at which symbols cut the sections of an object.

ghost use Rattle.std.specs.Prelude.{◌≡◌, ◌∷◌, ◌++◌, ◌<◌, ◌≤◌, [], length, All, IfOk, OnOk, replicate, slice_index_or, slice_set};
ghost use Rattle.mo_types.specs.Atoms as atoms;
ghost use Rattle.mo_types.specs.Whole.{IsDefinedWithin};
ghost use Rattle.atom_cut.specs.Offsets.{AreOffsets, IsCutPlace};

use mo_types::{Items, OutOfMemory, Section, Symbol, SymbolKind};
use std::alloc::Global;

/// Offsets in a section, in bytes.
pub type OffsetList = Items<u64>;

// A symbol may cut a section unless it is an alternative entry or has a name of an assembler's own.
fn may_cut(symbol: &Symbol) -> bool
    ensures { result ≡ atoms.may_cut symbol.now }
{
    !symbol.alt && !symbol.name.as_slice().starts_with(b"L")
}

#[tactic(auto, using(crate::proofs::OffsetLemmas::empties))]
fn empty_lists(alloc: Global, count: usize) -> Result<Vec<OffsetList>, OutOfMemory>
    ensures { IfOk result (λ lists. lists.items ≡ replicate count []) }
{
    let mut lists = Vec::with_capacity(alloc, count)?;
    for _ in 0..count {
        lists.push(OffsetList::new(alloc))?;
    }
    Ok(lists)
}

fn add(lists: &mut Vec<OffsetList>, at: usize, offset: u64) -> Result<(), OutOfMemory>
    requires { at < length lists.old.items }
    ensures { OnOk result (lists.new.items ≡ slice_set lists.old.items at (slice_index_or lists.old.items at [] ++ offset ∷ [])) }
{
    lists[at].push(offset)?;
    Ok(())
}

/// The index of a section, and an offset in it in bytes.
#[derive(Clone, Copy, Debug, PartialEq, Eq)]
pub struct CutPlace {
    pub section: usize,
    pub offset: u64,
}

// Where a symbol cuts a section.
fn cut_place(sections: &[Section], symbol: &Symbol) -> Option<CutPlace>
    requires { IsDefinedWithin sections.now symbol.now.kind }
    ensures { IsCutPlace sections.now symbol.now result }
{
    let SymbolKind::Defined { section, value } = symbol.kind else {
        return None;
    };
    let index = usize::from(section) - 1;
    let offset = value - sections[index].address;
    if !may_cut(symbol) || offset >= sections[index].size {
        return None;
    }
    Some(CutPlace {
        section: index,
        offset,
    })
}

/// For each section, the offsets at which symbols cut it.
#[tactic(auto, using(crate::proofs::OffsetLemmas::additions))]
pub fn symbol_offsets(
    alloc: Global,
    sections: &[Section],
    symbols: &[Symbol],
) -> Result<Vec<OffsetList>, OutOfMemory>
    requires { All (λ symbol. IsDefinedWithin sections.now symbol.kind) symbols.now }
    ensures { IfOk result (λ offsets. AreOffsets sections.now symbols.now offsets.items) }
{
    let mut offsets = empty_lists(alloc, sections.len())?;
    for symbol in symbols {
        if let Some(place) = cut_place(sections, symbol) {
            add(&mut offsets, place.section, place.offset)?;
        }
    }
    Ok(offsets)
}
