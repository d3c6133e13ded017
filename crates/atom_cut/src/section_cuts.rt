//! The cuts of one section.

ghost use Rattle.std.specs.Prelude.{◌≡◌, ◌∷◌, ◌+◌, ◌-◌, ◌%◌, ◌<◌, ◌==◌, [], length, filter, slice_index, slice_index_or, IfOk};
ghost use Rattle.std.specs.List.{range_with_len};
ghost use Rattle.mo_types.specs.Atoms as atoms;
ghost use Rattle.mo_types.specs.Whole.{IsWhole};
ghost use Rattle.mo_types.specs.declared.object.Section.{Section};
ghost use Rattle.atom_cut.specs.Cutting.{AreInOrder};
ghost use Rattle.atom_cut.specs.Offsets.{offsets_in};

use memchr::memchr_iter;
use mo_types::{Object, OutOfMemory};
use std::alloc::Global;

// Puts numbers in order, and leaves each once.
fn put_in_order(numbers: &mut Vec<u64>)
    ensures { AreInOrder numbers.old.items numbers.new.items }
{
    numbers.sort_unstable();
    numbers.dedup();
}

// The start of a section and the offsets at which symbols cut it.
fn cuts_at_symbols(alloc: Global, offsets: &[u64]) -> Result<Vec<u64>, OutOfMemory>
    ensures { IfOk result (λ cuts. AreInOrder (0 ∷ offsets.now) cuts.items) }
{
    let mut cuts = Vec::with_capacity(alloc, offsets.len() + 1)?;
    cuts.push(0)?;
    cuts.extend_from_slice(offsets)?;
    put_in_order(&mut cuts);
    Ok(cuts)
}

// The start of a section and what follows each NUL but the one at its end.
#[tactic(auto, using(crate::proofs::StringLemmas::strings))]
fn cuts_at_strings(alloc: Global, strings: &[u8]) -> Result<Vec<u64>, OutOfMemory>
    ensures { IfOk result (λ cuts. cuts.items ≡ 0 ∷ filter (λ at. slice_index strings.now (at - 1) == 0) (range_with_len 1 (length strings.now - 1))) }
{
    let mut cuts = Vec::new(alloc);
    cuts.push(0)?;
    let last = strings.len().saturating_sub(1);
    for end in memchr_iter(0, &strings[..last]) {
        cuts.push(end as u64 + 1)?;
    }
    Ok(cuts)
}

// The starts of a section's literals, each of `literal` bytes.
#[tactic(auto, using(crate::proofs::LiteralLemmas::literals))]
fn cuts_at_literals(alloc: Global, size: u64, literal: u64) -> Result<Vec<u64>, OutOfMemory>
    requires some { 0 < literal }
    requires whole { size % literal ≡ 0 }
    ensures { IfOk result (λ cuts. cuts.items ≡ 0 ∷ filter (λ at. at % literal == 0) (range_with_len 1 (size - 1))) }
{
    let mut cuts = Vec::new(alloc);
    cuts.push(0)?;
    for number in 1..size / literal {
        cuts.push(number * literal)?;
    }
    Ok(cuts)
}

/// The cuts of the section of an index, of which `offsets` has those at symbols.
#[tactic(auto, using(crate::proofs::CutLemmas::section_cuts))]
pub fn cuts_of(
    alloc: Global,
    object: &Object,
    index: usize,
    offsets: &[u64],
) -> Result<Vec<u64>, OutOfMemory>
    requires whole { IsWhole object.now }
    requires index { index < length object.now.sections }
    requires offsets { (d : Section) → offsets.now ≡ offsets_in object.now.symbols (index + 1) (slice_index_or object.now.sections index d) }
    ensures { IfOk result (λ cuts. (d : Section) → cuts.items ≡ atoms.cuts object.now (index + 1) (slice_index_or object.now.sections index d)) }
{
    let section = &object.sections.as_slice()[index];
    if let Some(size) = section.literal_size() {
        return cuts_at_literals(alloc, section.size, size);
    }
    if section.is_strings() {
        return cuts_at_strings(alloc, section.bytes.as_slice());
    }
    let begun: &[u64] = if object.subsections { offsets } else { &[] };
    cuts_at_symbols(alloc, begun)
}
