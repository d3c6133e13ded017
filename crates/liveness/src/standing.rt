//! The symbols that stand in atoms, and those of them that win.
ghost use Rattle.std.specs.Prelude.{◌≡◌, ◌++◌, ◌<◌, IfOk, length, slice_index_or, true};
ghost use Rattle.std.specs.Option.{option_to_list};
ghost use Rattle.mo_types.specs.Loaded.{IsWholeFile};
ghost use Rattle.mo_types.specs.declared.object.Symbol.{Symbol as Declared};
ghost use Rattle.name_ids.specs.Names.{number_of, numbers_in};
ghost use Rattle.liveness.specs.Roots as spec;

use mo_types::{AtomKey, LoadedFile, OutOfMemory};
use std::alloc::Global;
use symbol_winners::{SymbolTable, place_of};

/// Atoms, and one more where there is one.
pub(crate) fn with_atom(
    before: Vec<AtomKey>,
    atom: Option<AtomKey>,
) -> Result<Vec<AtomKey>, OutOfMemory>
    ensures { IfOk result (λ new. new.items ≡ before.items ++ option_to_list atom) }
{
    let mut atoms = before;
    if let Some(atom) = atom {
        atoms.push(atom)?;
    }
    Ok(atoms)
}

/// The atom in which a file's symbol of an index stands.
pub(crate) fn symbol_atom(file: &LoadedFile, index: u32) -> Option<AtomKey>
    requires whole { IsWholeFile file.now }
    requires index { index < length file.now.object.symbols }
    ensures { (d : Declared) → result ≡ spec.symbol_atom file.now (index, slice_index_or file.now.object.symbols index d) }
{
    match place_of(file, index) {
        Some(place) => Some(place.atom),
        None => None,
    }
}

// Whether a file's external symbol of an index is the winner of its name, which has this number.
#[tactic(auto, unfolding(crate::specs::Roots::wins))]
fn wins(symbols: &SymbolTable, file: &LoadedFile, index: u32, number: u32) -> bool
    requires whole { IsWholeFile file.now }
    requires index { index < length file.now.object.symbols }
    requires number { (d : Declared) → number ≡ number_of symbols.now.names (slice_index_or file.now.object.symbols index d) }
    ensures { (d : Declared) → (slice_index_or file.now.object.symbols index d).external ≡ true
        → result ≡ spec.wins symbols.now.winners file.now (index, slice_index_or file.now.object.symbols index d) }
{
    let symbol = &file.object.symbols.as_slice()[index as usize];
    match symbols.winner_numbered(number) {
        Some(winner) => winner.word == file.id.word_of(index, symbol),
        None => false,
    }
}

// The atom in which a file's symbol of an index stands, where it is external.
#[tactic(auto, unfolding(crate::specs::Roots::external_atom))]
fn external_atom(file: &LoadedFile, index: u32) -> Option<AtomKey>
    requires whole { IsWholeFile file.now }
    requires index { index < length file.now.object.symbols }
    ensures { (d : Declared) → result ≡ spec.external_atom file.now (index, slice_index_or file.now.object.symbols index d) }
{
    if file.object.symbols.as_slice()[index as usize].external {
        symbol_atom(file, index)
    } else {
        None
    }
}

// The atom in which a file's external symbol of an index stands, where it is the winner of its name, which has this number.
fn won(
    symbols: &SymbolTable,
    file: &LoadedFile,
    index: u32,
    number: u32,
    atom: Option<AtomKey>,
) -> Option<AtomKey>
    requires whole { IsWholeFile file.now }
    requires index { index < length file.now.object.symbols }
    requires number { (d : Declared) → number ≡ number_of symbols.now.names (slice_index_or file.now.object.symbols index d) }
    requires atom { (d : Declared) → atom ≡ spec.external_atom file.now (index, slice_index_or file.now.object.symbols index d) }
    ensures { (d : Declared) → result ≡ spec.winning_atom symbols.now.winners file.now (index, slice_index_or file.now.object.symbols index d) }
{
    match atom {
        Some(atom) => {
            if wins(symbols, file, index, number) {
                Some(atom)
            } else {
                None
            }
        }
        None => None,
    }
}

/// The atom in which a file's symbol of an index stands, where it is the winner of its name, which has this number.
pub(crate) fn winning_atom(
    symbols: &SymbolTable,
    file: &LoadedFile,
    index: u32,
    number: u32,
) -> Option<AtomKey>
    requires whole { IsWholeFile file.now }
    requires index { index < length file.now.object.symbols }
    requires number { (d : Declared) → number ≡ number_of symbols.now.names (slice_index_or file.now.object.symbols index d) }
    ensures { (d : Declared) → result ≡ spec.winning_atom symbols.now.winners file.now (index, slice_index_or file.now.object.symbols index d) }
{
    won(symbols, file, index, number, external_atom(file, index))
}

/// The atoms of a file in which external symbols stand, one for each symbol, and those in which winners stand, one for each
/// winner, by the numbers of the symbols' names.
pub(crate) fn standing_atoms(
    alloc: Global,
    symbols: &SymbolTable,
    file: &LoadedFile,
    numbers: &[u32],
) -> Result<(Vec<AtomKey>, Vec<AtomKey>), OutOfMemory>
    requires whole { IsWholeFile file.now }
    requires numbers { numbers.now ≡ numbers_in symbols.now.names file.now }
    ensures external { IfOk result (λ atoms. atoms.0.items ≡ spec.external_atoms file.now) }
    ensures winning { IfOk result (λ atoms. atoms.1.items ≡ spec.winning_atoms symbols.now.winners file.now) }
{
    let mut external = Vec::new(alloc);
    let mut winning = Vec::new(alloc);
    for (at, number) in numbers.iter().enumerate() {
        let index = at as u32;
        let atom = external_atom(file, index);
        external = with_atom(external, atom)?;
        winning = with_atom(winning, won(symbols, file, index, *number, atom))?;
    }
    Ok((external, winning))
}
