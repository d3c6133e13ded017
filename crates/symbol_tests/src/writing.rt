//! What is written of an image's symbols, and its map.
ghost use Rattle.std.specs.Prelude.{◌≡◌, ◌<◌, ◌^◌, All, IsTrue};
ghost use Rattle.std.specs.List.{AllPairs};
ghost use Rattle.std.specs.Cmp.Lexicographic.{slice_cmp};
ghost use Rattle.std.specs.Ordering.{nat_cmp};
ghost use Rattle.std.specs.declared.cmp.Ordering.TheVariants.{Less};
ghost use Rattle.mo_types.specs.Loaded.{IsWholeLoaded};
ghost use Rattle.mo_types.specs.declared.atom.Atom.{Atom as Sized};
ghost use Rattle.name_ids.specs.Names.{numbers_of};
ghost use Rattle.symbol_winners.specs.Found.{AreNamed};
ghost use Rattle.symbol_winners.specs.declared.winner.Winner.{Winner as Wins};

use crate::cases::{
    Case, EMPTY, HELLO, MAY_BE_MISSING, OF_ALL_KINDS, OF_ANY_IMAGE, ONE_FUNCTION, ONE_STRING,
    Wanted,
};
use crate::given::{ImageRow, bound_of, is_once, layout_of, loaded_of, needs_of, with_commons};
use command_line::Command;
use mo_cmd::read_all_words;
use mo_format::Nlist;
use mo_types::{Arg, ArgList, Atom, AtomList, Items, Loaded, LoadedFile, NameList, OutOfMemory};
use name_ids::{NameTable, NumberList, gather};
use slot_plan::slots;
use std::alloc::Global;
use std::test::Fail;
use sym_out::{SymbolParts, write_map, write_symbols};
use symbol_winners::{SymbolTable, least_words, winners};

// A command without options.
fn command_of(alloc: Global) -> Result<Option<Command>, OutOfMemory> {
    let mut list = ArgList::new(alloc);
    for word in ["-o", "out", "main.o"] {
        list.push(Arg::new(String::from_str(alloc, word)?))?;
    }
    Ok(read_all_words(alloc, &list).ok())
}

// The parts of an image.
fn parts_of(
    alloc: Global,
    image: &ImageRow,
    symbols: &SymbolTable,
    loaded: &Loaded,
) -> Result<Option<SymbolParts>, OutOfMemory>
    requires whole { IsWholeLoaded loaded.now }
    requires winners { AllPairs (λ (a : Wins) (b : Wins). slice_cmp nat_cmp a.name b.name ≡ Less) symbols.now.winners }
{
    let needs = needs_of(alloc, image)?;
    let slots = slots(alloc, &needs)?;
    let bound = bound_of(alloc, image.bound)?;
    let layout = layout_of(alloc, image.sections)?;
    if bound.len() > 1 || layout.sections.len() > 255 || !is_once(layout.placed.as_slice()) {
        return Ok(None);
    }
    Ok(Some(write_symbols(alloc, &layout, &slots, &bound, symbols, loaded)?))
}

// The same of files whose names have numbers.
fn of_names(
    alloc: Global,
    image: &ImageRow,
    loaded: &Loaded,
    names: &NameTable,
    numbers: &Items<NumberList>,
) -> Result<Option<SymbolParts>, OutOfMemory>
    requires whole { IsWholeLoaded loaded.now }
    requires named { AreNamed names.now loaded.now.files }
    requires numbers { numbers.now ≡ numbers_of names.now loaded.now.files }
{
    let words = least_words(alloc, loaded, names, numbers)?;
    match command_of(alloc)? {
        Some(command) => {
            let symbols = winners(alloc, loaded, names, numbers, words.as_slice(), &command)?;
            parts_of(alloc, image, &symbols, loaded)
        }
        None => Ok(None),
    }
}

// The same of files.
fn of_files(
    alloc: Global,
    image: &ImageRow,
    loaded: &Loaded,
) -> Result<Option<SymbolParts>, OutOfMemory>
    requires { IsWholeLoaded loaded.now }
{
    let extra = NameList::new(alloc);
    match gather(alloc, loaded, &extra) {
        Ok(all) => of_names(alloc, image, loaded, &all.names, &all.numbers),
        Err(_) => Ok(None),
    }
}

fn is_symbol(symbols: &[u8], at: usize, told: &(u32, u8, u8, u16, u64)) -> bool {
    if symbols.len() < 16 || at > symbols.len() - 16 {
        return false;
    }
    let symbol = Nlist::read(symbols, at);
    (
        symbol.n_strx,
        symbol.n_type,
        symbol.n_sect,
        symbol.n_desc,
        symbol.n_value,
    ) == *told
}

// Whether these are the symbols.
fn are_symbols(symbols: &[u8], wanted: &[(u32, u8, u8, u16, u64)]) -> bool {
    let mut at: usize = 0;
    for told in wanted {
        if !is_symbol(symbols, at, told) {
            return false;
        }
        at = at.saturating_add(16);
    }
    at == symbols.len()
}

// Whether the parts are these.
fn are_told(parts: &SymbolParts, wanted: &Wanted) -> bool {
    let counts = (parts.locals, parts.exported, parts.undefined);
    are_symbols(parts.symbols.as_slice(), wanted.symbols)
        && counts == wanted.counts
        && parts.strings.as_slice() == wanted.strings
        && parts.indirect.as_slice() == wanted.indirect
}

fn are_small(atoms: &[Atom]) -> bool
    ensures { IsTrue result → All (λ (atom : Sized). atom.size < 2 ^ 32) atoms.now }
{
    atoms.iter().all(|atom| atom.size < 1 << 32)
}

// Atoms, and those of a file.
fn with_atoms(before: AtomList, file: &LoadedFile) -> Result<AtomList, OutOfMemory> {
    let mut atoms = before;
    for atom in file.atoms.as_slice() {
        atoms.push(*atom)?;
    }
    Ok(atoms)
}

// The atoms of files.
fn atoms_of(alloc: Global, loaded: &Loaded) -> Result<AtomList, OutOfMemory> {
    let mut atoms = AtomList::new(alloc);
    for file in loaded.files.as_slice() {
        atoms = with_atoms(atoms, file)?;
    }
    Ok(atoms)
}

// Whether the map of the files' atoms is this one.
fn is_map(alloc: Global, image: &ImageRow, loaded: &Loaded, map: &[u8]) -> Result<bool, OutOfMemory>
    requires { IsWholeLoaded loaded.now }
{
    let kept = with_commons(atoms_of(alloc, loaded)?, image.commons)?;
    let layout = layout_of(alloc, image.sections)?;
    if !are_small(kept.as_slice()) || !is_once(layout.placed.as_slice()) {
        return Ok(false);
    }
    Ok(write_map(alloc, &layout, &kept, loaded)?.as_slice() == map)
}

// Whether files have the parts and the map that are wanted.
fn are_written(alloc: Global, case: &Case, loaded: &Loaded) -> Result<bool, OutOfMemory>
    requires { IsWholeLoaded loaded.now }
{
    match of_files(alloc, &case.image, loaded)? {
        Some(parts) => Ok(
            are_told(&parts, &case.wanted) && is_map(alloc, &case.image, loaded, case.wanted.map)?,
        ),
        None => Ok(false),
    }
}

fn is_written(alloc: Global, case: &Case) -> Result<bool, OutOfMemory> {
    match loaded_of(alloc, case.image.files)? {
        Some(loaded) => are_written(alloc, case, &loaded),
        None => Ok(false),
    }
}

#[test]
fn symbols_stand_in_three_ranges(rt: HostRuntime) -> Result<(), Fail> {
    for case in [
        &OF_ALL_KINDS,
        &MAY_BE_MISSING,
        &OF_ANY_IMAGE,
        &ONE_FUNCTION,
        &HELLO,
        &EMPTY,
        &ONE_STRING,
    ] {
        assert!(rt; is_written(rt.alloc(), case)?);
    }
    Ok(())
}
