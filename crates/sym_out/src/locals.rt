//! The local symbols of an image.
ghost use Rattle.std.specs.Prelude.{◌≡◌, ◌<◌, ◌≤◌, ◌*◌, ◌^◌, ◌++◌, All, IfOk, IsPermutation, OnOk, length, map, slice_index_or};
ghost use Rattle.std.specs.List.{AllPairs, filter_map};
ghost use Rattle.std.specs.List.Sorted.{IsSorted};
ghost use Rattle.mo_types.specs.Loaded.{IsBefore, IsWholeFile, IsWholeLoaded};
ghost use Rattle.mo_types.specs.declared.loaded.LoadedFile.{LoadedFile as Loads};
ghost use Rattle.mo_types.specs.declared.object.Symbol.{Symbol as Declared};
ghost use Rattle.sym_out.specs.Files.{symbols_in, symbols_of};
ghost use Rattle.sym_out.specs.Sizes.{strings_size};
ghost use Rattle.sym_out.specs.Symbols as spec;
ghost use Rattle.sym_out.specs.inner.Written.{Puts};

use crate::cursor::Cursor;
use crate::entry::{Entry, put_entry};
use crate::files::{file_of, is_own, symbol_count};
use crate::hints::{Hints, near_at};
use crate::sites::{Site, Sites};
use mo_format::nlist::{N_ALT_ENTRY, N_PEXT, N_SECT};
use mo_types::{Loaded, LoadedFile, OutOfMemory, Symbol, compare_atoms};
use std::alloc::Global;
use std::cmp::Ordering;
use std::marker::Model;
use symbol_winners::{Place, SymbolTable, Winner};

/// A symbol of a file, and where in the image it stands.
#[derive(Drop)]
pub(crate) struct Local<'a> {
    file: &'a LoadedFile,
    symbol: &'a Symbol,
    site: Site<'a>,
    offset: u64,
    // In the file's table.
    index: u32,
}

impl<'a> Model for Local<'a> {
    ghost use Rattle.sym_out.specs.Symbols.{Local as Standing};

    ghost Value = { Standing };

    ghost view = { λ l. record { symbol = record { file = l.file.now; index = l.index; symbol = l.symbol.now }; site = l.site; offset = l.offset } };
}

impl<'a> Local<'a> {
    // How two compare: by address, by atom, by file, and then by the order of the file's table.
    fn compare(&self, other: &Local) -> Ordering
        ensures { result ≡ spec.compare_locals self.now other.now }
    {
        match self.site.address.cmp(&other.site.address) {
            Ordering::Equal => self.compare_there(other),
            unequal => unequal,
        }
    }

    // How two at one address compare.
    fn compare_there(&self, other: &Local) -> Ordering
        ensures { result ≡ spec.compare_there self.now other.now }
    {
        match compare_atoms(self.site.atom, other.site.atom) {
            Ordering::Equal => self.compare_symbols(other),
            unequal => unequal,
        }
    }

    // How two in one atom compare.
    fn compare_symbols(&self, other: &Local) -> Ordering
        ensures { result ≡ spec.compare_symbols self.now.symbol other.now.symbol }
    {
        match self.file.id.cmp(&other.file.id) {
            Ordering::Equal => self.index.cmp(&other.index),
            unequal => unequal,
        }
    }

    // Its entry in the image's table.
    fn entry(&self) -> Entry<'a>
        ensures { result ≡ spec.local_entry self.now }
    {
        Entry {
            name: self.symbol.name.as_slice(),
            n_value: self.site.address.wrapping_add(self.offset),
            n_desc: if self.symbol.alt { N_ALT_ENTRY } else { 0 },
            n_type: if self.symbol.external {
                N_SECT + N_PEXT
            } else {
                N_SECT
            },
            n_sect: self.site.section,
        }
    }
}

// A file's symbol of an index at a place of the image, if it is written.
#[tactic(auto, unfolding(crate::specs::Symbols::local_at))]
fn local_at<'a>(
    sites: &Sites<'a>,
    file: &'a LoadedFile,
    symbol: &'a Symbol,
    index: u32,
    place: Place,
    cursor: &mut Cursor,
) -> Option<Local<'a>>
    ensures { result ≡ spec.local_at sites.now (record { file = file.now; index = index; symbol = symbol.now }) place }
{
    if is_own(symbol.name.as_slice()) {
        return None;
    }
    let site = cursor.site_of(sites, &place.atom)?;
    Some(Local {
        file,
        symbol,
        site,
        offset: place.offset,
        index,
    })
}

// A file's symbol of an index, if no other file sees it and it is written.
#[tactic(auto, unfolding(crate::specs::Symbols::own_local))]
fn own_local<'a>(
    sites: &Sites<'a>,
    file: &'a LoadedFile,
    index: u32,
    cursor: &mut Cursor,
) -> Option<Local<'a>>
    requires whole { IsWholeFile file.now }
    requires index { index < length file.now.object.symbols }
    ensures { (d : Declared) → result ≡ spec.own_local sites.now (record { file = file.now; index = index; symbol = slice_index_or file.now.object.symbols index d }) }
{
    let symbol = &file.object.symbols.as_slice()[index as usize];
    let place = cursor.place_of(file, index)?;
    if symbol.external {
        let _placed = cursor.site_of(sites, &place.atom);
        return None;
    }
    local_at(sites, file, symbol, index, place, cursor)
}

// The symbol of a winner, if no other image sees it and it is written.
#[tactic(auto, unfolding(crate::specs::Symbols::hidden_local, crate::specs::Symbols::winning_symbol))]
fn hidden_local<'a>(
    sites: &Sites<'a>,
    symbols: &SymbolTable,
    files: &'a [LoadedFile],
    winner: &Winner,
    near: usize,
) -> Option<Local<'a>>
    requires { AllPairs (λ (a : Loads) (b : Loads). IsBefore a.id b.id) files.now }
    ensures { result ≡ spec.hidden_local sites.now symbols.now files.now winner.now }
{
    if winner.exported {
        return None;
    }
    let index = (winner.word % (1 << 24)) as u32;
    let file = file_of(files, winner.file)?;
    let symbol = file.object.symbols.get(index as usize)?;
    let place = Place {
        atom: symbols.representative(winner.atom),
        offset: winner.offset,
    };
    let mut cursor = Cursor::at(near);
    local_at(sites, file, symbol, index, place, &mut cursor)
}

// Appends the symbols of a file that no other file sees, and notes where all of them stand.
fn push_own<'a>(
    locals: &mut Vec<Local<'a>>,
    sites: &Sites<'a>,
    file: &'a LoadedFile,
    hints: &mut Hints,
) -> Result<(), OutOfMemory>
    requires { IsWholeFile file.now }
    ensures { OnOk result (locals.new.items ≡ locals.old.items ++ filter_map (spec.own_local sites.now) (symbols_in file.now)) }
{
    hints.begin(file.id)?;
    let mut cursor = Cursor::new();
    for index in 0..file.object.symbols.len() as u32 {
        let own = own_local(sites, file, index, &mut cursor);
        hints.note(&cursor)?;
        if let Some(local) = own {
            locals.push(local)?;
        }
    }
    Ok(())
}

// Appends the symbols of winners that no other image sees.
fn push_hidden<'a>(
    locals: &mut Vec<Local<'a>>,
    sites: &Sites<'a>,
    symbols: &SymbolTable,
    files: &'a [LoadedFile],
    winners: &[Winner],
    nears: &[u32],
) -> Result<(), OutOfMemory>
    requires { AllPairs (λ (a : Loads) (b : Loads). IsBefore a.id b.id) files.now }
    ensures { OnOk result (locals.new.items ≡ locals.old.items ++ filter_map (spec.hidden_local sites.now symbols.now files.now) winners.now) }
{
    for (i, winner) in winners.iter().enumerate() {
        if let Some(local) = hidden_local(sites, symbols, files, winner, near_at(nears, i)) {
            locals.push(local)?;
        }
    }
    Ok(())
}

// The symbols of files that no other file sees. Notes where all symbols stand.
fn own_locals<'a>(
    alloc: Global,
    sites: &Sites<'a>,
    files: &'a [LoadedFile],
    hints: &mut Hints,
) -> Result<Vec<Local<'a>>, OutOfMemory>
    requires { All IsWholeFile files.now }
    ensures { IfOk result (λ locals. locals.items ≡ filter_map (spec.own_local sites.now) (symbols_of files.now)) }
{
    let mut locals = Vec::with_capacity(alloc, symbol_count(files))?;
    for file in files {
        push_own(&mut locals, sites, file, hints)?;
    }
    Ok(locals)
}

fn put_in_order(locals: &mut Vec<Local>)
    ensures same { IsPermutation locals.old.items locals.new.items }
    ensures sorted { IsSorted spec.compare_locals locals.new.items }
{
    locals.sort_unstable_by(|a, b| a.compare(b));
}

/// The local symbols of an image, in order. Notes at which places the atoms of winners mostly stand.
pub(crate) fn locals_of<'a>(
    alloc: Global,
    sites: &Sites<'a>,
    symbols: &SymbolTable,
    loaded: &'a Loaded,
    nears: &mut Vec<u32>,
) -> Result<Vec<Local<'a>>, OutOfMemory>
    requires { IsWholeLoaded loaded.now }
    ensures same { IfOk result (λ locals. IsPermutation (spec.locals_of sites.now symbols.now loaded.now.files) locals.items) }
    ensures sorted { IfOk result (λ locals. IsSorted spec.compare_locals locals.items) }
{
    let files = loaded.files.as_slice();
    let winners = symbols.winners();
    let mut hints = Hints::new(alloc, files.len(), symbol_count(files))?;
    let mut locals = own_locals(alloc, sites, files, &mut hints)?;
    hints.note_winners(nears, winners)?;
    push_hidden(
        &mut locals,
        sites,
        symbols,
        files,
        winners,
        nears.as_slice(),
    )?;
    put_in_order(&mut locals);
    Ok(locals)
}

/// How many bytes the strings of local symbols have.
#[tactic(auto, using(crate::proofs::Sizing::summing, crate::proofs::Sizing::sum_mapped))]
pub(crate) fn local_strings_size(locals: &[Local]) -> u128
    ensures size { result ≡ strings_size (map spec.local_entry locals.now) }
    ensures small { result ≤ length locals.now * 2 ^ 64 }
{
    let mut total = 0;
    for local in locals {
        total += local.symbol.name.len() as u128 + 1;
    }
    total
}

/// Appends local symbols and their strings.
pub(crate) fn put_locals(
    symbols: &mut Vec<u8>,
    strings: &mut Vec<u8>,
    locals: &[Local],
) -> Result<(), OutOfMemory>
    ensures { OnOk result (Puts (map spec.local_entry locals.now) symbols.old.items strings.old.items symbols.new.items strings.new.items) }
{
    for local in locals {
        put_entry(symbols, strings, &local.entry())?;
    }
    Ok(())
}
