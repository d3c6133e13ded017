//! The map of an image.
ghost use Rattle.std.specs.Prelude.{◌≡◌, ◌<◌, ◌^◌, ◌++◌, All, IfOk, IsPermutation, List, OnOk, Option, length};
ghost use Rattle.std.specs.List.{AllPairs, flat_map};
ghost use Rattle.std.specs.List.Sorted.{IsSorted};
ghost use Rattle.mo_types.specs.Loaded.{IsBefore, IsWholeLoaded};
ghost use Rattle.mo_types.specs.declared.atom.Atom.{Atom as Sized};
ghost use Rattle.mo_types.specs.declared.loaded.LoadedFile.{LoadedFile as Loads};
ghost use Rattle.sect_place.specs.Addresses.{AreOnce};
ghost use Rattle.sym_out.specs.Files.{FileSymbol};
ghost use Rattle.sym_out.specs.Map as spec;
ghost use Rattle.sym_out.specs.inner.Tables.{AreNames};

use crate::files::label_of;
use crate::names::{Names, names_of};
use crate::placed::PlacedAtoms;
use mo_types::{Atom, AtomList, Bytes, Loaded, LoadedFile, OutOfMemory, Symbol, compare_atoms};
use sect_place::Layout;
use std::alloc::Global;
use std::cmp::Ordering;
use std::marker::Model;

// An atom with its address, and the symbol that names it.
#[derive(Drop)]
struct MapRow<'a> {
    atom: &'a Atom,
    address: u64,
    symbol: Option<&'a Symbol>,
}

impl<'a> Model for MapRow<'a> {
    ghost use Rattle.sym_out.specs.Map.{MapRow as Row};
    ghost use Rattle.sym_out.specs.inner.Tables.{name_held};

    ghost Value = { Row };

    ghost view = { λ row. record { atom = row.atom.now; address = row.address; name = name_held row.symbol } };
}

impl<'a> MapRow<'a> {
    // How two rows compare: by address, and then by key.
    fn compare(&self, other: &MapRow) -> Ordering
        ensures { result ≡ spec.compare_rows self.now other.now }
    {
        match self.address.cmp(&other.address) {
            Ordering::Equal => compare_atoms(&self.atom.key, &other.atom.key),
            unequal => unequal,
        }
    }
}

// The row of an atom that mostly stands at a place, if it is placed.
fn row_of<'a>(
    placed: &PlacedAtoms,
    names: &Names<'a>,
    atom: &'a Atom,
    near: usize,
) -> Option<MapRow<'a>>
    requires { length names.now.items ≡ length placed.now }
    ensures { (symbols : List FileSymbol) → AreNames (spec.first_name symbols) placed.now names.now.items
        → result ≡ spec.row_of placed.now symbols atom.now }
{
    match placed.find_near(near, &atom.key) {
        Some(at) => Some(MapRow {
            atom,
            address: placed.as_slice()[at].address,
            symbol: names[at],
        }),
        None => None,
    }
}

// The rows of the atoms that are placed.
fn rows_of<'a>(
    alloc: Global,
    placed: &PlacedAtoms,
    names: &Names<'a>,
    atoms: &'a [Atom],
) -> Result<Vec<MapRow<'a>>, OutOfMemory>
    requires { length names.now.items ≡ length placed.now }
    ensures { IfOk result (λ rows. (symbols : List FileSymbol) → AreNames (spec.first_name symbols) placed.now names.now.items
        → rows.items ≡ spec.rows_of placed.now symbols atoms.now) }
{
    let mut rows = Vec::with_capacity(alloc, atoms.len())?;
    for atom in atoms {
        if let Some(row) = row_of(placed, names, atom, rows.len()) {
            rows.push(row)?;
        }
    }
    Ok(rows)
}

fn put_in_order(rows: &mut Vec<MapRow>)
    ensures same { IsPermutation rows.old.items rows.new.items }
    ensures sorted { IsSorted spec.compare_rows rows.new.items }
{
    rows.sort_unstable_by(|a, b| a.compare(b));
}

// The places of the lowest bits of digits, from the highest digit on.
const LOWER: [u32; 8] = [28, 24, 20, 16, 12, 8, 4, 0];

const UPPER: [u32; 8] = [60, 56, 52, 48, 44, 40, 36, 32];

fn hex_digit(digit: u8) -> u8
    requires { digit < 16 }
    ensures { result ≡ spec.hex_digit digit }
{
    if digit < 10 {
        b'0' + digit
    } else {
        b'a' - 10 + digit
    }
}

// Appends digits of a number.
fn put_digits(out: &mut Vec<u8>, places: &[u32], number: u64) -> Result<(), OutOfMemory>
    requires { All (λ place. place < 64) places.now }
    ensures { OnOk result (out.new.items ≡ out.old.items ++ spec.hex_digits places.now number) }
{
    for place in places {
        out.push(hex_digit(((number >> *place) % 16) as u8))?;
    }
    Ok(())
}

// The name of an atom.
fn name_of<'a>(row: &MapRow<'a>) -> &'a [u8]
    ensures { result.now ≡ spec.or_hyphen row.now.name }
{
    match row.symbol {
        Some(symbol) => symbol.name.as_slice(),
        None => b"-".as_slice(),
    }
}

// Appends the line of an atom.
#[tactic(auto, unfolding(crate::specs::Map::line_of))]
fn put_line(out: &mut Vec<u8>, files: &[LoadedFile], row: &MapRow) -> Result<(), OutOfMemory>
    requires { AllPairs (λ (a : Loads) (b : Loads). IsBefore a.id b.id) files.now }
    ensures { OnOk result (out.new.items ≡ out.old.items ++ spec.line_of files.now row.now) }
{
    put_digits(out, &UPPER, row.address)?;
    put_digits(out, &LOWER, row.address)?;
    out.push(b' ')?;
    put_digits(out, &LOWER, row.atom.size)?;
    out.push(b' ')?;
    out.extend_from_slice(label_of(files, row.atom.key.file))?;
    out.push(b' ')?;
    out.extend_from_slice(name_of(row))?;
    out.push(b'\n')?;
    Ok(())
}

fn lines_of(alloc: Global, files: &[LoadedFile], rows: &[MapRow]) -> Result<Vec<u8>, OutOfMemory>
    requires { AllPairs (λ (a : Loads) (b : Loads). IsBefore a.id b.id) files.now }
    ensures { IfOk result (λ lines. lines.items ≡ flat_map (spec.line_of files.now) rows.now) }
{
    let mut lines = Vec::new(alloc);
    for row in rows {
        put_line(&mut lines, files, row)?;
    }
    Ok(lines)
}

/// The map of an image (ld(1): -map): for each of the atoms that is placed a line with its address, its size, its file and
/// its name.
pub fn write_map(
    alloc: Global,
    layout: &Layout,
    kept: &AtomList,
    loaded: &Loaded,
) -> Result<Bytes, OutOfMemory>
    requires whole { IsWholeLoaded loaded.now }
    requires once { AreOnce layout.now.placed }
    requires sizes { All (λ (atom : Sized). atom.size < 2 ^ 32) kept.now }
    ensures { IfOk result (spec.IsMap layout.now.placed kept.now loaded.now.files) }
{
    let files = loaded.files.as_slice();
    let placed = PlacedAtoms::of(layout);
    let names = names_of(alloc, &placed, files)?;
    let mut rows = rows_of(alloc, &placed, &names, kept.as_slice())?;
    put_in_order(&mut rows);
    let lines = lines_of(alloc, files, rows.as_slice())?;
    Ok(Bytes::from_vec(lines)?)
}
