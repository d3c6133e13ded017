//! What atoms are called.
ghost use Rattle.std.specs.Prelude.{◌≡◌, ◌<◌, ◌∷◌, [], ℕ, All, IfOk, List, Option, length, slice_index_or};
ghost use Rattle.mo_types.specs.Loaded.{IsWholeFile};
ghost use Rattle.mo_types.specs.declared.key.AtomKey.{AtomKey as Key};
ghost use Rattle.mo_types.specs.declared.object.Symbol.{Symbol as Declared};
ghost use Rattle.sym_out.specs.Files.{symbols_in, symbols_of};
ghost use Rattle.sym_out.specs.Map as map;
ghost use Rattle.sym_out.specs.inner.Tables.{AreNames, filled};

use crate::cursor::Cursor;
use crate::files::is_own;
use crate::placed::PlacedAtoms;
use mo_types::{AtomKey, LoadedFile, OutOfMemory, Symbol};
use std::alloc::Global;

/// For each placed atom a symbol that names it.
pub(crate) type Names<'a> = Vec<Option<&'a Symbol>>;

// The atom that a file's symbol of an index names.
#[tactic(auto, unfolding(crate::specs::Map::named_by))]
fn named_by(file: &LoadedFile, index: u32, cursor: &mut Cursor) -> Option<AtomKey>
    requires whole { IsWholeFile file.now }
    requires index { index < length file.now.object.symbols }
    ensures { (d : Declared) → result ≡ map.named_by (record { file = file.now; index = index; symbol = slice_index_or file.now.object.symbols index d }) }
{
    if is_own(
        file.object.symbols.as_slice()[index as usize]
            .name
            .as_slice(),
    ) {
        return None;
    }
    let place = cursor.place_of(file, index)?;
    if place.offset == 0 {
        Some(place.atom)
    } else {
        None
    }
}

// Notes a file's symbol of an index as the name of the atom that it names, unless that has a name.
fn note<'a>(
    names: &mut Names<'a>,
    placed: &PlacedAtoms,
    file: &'a LoadedFile,
    index: u32,
    cursor: &mut Cursor,
)
    requires whole { IsWholeFile file.now }
    requires index { index < length file.now.object.symbols }
    requires names { length names.old.items ≡ length placed.now }
    ensures size { length names.new.items ≡ length names.old.items }
    ensures noted { (f : Key → Option (List ℕ)) (d : Declared) → AreNames f placed.now names.old.items
        → AreNames (filled f (record { file = file.now; index = index; symbol = slice_index_or file.now.object.symbols index d } ∷ [])) placed.now names.new.items }
{
    if let Some(atom) = named_by(file, index, cursor) {
        if let Some(at) = cursor.find(placed, &atom) {
            let name = &mut names[at];
            *name = name.or(Some(&file.object.symbols.as_slice()[index as usize]));
        }
    }
}

// Notes the symbols of a file.
fn note_file<'a>(names: &mut Names<'a>, placed: &PlacedAtoms, file: &'a LoadedFile)
    requires whole { IsWholeFile file.now }
    requires names { length names.old.items ≡ length placed.now }
    ensures size { length names.new.items ≡ length names.old.items }
    ensures noted { (f : Key → Option (List ℕ)) → AreNames f placed.now names.old.items
        → AreNames (filled f (symbols_in file.now)) placed.now names.new.items }
{
    let mut cursor = Cursor::new();
    for index in 0..file.object.symbols.len() as u32 {
        note(names, placed, file, index, &mut cursor);
    }
}

/// The first symbol that names each placed atom.
pub(crate) fn names_of<'a>(
    alloc: Global,
    placed: &PlacedAtoms,
    files: &'a [LoadedFile],
) -> Result<Names<'a>, OutOfMemory>
    requires { All IsWholeFile files.now }
    ensures { IfOk result (λ names. AreNames (map.first_name (symbols_of files.now)) placed.now names.items) }
{
    let mut names = vec![in alloc; None; placed.len()]?;
    for file in files {
        note_file(&mut names, placed, file);
    }
    Ok(names)
}
