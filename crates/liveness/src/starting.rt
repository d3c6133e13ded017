//! The atoms from which all that is kept is reached.
ghost use Rattle.std.specs.Prelude.{◌≡◌, ◌++◌, ◌<◌, IfOk, All, List, length, slice_index_or};
ghost use Rattle.std.specs.List.{enumerate_from, filter_map, flat_map};
ghost use Rattle.mo_types.specs.Loaded.{IsWholeFile, IsWholeLoaded};
ghost use Rattle.mo_types.specs.declared.atom.Atom.{Atom as Cut};
ghost use Rattle.mo_types.specs.declared.object.Symbol.{Symbol as Declared};
ghost use Rattle.name_ids.specs.Names.{number_of, numbers_in, numbers_of};
ghost use Rattle.liveness.specs.Roots as spec;
ghost use Rattle.literal_merge.specs.declared.representative.Representative.{Representative as Standing};

use crate::atom_set::{AtomSet, set_of_atoms};
use crate::standing::{standing_atoms, symbol_atom, winning_atom, with_atom};
use command_line::Command;
use mo_format::loader::{S_ATTR_NO_DEAD_STRIP, S_MOD_INIT_FUNC_POINTERS};
use mo_types::{
    Atom, AtomKey, Bytes, COMMON_SECTION, Items, KeyList, Loaded, LoadedFile, Object, OutOfMemory,
    Section,
};
use name_ids::NumberList;
use std::alloc::Global;
use symbol_winners::{SymbolTable, Winner};

// An atom of a file that is kept by itself, by the atoms in which external symbols and winners stand.
#[tactic(auto, unfolding(crate::specs::Roots::plain_root))]
fn plain_root(
    symbols: &SymbolTable,
    external: &AtomSet,
    winning: &AtomSet,
    atom: &Atom,
) -> Option<AtomKey>
    ensures { result ≡ spec.plain_root symbols.now.literals external.now winning.now atom.now }
{
    let key = atom.key;
    if symbols.representative(key) == key && (!external.contains(key) || winning.contains(key)) {
        Some(key)
    } else {
        None
    }
}

// Roots, and those of some atoms that are kept by themselves.
fn with_plain(
    before: Vec<AtomKey>,
    symbols: &SymbolTable,
    external: &AtomSet,
    winning: &AtomSet,
    atoms: &[Atom],
) -> Result<Vec<AtomKey>, OutOfMemory>
    ensures { IfOk result (λ new. new.items ≡ before.items ++ filter_map (spec.plain_root symbols.now.literals external.now winning.now) atoms.now) }
{
    let mut roots = before;
    for atom in atoms {
        roots = with_atom(roots, plain_root(symbols, external, winning, atom))?;
    }
    Ok(roots)
}

// An atom that is a common symbol's own.
#[tactic(auto, unfolding(crate::specs::Roots::common_root))]
fn common_root(atom: AtomKey) -> Option<AtomKey>
    ensures { result ≡ spec.common_root atom }
{
    if atom.section == COMMON_SECTION {
        Some(atom)
    } else {
        None
    }
}

// Roots, and those among some atoms that are common symbols'.
fn with_commons(before: Vec<AtomKey>, atoms: &[AtomKey]) -> Result<Vec<AtomKey>, OutOfMemory>
    ensures { IfOk result (λ new. new.items ≡ before.items ++ filter_map spec.common_root atoms.now) }
{
    let mut roots = before;
    for atom in atoms {
        roots = with_atom(roots, common_root(*atom))?;
    }
    Ok(roots)
}

// The sets of two lists of atoms, the second of which leaves some of the first out; where it leaves none out, no atoms: then
// no atom is passed over.
#[tactic(auto, using(crate::proofs::AtomSetLemmas::sets))]
fn sets_of(
    alloc: Global,
    external: &[AtomKey],
    winning: &[AtomKey],
) -> Result<(AtomSet, AtomSet), OutOfMemory>
    requires { length external.now ≡ length winning.now → external.now ≡ winning.now }
    ensures { IfOk result (λ sets. (literals : List Standing) (atom : Cut)
        → spec.plain_root literals sets.0 sets.1 atom ≡ spec.plain_root literals external.now winning.now atom) }
{
    if external.len() == winning.len() {
        return Ok((AtomSet::new(alloc), AtomSet::new(alloc)));
    }
    Ok((
        set_of_atoms(alloc, external)?,
        set_of_atoms(alloc, winning)?,
    ))
}

// Roots, and those of a file where nothing is stripped.
fn with_plain_roots(
    alloc: Global,
    before: Vec<AtomKey>,
    symbols: &SymbolTable,
    file: &LoadedFile,
    numbers: &[u32],
) -> Result<Vec<AtomKey>, OutOfMemory>
    requires whole { IsWholeFile file.now }
    requires numbers { numbers.now ≡ numbers_in symbols.now.names file.now }
    ensures { IfOk result (λ new. new.items ≡ before.items ++ spec.plain_roots symbols.now file.now) }
{
    let (external, winning) = standing_atoms(alloc, symbols, file, numbers)?;
    let (all, taken_in) = sets_of(alloc, external.as_slice(), winning.as_slice())?;
    let atoms = file.atoms.as_slice();
    let roots = with_plain(before, symbols, &all, &taken_in, atoms)?;
    Ok(with_commons(roots, winning.as_slice())?)
}

// The literal that stands for that of a winner, where another one does.
#[tactic(auto, unfolding(crate::specs::Roots::merged_root))]
fn merged_root(symbols: &SymbolTable, winner: &Winner) -> Option<AtomKey>
    ensures { result ≡ spec.merged_root symbols.now.literals winner.now }
{
    let stands = symbols.representative(winner.atom);
    if stands == winner.atom {
        None
    } else {
        Some(stands)
    }
}

// Roots, and the literals in which winners stand that are another's.
fn with_merged(
    before: Vec<AtomKey>,
    symbols: &SymbolTable,
    list: &[Winner],
) -> Result<Vec<AtomKey>, OutOfMemory>
    ensures { IfOk result (λ new. new.items ≡ before.items ++ filter_map (spec.merged_root symbols.now.literals) list.now) }
{
    let mut roots = before;
    for winner in list {
        roots = with_atom(roots, merged_root(symbols, winner))?;
    }
    Ok(roots)
}

fn is_kept_section(section: &Section) -> bool
    ensures { result ≡ spec.is_kept_section section.now }
{
    u32::from(section.kind) == S_MOD_INIT_FUNC_POINTERS
        || section.attributes & S_ATTR_NO_DEAD_STRIP != 0
}

// An atom of a section that is kept.
#[tactic(auto, unfolding(crate::specs::Roots::section_root))]
fn section_root(object: &Object, atom: &Atom) -> Option<AtomKey>
    ensures { result ≡ spec.section_root object.now atom.now }
{
    match object.section(u32::from(atom.key.section)) {
        Some(section) => {
            if is_kept_section(section) {
                Some(atom.key)
            } else {
                None
            }
        }
        None => None,
    }
}

// Roots, and the atoms of sections that are kept.
fn with_sections(
    before: Vec<AtomKey>,
    object: &Object,
    atoms: &[Atom],
) -> Result<Vec<AtomKey>, OutOfMemory>
    ensures { IfOk result (λ new. new.items ≡ before.items ++ filter_map (spec.section_root object.now) atoms.now) }
{
    let mut roots = before;
    for atom in atoms {
        roots = with_atom(roots, section_root(object, atom))?;
    }
    Ok(roots)
}

// The atom of a symbol that is marked as kept and wins, in the literal that stands for its own.
fn winning_root(
    symbols: &SymbolTable,
    file: &LoadedFile,
    index: u32,
    number: u32,
) -> Option<AtomKey>
    requires whole { IsWholeFile file.now }
    requires index { index < length file.now.object.symbols }
    requires number { (d : Declared) → number ≡ number_of symbols.now.names (slice_index_or file.now.object.symbols index d) }
    ensures { (d : Declared) → result ≡ spec.winning_root symbols.now file.now (index, slice_index_or file.now.object.symbols index d) }
{
    match winning_atom(symbols, file, index, number) {
        Some(atom) => Some(symbols.representative(atom)),
        None => None,
    }
}

// The atom of a symbol that is marked as kept, whose name has this number.
#[tactic(auto, unfolding(crate::specs::Roots::marked_root))]
fn marked_root(symbols: &SymbolTable, file: &LoadedFile, index: u32, number: u32) -> Option<AtomKey>
    requires whole { IsWholeFile file.now }
    requires index { index < length file.now.object.symbols }
    requires number { (d : Declared) → number ≡ number_of symbols.now.names (slice_index_or file.now.object.symbols index d) }
    ensures { (d : Declared) → result ≡ spec.marked_root symbols.now file.now (index, slice_index_or file.now.object.symbols index d) }
{
    let symbol = &file.object.symbols.as_slice()[index as usize];
    if !symbol.no_strip {
        return None;
    }
    if symbol.external {
        winning_root(symbols, file, index, number)
    } else {
        symbol_atom(file, index)
    }
}

// Roots, and the atoms of a file's symbols that are marked as kept, whose names have these numbers.
fn with_marked(
    before: Vec<AtomKey>,
    symbols: &SymbolTable,
    file: &LoadedFile,
    numbers: &[u32],
) -> Result<Vec<AtomKey>, OutOfMemory>
    requires whole { IsWholeFile file.now }
    requires numbers { numbers.now ≡ numbers_in symbols.now.names file.now }
    ensures { IfOk result (λ new. new.items ≡ before.items ++ filter_map (spec.marked_root symbols.now file.now) (enumerate_from 0 file.now.object.symbols)) }
{
    let mut roots = before;
    for (index, number) in numbers.iter().enumerate() {
        roots = with_atom(roots, marked_root(symbols, file, index as u32, *number))?;
    }
    Ok(roots)
}

// Roots, and those that a file has by itself where what isn't reached is stripped.
#[tactic(auto, unfolding(crate::specs::Roots::kept_roots))]
fn with_kept_roots(
    before: Vec<AtomKey>,
    symbols: &SymbolTable,
    file: &LoadedFile,
    numbers: &[u32],
) -> Result<Vec<AtomKey>, OutOfMemory>
    requires whole { IsWholeFile file.now }
    requires numbers { numbers.now ≡ numbers_in symbols.now.names file.now }
    ensures { IfOk result (λ new. new.items ≡ before.items ++ spec.kept_roots symbols.now file.now) }
{
    let roots = with_sections(before, &file.object, file.atoms.as_slice())?;
    with_marked(roots, symbols, file, numbers)
}

// The atom in which the winner of a name stands.
#[tactic(auto, unfolding(crate::specs::Roots::name_root))]
fn name_root(symbols: &SymbolTable, name: &Bytes) -> Option<AtomKey>
    ensures { result ≡ spec.name_root symbols.now name.now }
{
    match symbols.winner(name.as_slice()) {
        Some(winner) => Some(symbols.representative(winner.atom)),
        None => None,
    }
}

// Roots, and those of some names.
fn with_names(
    before: Vec<AtomKey>,
    symbols: &SymbolTable,
    names: &[Bytes],
) -> Result<Vec<AtomKey>, OutOfMemory>
    ensures { IfOk result (λ new. new.items ≡ before.items ++ filter_map (spec.name_root symbols.now) names.now) }
{
    let mut roots = before;
    for name in names {
        roots = with_atom(roots, name_root(symbols, name))?;
    }
    Ok(roots)
}

// The atoms of the names that a command wants.
#[tactic(auto, unfolding(crate::specs::Roots::wanted_roots))]
fn wanted_roots(
    alloc: Global,
    symbols: &SymbolTable,
    command: &Command,
) -> Result<Vec<AtomKey>, OutOfMemory>
    ensures { IfOk result (λ list. list.items ≡ spec.wanted_roots command.now symbols.now) }
{
    let entry = if command.dylib {
        None
    } else {
        name_root(symbols, &command.entry)
    };
    let roots = with_atom(Vec::new(alloc), entry)?;
    with_names(roots, symbols, command.roots.as_slice())
}

// The atom of a winner that other images see.
#[tactic(auto, unfolding(crate::specs::Roots::exported_root))]
fn exported_root(symbols: &SymbolTable, winner: &Winner) -> Option<AtomKey>
    ensures { result ≡ spec.exported_root symbols.now winner.now }
{
    if winner.exported {
        Some(symbols.representative(winner.atom))
    } else {
        None
    }
}

// Roots, and the atoms of the winners that other images see, where the command asks for them.
#[tactic(auto, unfolding(crate::specs::Roots::exported_roots))]
fn with_exported(
    before: Vec<AtomKey>,
    symbols: &SymbolTable,
    list: &[Winner],
) -> Result<Vec<AtomKey>, OutOfMemory>
    ensures { IfOk result (λ new. new.items ≡ before.items ++ filter_map (spec.exported_root symbols.now) list.now) }
{
    let mut roots = before;
    for winner in list {
        roots = with_atom(roots, exported_root(symbols, winner))?;
    }
    Ok(roots)
}

// Roots, and those of the names that the command exports.
#[tactic(auto, unfolding(crate::specs::Roots::exported_roots))]
fn with_exports(
    before: Vec<AtomKey>,
    symbols: &SymbolTable,
    command: &Command,
) -> Result<Vec<AtomKey>, OutOfMemory>
    ensures { IfOk result (λ new. new.items ≡ before.items ++ spec.exported_roots command.now symbols.now) }
{
    if command.dylib || command.export_given {
        with_exported(before, symbols, symbols.winners())
    } else {
        Ok(before)
    }
}

// Roots, and those that files have by themselves where what isn't reached is stripped.
fn with_all_kept(
    before: Vec<AtomKey>,
    symbols: &SymbolTable,
    files: &[LoadedFile],
    numbers: &[NumberList],
) -> Result<Vec<AtomKey>, OutOfMemory>
    requires whole { All IsWholeFile files.now }
    requires numbers { numbers.now ≡ numbers_of symbols.now.names files.now }
    ensures { IfOk result (λ new. new.items ≡ before.items ++ flat_map (spec.kept_roots symbols.now) files.now) }
{
    let mut roots = before;
    for (at, file) in files.iter().enumerate() {
        roots = with_kept_roots(roots, symbols, file, numbers[at].as_slice())?;
    }
    Ok(roots)
}

// The roots of files where nothing is stripped.
fn all_plain(
    alloc: Global,
    symbols: &SymbolTable,
    files: &[LoadedFile],
    numbers: &[NumberList],
) -> Result<Vec<AtomKey>, OutOfMemory>
    requires whole { All IsWholeFile files.now }
    requires numbers { numbers.now ≡ numbers_of symbols.now.names files.now }
    ensures { IfOk result (λ list. list.items ≡ flat_map (spec.plain_roots symbols.now) files.now) }
{
    let mut roots = Vec::new(alloc);
    for (at, file) in files.iter().enumerate() {
        roots = with_plain_roots(alloc, roots, symbols, file, numbers[at].as_slice())?;
    }
    Ok(roots)
}

/// The atoms from which all that the image keeps is reached. Without `-dead_strip` all atoms but the literals for
/// which others stand, and those whose external symbols all name winners elsewhere; a winner in a literal stands in
/// the one that stands for it, whichever file that is in, and a common symbol that wins has an atom of its own. With
/// it those of an executable's entry, of the wanted names, of the exported winners of a library or where the command
/// lists what is exported, of symbols and sections that are marked as kept (`nlist.h`: N_NO_DEAD_STRIP; `loader.h`:
/// S_ATTR_NO_DEAD_STRIP), and of the pointers to initializers. An atom may be listed more than once. The symbols'
/// winners are found by the numbers of their names.
#[tactic(auto, unfolding(crate::specs::Roots::roots))]
pub fn roots(
    alloc: Global,
    loaded: &Loaded,
    symbols: &SymbolTable,
    numbers: &Items<NumberList>,
    command: &Command,
) -> Result<KeyList, OutOfMemory>
    requires whole { IsWholeLoaded loaded.now }
    requires numbers { numbers.now ≡ numbers_of symbols.now.names loaded.now.files }
    ensures { IfOk result (λ list. list ≡ spec.roots command.now symbols.now loaded.now.files) }
{
    let files = loaded.files.as_slice();
    let numbers = numbers.as_slice();
    if !command.dead_strip {
        let plain = all_plain(alloc, symbols, files, numbers)?;
        return Ok(Items::from_vec(with_merged(plain, symbols, symbols.winners())?));
    }
    let wanted = wanted_roots(alloc, symbols, command)?;
    let exported = with_exports(wanted, symbols, command)?;
    Ok(Items::from_vec(with_all_kept(exported, symbols, files, numbers)?))
}
