//! The kept atoms of common symbols.
ghost use Rattle.std.specs.Prelude.{◌≡◌, ◌++◌, ◌∷◌, [], ◌==◌, All, IfOk, List, OnOk, length, map, if◌then◌else◌};
ghost use Rattle.std.specs.List.{filter, filter_map};
ghost use Rattle.std.specs.List.Sorted.{IsStrictlySortedBy};
ghost use Rattle.std.specs.Ordering.{is_eq, is_gt, is_lt, on};
ghost use Rattle.image_make.specs.Atoms as spec;
ghost use Rattle.image_make.specs.inner.Commons.{IsCountBelow, IsCountUpTo, all_commons, common_keys};
ghost use Rattle.mo_types.specs.Keys.{compare_files, compare_keys};
ghost use Rattle.mo_types.specs.declared.atom.Atom.{Atom as Piece};
ghost use Rattle.symbol_winners.specs.declared.winner.Winner.{Winner as Won};

use mo_types::{Atom, AtomKey, COMMON_SECTION, FileId, OutOfMemory, compare_atoms};
use std::alloc::Global;
use symbol_winners::Winner;

// Keys, and one more, if it is a common symbol's.
fn with_key(before: Vec<AtomKey>, key: AtomKey) -> Result<Vec<AtomKey>, OutOfMemory>
    ensures { IfOk result (λ new. new.items ≡ before.items ++ (if key.section == COMMON_SECTION then key ∷ [] else [])) }
{
    let mut keys = before;
    if key.section == COMMON_SECTION {
        keys.push(key)?;
    }
    Ok(keys)
}

// The keys of common symbols among some.
#[tactic(auto, using(crate::proofs::CommonLemmas::keys))]
fn common_keys(alloc: Global, keys: &[AtomKey]) -> Result<Vec<AtomKey>, OutOfMemory>
    ensures { IfOk result (λ commons. commons.items ≡ common_keys keys.now) }
{
    let mut commons = Vec::new(alloc);
    for key in keys {
        commons = with_key(commons, *key)?;
    }
    Ok(commons)
}

fn common_of(winner: &Winner) -> Atom
    ensures { result ≡ spec.common_of winner.now }
{
    Atom {
        key: winner.atom,
        size: winner.size,
        align: winner.align,
    }
}

// The atoms that are found for keys, with that of a winner at its key, where none is there before.
fn noted(before: Vec<Option<Atom>>, keys: &[AtomKey], winner: &Winner) -> Vec<Option<Atom>>
    requires keys { IsStrictlySortedBy compare_keys keys.now }
    requires commons { All (λ key. key.section ≡ COMMON_SECTION) keys.now }
    requires length { length before.items ≡ length keys.now }
    ensures { (winners : List Won) → before.items ≡ map (spec.common_at winners) keys.now
        → result.items ≡ map (spec.common_at (winners ++ winner.now ∷ [])) keys.now }
{
    let mut found = before;
    if winner.atom.section != COMMON_SECTION {
        return found;
    }
    if let Ok(at) = keys.binary_search_by(|key| compare_atoms(key, &winner.atom)) {
        if found[at].is_none() {
            found[at] = Some(common_of(winner));
        }
    }
    found
}

// The atoms of common symbols, as the winners have them, for keys of these.
fn found_for(
    alloc: Global,
    winners: &[Winner],
    keys: &[AtomKey],
) -> Result<Vec<Option<Atom>>, OutOfMemory>
    requires keys { IsStrictlySortedBy compare_keys keys.now }
    requires commons { All (λ key. key.section ≡ COMMON_SECTION) keys.now }
    ensures { IfOk result (λ found. found.items ≡ map (spec.common_at winners.now) keys.now) }
{
    let mut found = vec![in alloc; None; keys.len()]?;
    if keys.is_empty() {
        return Ok(found);
    }
    for winner in winners {
        found = noted(found, keys, winner);
    }
    Ok(found)
}

// Atoms, and one more, if it is there.
fn with_found(before: Vec<Atom>, found: Option<Atom>) -> Result<Vec<Atom>, OutOfMemory>
    ensures { IfOk result (λ new. new.items ≡ before.items ++ filter_map (λ o. o) (found ∷ [])) }
{
    let mut atoms = before;
    if let Some(atom) = found {
        atoms.push(atom)?;
    }
    Ok(atoms)
}

// Those that are there.
#[tactic(auto, using(crate::proofs::CommonLemmas::found))]
fn all_found(alloc: Global, found: &[Option<Atom>]) -> Result<Vec<Atom>, OutOfMemory>
    ensures { IfOk result (λ atoms. atoms.items ≡ filter_map (λ o. o) found.now) }
{
    let mut atoms = Vec::with_capacity(alloc, found.len())?;
    for one in found {
        atoms = with_found(atoms, *one)?;
    }
    Ok(atoms)
}

/// The kept atoms of common symbols, by rising key, where the keys that are kept rise.
pub(crate) fn kept_commons(
    alloc: Global,
    winners: &[Winner],
    keys: &[AtomKey],
) -> Result<Vec<Atom>, OutOfMemory>
    requires { IsStrictlySortedBy compare_keys keys.now }
    ensures { IfOk result (λ commons. commons.items ≡ all_commons winners.now keys.now) }
{
    let keys = common_keys(alloc, keys)?;
    let found = found_for(alloc, winners, keys.as_slice())?;
    all_found(alloc, found.as_slice())
}

fn is_below(a: &FileId, b: &FileId) -> bool
    ensures { result ≡ is_lt (compare_files a.now b.now) }
{
    a.cmp(b).is_lt()
}

fn is_above(a: &FileId, b: &FileId) -> bool
    ensures { result ≡ is_gt (compare_files a.now b.now) }
{
    a.cmp(b).is_gt()
}

// How many atoms stand before those of a file.
fn count_below(atoms: &[Atom], id: FileId) -> usize
    requires { IsStrictlySortedBy (on (λ (atom : Piece). atom.key) compare_keys) atoms.now }
    ensures { IsCountBelow id atoms.now result }
{
    atoms.partition_point(|atom| is_below(&atom.key.file, &id))
}

// How many stand before those of later files.
fn count_up_to(atoms: &[Atom], id: FileId) -> usize
    requires { IsStrictlySortedBy (on (λ (atom : Piece). atom.key) compare_keys) atoms.now }
    ensures { IsCountUpTo id atoms.now result }
{
    atoms.partition_point(|atom| !is_above(&atom.key.file, &id))
}

/// Those of a file among atoms that rise by their keys.
pub(crate) fn commons_of(atoms: &[Atom], id: FileId) -> &[Atom]
    requires { IsStrictlySortedBy (on (λ (atom : Piece). atom.key) compare_keys) atoms.now }
    ensures { result.now ≡ filter (λ atom. is_eq (compare_files atom.key.file id)) atoms.now }
{
    let start = count_below(atoms, id);
    let end = count_up_to(atoms, id);
    &atoms[start..end]
}
