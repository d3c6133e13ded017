//! The unwind entries of the atoms that are kept.
ghost use Rattle.std.specs.Prelude.{◌≡◌, ◌++◌, ◌∷◌, [], IfOk, is_some, map, if◌then◌else◌};
ghost use Rattle.std.specs.List.{filter};
ghost use Rattle.std.specs.List.Sorted.{IsStrictlySortedBy};
ghost use Rattle.mark_core.specs.Kept.{has};
ghost use Rattle.mo_types.specs.Keys.{compare_keys};
ghost use Rattle.unwind_link.specs.Kept as spec;

use atom_index::{find, is_at};
use mo_types::{AtomKey, Items, KeyList, Loaded, LoadedFile, OutOfMemory, Unwind};
use std::alloc::Global;

/// An unwind entry of an atom that is kept.
#[derive(Clone, Copy, Debug, PartialEq, Eq)]
pub struct KeptUnwind {
    /// The place of its file among the loaded ones, counted from 0.
    pub file: usize,
    pub unwind: Unwind,
}

/// Such entries, file by file.
pub type KeptUnwinds = Items<KeptUnwind>;

// Where an atom stands among those that are kept; it mostly stands near a place.
fn place_of(keys: &[AtomKey], near: usize, key: AtomKey) -> Option<usize>
    requires { IsStrictlySortedBy compare_keys keys.now }
    ensures { is_some result ≡ has keys.now key }
{
    if is_at(keys, near, &key) {
        return Some(near);
    }
    find(keys, &key)
}

// Where the atom of the next entry mostly stands.
fn next_to(place: Option<usize>, near: usize) -> usize {
    match place {
        Some(at) => at.saturating_add(1),
        None => near,
    }
}

// Kept entries, and one of the file at a place, if it is kept.
fn with_entry(
    before: Vec<KeptUnwind>,
    file: usize,
    unwind: Unwind,
    is_kept: bool,
) -> Result<Vec<KeptUnwind>, OutOfMemory>
    ensures { IfOk result (λ new. new.items ≡ before.items ++ map (spec.kept_as file) (if is_kept then unwind ∷ [] else [])) }
{
    let mut kept = before;
    if is_kept {
        kept.push(KeptUnwind { file, unwind })?;
    }
    Ok(kept)
}

// Kept entries, and those among some of the file at a place.
#[tactic(auto, using(crate::proofs::KeptLemmas::entries))]
fn with_entries(
    before: Vec<KeptUnwind>,
    keys: &[AtomKey],
    file: usize,
    unwinds: &[Unwind],
) -> Result<Vec<KeptUnwind>, OutOfMemory>
    requires { IsStrictlySortedBy compare_keys keys.now }
    ensures { IfOk result (λ new. new.items ≡ before.items ++ map (spec.kept_as file) (filter (λ unwind. has keys.now unwind.atom) unwinds.now)) }
{
    let mut kept = before;
    let mut near = 0;
    for unwind in unwinds {
        let place = place_of(keys, near, unwind.atom);
        kept = with_entry(kept, file, *unwind, place.is_some())?;
        near = next_to(place, near);
    }
    Ok(kept)
}

// Those of files.
#[tactic(auto, using(crate::proofs::KeptLemmas::files))]
fn kept_of(
    alloc: Global,
    files: &[LoadedFile],
    keys: &[AtomKey],
) -> Result<Vec<KeptUnwind>, OutOfMemory>
    requires { IsStrictlySortedBy compare_keys keys.now }
    ensures { IfOk result (λ kept. kept.items ≡ spec.kept_unwinds keys.now files.now) }
{
    let mut kept = Vec::new(alloc);
    for (at, file) in files.iter().enumerate() {
        kept = with_entries(kept, keys, at, file.unwinds.as_slice())?;
    }
    Ok(kept)
}

/// The unwind entries of loaded files whose atoms are kept, file by file and in the order of each file's list. The keys of
/// kept atoms are to rise. Most entries cost the same, however many atoms are kept, as they go by their atoms' order.
pub fn kept_unwinds(
    alloc: Global,
    loaded: &Loaded,
    keys: &KeyList,
) -> Result<KeptUnwinds, OutOfMemory>
    requires { IsStrictlySortedBy compare_keys keys.now }
    ensures { IfOk result (λ kept. kept ≡ spec.kept_unwinds keys.now loaded.now.files) }
{
    let kept = kept_of(alloc, loaded.files.as_slice(), keys.as_slice())?;
    Ok(KeptUnwinds::from_vec(kept))
}
