//! The atoms that are kept, by workers in threads of their own.
ghost use Rattle.std.specs.Prelude.{◌≡◌, ℕ, ◌^◌, ◌<◌, ◌≤◌, ◌++◌, ◌∷◌, [], cond, length, map, IfOk};
ghost use Rattle.std.specs.List.Sorted.{IsStrictlySortedBy};
ghost use Rattle.mo_types.specs.Keys.{compare_keys};
ghost use Rattle.mo_types.specs.declared.key.AtomKey.{AtomKey as Key};
ghost use Rattle.mark_core.specs.Kept.{IsKept, has};
ghost use Rattle.mark_race.specs.inner.Numbers.{ArePicked};

use crate::filling::table_of;
use crate::levels::mark_all;
use crate::numbers::number_atoms;
use indexmap::IndexSet;
use mark_core::{KeySet, kept_from};
use mo_outside::Gate;
use mo_types::{AtomKey, EdgeList, Items, KeyList, OutOfMemory};
use std::alloc::Global;
use std::thread::Threads;

// Fewer edges and fewer supports than this name atoms whose numbers have 32 bits.
const LIMIT: usize = 1 << 30;

// Which of some atoms are roots.
fn start_of(
    alloc: Global,
    atoms: &IndexSet<AtomKey>,
    roots: &KeySet,
) -> Result<Vec<bool>, OutOfMemory>
    ensures { IfOk result (λ start. start.items ≡ map (has roots.now) atoms.now.keys) }
{
    Ok(
        atoms
            .iter()
            .map(|atom| roots.contains(atom))
            .collect(alloc)?,
    )
}

// Atoms, and one more where it is wanted.
fn with_atom(
    before: Vec<AtomKey>,
    atom: AtomKey,
    is_wanted: bool,
) -> Result<Vec<AtomKey>, OutOfMemory>
    ensures { IfOk result (λ now. now.items ≡ before.items ++ cond is_wanted (atom ∷ []) []) }
{
    let mut now = before;
    if is_wanted {
        now.push(atom)?;
    }
    Ok(now)
}

// The atoms that are marked.
fn picked(
    alloc: Global,
    atoms: &IndexSet<AtomKey>,
    marked: &[bool],
) -> Result<Vec<AtomKey>, OutOfMemory>
    requires { length marked.now ≡ length atoms.now.keys }
    ensures { IfOk result (λ list. ArePicked atoms.now.keys marked.now (length marked.now) list.items) }
{
    let mut list = Vec::new(alloc);
    for (i, is) in marked.iter().enumerate() {
        list = with_atom(list, atoms[i], *is)?;
    }
    Ok(list)
}

// Roots and other atoms, by rising key.
fn joined(roots: KeySet, more: Vec<AtomKey>) -> Result<Vec<AtomKey>, OutOfMemory>
    ensures same { IfOk result (λ keys. (atom : Key) → has keys.items atom ≡ has (roots ++ more.items) atom) }
    ensures rising { IfOk result (λ keys. IsStrictlySortedBy compare_keys keys.items) }
{
    let mut keys = roots.into_vec();
    let mut more = more;
    keys.append(&mut more)?;
    keys.sort()?;
    keys.dedup();
    Ok(keys)
}

/// The atoms that `mark_core::kept_from` answers, marked by so many workers; no workers count as one.
///
/// The atoms that edges and supports name are numbered by a hash map, the arrows between them sorted by counting, and those
/// that are roots or that marks reach sorted by key: n log n steps at most. So many arrows that their atoms' numbers might
/// not have 32 bits are left to `kept_from`.
pub fn kept_by<R: Threads + Sync, G: Gate + Sync>(
    rt: &R,
    alloc: Global,
    gate: &G,
    workers: u32,
    edges: EdgeList,
    supports: &EdgeList,
    roots: KeySet,
) -> Result<KeyList, OutOfMemory>
    ensures { IfOk result (IsKept edges supports.now roots) }
{
    if edges.len() >= LIMIT || supports.len() >= LIMIT {
        return kept_from(alloc, edges, supports, roots);
    }
    let numbered = number_atoms(alloc, edges.as_slice(), supports.as_slice())?;
    let start = start_of(alloc, &numbered.atoms, &roots)?;
    let ends = table_of(alloc, numbered.atoms.len(), numbered.arrows.as_slice())?;
    let marked = mark_all(rt, alloc, gate, workers.max(1), &ends, start.as_slice())?;
    let more = picked(alloc, &numbered.atoms, marked.as_slice())?;
    Ok(Items::from_vec(joined(roots, more)?))
}
