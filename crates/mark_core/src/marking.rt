//! The atoms that are kept.
ghost use Rattle.std.specs.Prelude.{◌≡◌, ◌++◌, IfOk};
ghost use Rattle.std.specs.List.Sorted.{IsStrictlySortedBy};
ghost use Rattle.mo_types.specs.Keys.{compare_keys};
ghost use Rattle.mo_types.specs.declared.key.AtomKey.{AtomKey as Key};
ghost use Rattle.mark_core.specs.Kept.{IsKept, has};

use crate::arrows::{ends_from, sorted_arrows};
use crate::key_set::{KeySet, in_order};
use crate::reach::reached;
use indexmap::IndexSet;
use mo_types::{AtomKey, EdgeList, Items, KeyList, OutOfMemory};
use std::alloc::Global;

// The list of some atoms.
fn list_of(alloc: Global, atoms: &IndexSet<AtomKey>) -> Result<Vec<AtomKey>, OutOfMemory>
    ensures { IfOk result (λ list. list.items ≡ atoms.now.keys) }
{
    Ok(atoms.iter().copied().collect(alloc)?)
}

// Roots and the atoms that were reached, by rising key.
fn joined(
    alloc: Global,
    roots: KeySet,
    atoms: &IndexSet<AtomKey>,
) -> Result<Vec<AtomKey>, OutOfMemory>
    ensures same { IfOk result (λ keys. (atom : Key) → has keys.items atom ≡ has (roots ++ atoms.now.keys) atom) }
    ensures rising { IfOk result (λ keys. IsStrictlySortedBy compare_keys keys.items) }
{
    if atoms.is_empty() {
        return Ok(roots.into_vec());
    }
    let list = list_of(alloc, atoms)?;
    let mut keys = roots.into_vec();
    keys.extend_from_slice(list.as_slice())?;
    in_order(keys)
}

/// The atoms that are kept, by rising key: the roots, with each atom the one to which an edge leads from it, and with each
/// atom the one that supports it, which is at the start of a support that ends in it. No others. Of each list the order is
/// of no matter, nor how often something stands in it. Edges that end in a root, and supports that begin in one, may be
/// left out.
///
/// It sorts the edges, and looks each atom up in them once to which they lead: n log n steps, and no memory for another
/// copy of them.
pub fn kept_from(
    alloc: Global,
    edges: EdgeList,
    supports: &EdgeList,
    roots: KeySet,
) -> Result<KeyList, OutOfMemory>
    ensures { IfOk result (IsKept edges supports.now roots) }
{
    let arrows = sorted_arrows(edges.into_vec(), supports.as_slice())?;
    let ends = ends_from(alloc, arrows.as_slice(), &roots)?;
    let atoms = reached(alloc, arrows.as_slice(), ends.as_slice())?;
    Ok(Items::from_vec(joined(alloc, roots, &atoms)?))
}

/// The same of copies of edges, and of roots in any order.
pub fn kept(
    alloc: Global,
    edges: &EdgeList,
    supports: &EdgeList,
    roots: &KeyList,
) -> Result<KeyList, OutOfMemory>
    ensures { IfOk result (IsKept edges.now supports.now roots.now) }
{
    let keys = Vec::from_slice(alloc, roots.as_slice())?;
    let copy = Vec::from_slice(alloc, edges.as_slice())?;
    let roots = KeySet::from_vec(alloc, keys)?;
    kept_from(alloc, Items::from_vec(copy), supports, roots)
}
