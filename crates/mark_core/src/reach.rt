//! The atoms to which arrows lead.
ghost use Rattle.std.specs.Prelude.{◌≡◌, ◌<◌, IfOk, length, map, slice_get, Some};
ghost use Rattle.indexmap.specs.IndexSet.{insert_all};
ghost use Rattle.mark_core.specs.inner.Arrows.{AreSorted, end_of};
ghost use Rattle.mark_core.specs.Kept.{same_atom};
ghost use Rattle.mark_core.specs.inner.Reached.{IsReached};

use crate::arrows::arrows_from;
use indexmap::IndexSet;
use mo_types::{AtomKey, Edge, OutOfMemory};
use std::alloc::Global;

// Atoms, and more ones, each once.
fn with_atoms(before: IndexSet<AtomKey>, more: &[AtomKey]) -> Result<IndexSet<AtomKey>, OutOfMemory>
    ensures { IfOk result (λ new. new.keys ≡ insert_all same_atom before.keys more.now) }
{
    let mut found = before;
    for atom in more {
        found.insert(*atom)?;
    }
    Ok(found)
}

// Atoms, and those in which arrows end.
fn with_ends(before: IndexSet<AtomKey>, arrows: &[Edge]) -> Result<IndexSet<AtomKey>, OutOfMemory>
    ensures { IfOk result (λ new. new.keys ≡ insert_all same_atom before.keys (map end_of arrows.now)) }
{
    let mut found = before;
    for arrow in arrows {
        found.insert(arrow.to)?;
    }
    Ok(found)
}

/// The roots, and the atoms to which arrows lead from them, each once.
pub(crate) fn reached(
    alloc: Global,
    arrows: &[Edge],
    roots: &[AtomKey],
) -> Result<IndexSet<AtomKey>, OutOfMemory>
    requires { AreSorted arrows.now }
    ensures { IfOk result (λ found. IsReached arrows.now roots.now found.keys) }
{
    let mut found = with_atoms(IndexSet::new(alloc), roots)?;
    let mut at = 0;
    'atoms: while at < found.len() {
        let atom = found[at];
        found = with_ends(found, arrows_from(arrows, &atom))?;
        at += 1;
    }
    Ok(found)
}
