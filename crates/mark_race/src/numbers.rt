//! The atoms that arrows name, by numbers.
ghost use Rattle.std.specs.Prelude.{◌≡◌, ◌+◌, ◌*◌, ◌^◌, ◌<◌, ◌≤◌, ◌++◌, ◌∷◌, [], length, map, IfOk, IsTrue, OnOk};
ghost use Rattle.std.specs.List.{IsDistinct};
ghost use Rattle.mark_core.specs.Kept.{same_atom};
ghost use Rattle.mark_core.specs.inner.Arrows.{reversed};
ghost use Rattle.mark_race.specs.inner.Numbers.{Adds, AreNumbered, IsAt, atom_at};

use indexmap::IndexSet;
use mo_types::{AtomKey, Edge, OutOfMemory};
use std::alloc::Global;

/// An arrow from an atom to another one, by their numbers.
#[derive(Clone, Copy, Debug)]
pub(crate) struct Arrow {
    pub(crate) from: u32,
    pub(crate) to: u32,
}

/// The atoms that arrows name, each once, and the arrows. The number of an atom is its place.
#[derive(Drop)]
pub(crate) struct Numbered {
    pub(crate) atoms: IndexSet<AtomKey>,
    pub(crate) arrows: Vec<Arrow>,
}

// Whether an atom has a number.
fn is_at(atoms: &IndexSet<AtomKey>, number: usize, atom: &AtomKey) -> bool
    ensures { IsTrue result → (number < length atoms.now.keys) × (atom_at atoms.now.keys number ≡ atom.now) }
{
    match atoms.get_index(number) {
        Some(found) => found == atom,
        None => false,
    }
}

// The number of an atom, to which one is given where it has none. It isn't looked up if it has one that it may have.
fn number_of(
    atoms: &mut IndexSet<AtomKey>,
    maybe: usize,
    atom: AtomKey,
) -> Result<usize, OutOfMemory>
    ensures place { IfOk result (IsAt atoms.old.keys atom atoms.new.keys) }
    ensures few { OnOk result (length atoms.new.keys ≤ length atoms.old.keys + 1) }
    ensures once { OnOk result (IsDistinct same_atom atoms.old.keys → IsDistinct same_atom atoms.new.keys) }
{
    if is_at(atoms, maybe, &atom) {
        return Ok(maybe);
    }
    let (number, _) = atoms.insert_full(atom)?;
    Ok(number)
}

// The number of the last arrow's source.
fn last_source(arrows: &[Arrow]) -> usize {
    match arrows.last() {
        Some(arrow) => arrow.from as usize,
        None => 0,
    }
}

// Puts an arrow behind the others. Arrows from one atom mostly stand together.
fn add(numbered: &mut Numbered, from: AtomKey, to: AtomKey) -> Result<(), OutOfMemory>
    requires few { length numbered.old.atoms.keys + 2 < 2 ^ 32 }
    ensures { OnOk result (Adds (record { from = from; to = to } ∷ []) numbered.old.atoms.keys numbered.old.arrows.items
        numbered.new.atoms.keys numbered.new.arrows.items) }
{
    let maybe = last_source(numbered.arrows.as_slice());
    let from = number_of(&mut numbered.atoms, maybe, from)?;
    let to = number_of(&mut numbered.atoms, from, to)?;
    numbered.arrows.push(Arrow {
        from: from as u32,
        to: to as u32,
    })?;
    Ok(())
}

// Puts edges behind the arrows.
fn add_edges(numbered: &mut Numbered, edges: &[Edge]) -> Result<(), OutOfMemory>
    requires few { length numbered.old.atoms.keys + 2 * length edges.now < 2 ^ 32 }
    ensures { OnOk result (Adds edges.now numbered.old.atoms.keys numbered.old.arrows.items numbered.new.atoms.keys numbered.new.arrows.items) }
{
    for edge in edges {
        add(numbered, edge.from, edge.to)?;
    }
    Ok(())
}

// Puts supports behind the arrows, from what is supported to what supports it.
fn add_supports(numbered: &mut Numbered, supports: &[Edge]) -> Result<(), OutOfMemory>
    requires few { length numbered.old.atoms.keys + 2 * length supports.now < 2 ^ 32 }
    ensures { OnOk result (Adds (map reversed supports.now) numbered.old.atoms.keys numbered.old.arrows.items
        numbered.new.atoms.keys numbered.new.arrows.items) }
{
    for support in supports {
        add(numbered, support.to, support.from)?;
    }
    Ok(())
}

/// The arrows of edges and supports: an edge is one from its source to its end, and a support one from its end to its source.
pub(crate) fn number_atoms(
    alloc: Global,
    edges: &[Edge],
    supports: &[Edge],
) -> Result<Numbered, OutOfMemory>
    requires edges { length edges.now < 2 ^ 30 }
    requires supports { length supports.now < 2 ^ 30 }
    ensures arrows { IfOk result (λ n. AreNumbered (edges.now ++ map reversed supports.now) n.atoms.keys n.arrows.items) }
    ensures few { IfOk result (λ n. length n.atoms.keys < 2 ^ 32) }
    ensures sent { IfOk result (λ n. length n.arrows.items < 2 ^ 32) }
    ensures once { IfOk result (λ n. IsDistinct same_atom n.atoms.keys) }
{
    let mut numbered = Numbered {
        atoms: IndexSet::new(alloc),
        arrows: Vec::with_capacity(alloc, edges.len() + supports.len())?,
    };
    add_edges(&mut numbered, edges)?;
    add_supports(&mut numbered, supports)?;
    Ok(numbered)
}
