//! The groups of atoms that have islands together.
ghost use Rattle.std.specs.Prelude.{ℕ, ◌≡◌, ◌+◌, ◌<◌, ◌≤◌, ◌^◌, List, All, IfOk};
ghost use Rattle.island_core.specs.Groups as spec;
ghost use Rattle.island_core.specs.declared.cut.Extent.{Extent};

use mo_types::OutOfMemory;
use std::alloc::Global;

/// Where an atom stands, from its first byte to its end.
#[derive(Clone, Copy, Debug, PartialEq, Eq)]
pub struct Extent {
    pub from: u128,
    pub to: u128,
}

/// Cuts atoms, in order and from the first one on, into the longest groups of at most so many bytes; a larger atom is a
/// group alone. The answer has for each group the number of the atom behind its last one.
pub fn cut_atoms(alloc: Global, extents: &[Extent], most: u128) -> Result<Vec<usize>, OutOfMemory>
    requires most { most < 2 ^ 64 }
    requires near { All (λ (extent : Extent). extent.from < 2 ^ 66) extents.now }
    ensures { IfOk result (λ ends. spec.AreEnds most extents.now ends.items) }
{
    let mut ends = Vec::new(alloc);
    let mut first = 0;
    'atoms: for (at, extent) in extents.iter().enumerate() {
        if at > first && extent.to > extents[first].from + most {
            ends.push(at)?;
            first = at;
        }
    }
    if first < extents.len() {
        ends.push(extents.len())?;
    }
    Ok(ends)
}

/// Atoms whose ends rise are cut in one way.
pub fn groups_are_one_cutting()
    ensures { (most : ℕ) (extents : List Extent) (a b : List ℕ) → spec.EndsRise extents
        → spec.AreEnds most extents a → spec.AreEnds most extents b → a ≡ b }
{}
