//! Sets of atoms.
ghost use Rattle.std.specs.Prelude.{◌≡◌, true, [], IfOk, if◌then◌else◌};
ghost use Rattle.mo_types.specs.declared.key.AtomKey.{AtomKey as Key};
ghost use Rattle.mark_core.specs.Kept.{same_atom};
ghost use Rattle.liveness.specs.Roots.{has_atom};

use mo_types::{AtomKey, OutOfMemory};
use std::alloc::Global;
use std::collections::HashSet;
use std::marker::Model;

/// Some atoms, each once, which contracts see as their list.
#[derive(Drop)]
pub struct AtomSet {
    atoms: HashSet<AtomKey>,
}

impl Model for AtomSet {
    ghost use Rattle.std.specs.Prelude.{List};
    ghost use Rattle.mo_types.specs.declared.key.AtomKey.{AtomKey as Key};

    ghost Value = { List Key };

    ghost view = { λ set. set.atoms.keys };
}

impl AtomSet {
    /// No atoms, without taking memory.
    pub(crate) fn new(alloc: Global) -> AtomSet
        ensures { result ≡ [] }
    {
        AtomSet {
            atoms: HashSet::new(alloc),
        }
    }

    /// Whether an atom is there. Takes no memory.
    pub(crate) fn contains(&self, atom: AtomKey) -> bool
        ensures { result ≡ has_atom self.now atom }
    {
        self.atoms.contains(&atom)
    }

    /// With an atom more.
    pub(crate) fn with(self, atom: AtomKey) -> Result<AtomSet, OutOfMemory>
        ensures { IfOk result (λ new. (other : Key) → has_atom new other ≡ (if same_atom atom other then true else has_atom self other)) }
    {
        let AtomSet { mut atoms } = self;
        atoms.insert(atom)?;
        Ok(AtomSet { atoms })
    }
}

/// The set of some atoms.
pub(crate) fn set_of_atoms(alloc: Global, atoms: &[AtomKey]) -> Result<AtomSet, OutOfMemory>
    ensures { IfOk result (λ set. (atom : Key) → has_atom set atom ≡ has_atom atoms.now atom) }
{
    let mut set = AtomSet::new(alloc);
    for atom in atoms {
        set = set.with(*atom)?;
    }
    Ok(set)
}
