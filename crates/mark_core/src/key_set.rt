//! Sets of atoms.
ghost use Rattle.std.specs.Prelude.{◌≡◌, IfOk};
ghost use Rattle.std.specs.List.Sorted.{IsStrictlySortedBy};
ghost use Rattle.mo_types.specs.Keys.{compare_keys};
ghost use Rattle.mo_types.specs.declared.key.AtomKey.{AtomKey as Key};
ghost use Rattle.mark_core.specs.Kept.{has};

use crate::lookup::is_hinted;
use atom_index::AtomIndex;
use mo_types::{AtomKey, OutOfMemory};
use std::alloc::Global;
use std::marker::Model;

/// Atoms by rising key, each once. Contracts see the list of them. A private table makes it cost the same to ask for one,
/// however many there are.
#[derive(Debug, Drop)]
pub struct KeySet {
    keys: Vec<AtomKey>,
    hints: AtomIndex,
}

impl Model for KeySet {
    ghost use Rattle.std.specs.Prelude.{List};
    ghost use Rattle.std.specs.List.Sorted.{IsStrictlySortedBy};
    ghost use Rattle.mo_types.specs.Keys.{compare_keys};
    ghost use Rattle.mo_types.specs.declared.key.AtomKey.{AtomKey as Key};

    ghost Value = { List Key };

    ghost view = { λ set. set.keys.items };

    ghost invariant = { λ set. IsStrictlySortedBy compare_keys set.keys.items };
}

impl KeySet {
    /// The set of some atoms, which may be in any order and stand there more than once.
    pub fn from_vec(alloc: Global, atoms: Vec<AtomKey>) -> Result<KeySet, OutOfMemory>
        ensures { IfOk result (λ set. (atom : Key) → has set atom ≡ has atoms.items atom) }
    {
        let keys = in_order(atoms)?;
        let hints = AtomIndex::of(alloc, keys.as_slice())?;
        Ok(KeySet { keys, hints })
    }

    /// The atoms, by rising key.
    pub fn as_slice(&self) -> &[AtomKey]
        ensures all { result.now ≡ self.now }
        ensures rising { IsStrictlySortedBy compare_keys self.now }
    {
        self.keys.as_slice()
    }

    /// The vector of the atoms, without taking memory.
    pub fn into_vec(self) -> Vec<AtomKey>
        ensures all { result.items ≡ self }
        ensures rising { IsStrictlySortedBy compare_keys result.items }
    {
        let KeySet { keys, .. } = self;
        keys
    }

    /// Whether an atom is there. Takes no memory.
    pub fn contains(&self, atom: &AtomKey) -> bool
        ensures { result ≡ has self.now atom.now }
    {
        is_hinted(self.keys.as_slice(), &self.hints, atom)
    }
}

/// Atoms by rising key, each once.
pub(crate) fn in_order(atoms: Vec<AtomKey>) -> Result<Vec<AtomKey>, OutOfMemory>
    ensures same { IfOk result (λ keys. (atom : Key) → has keys.items atom ≡ has atoms.items atom) }
    ensures rising { IfOk result (λ keys. IsStrictlySortedBy compare_keys keys.items) }
{
    let mut keys = atoms;
    keys.sort()?;
    keys.dedup();
    Ok(keys)
}
