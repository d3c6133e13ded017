//! Sets of names.
ghost use Rattle.std.specs.Prelude.{◌≡◌, ℕ, true, false, List, [], IfOk, if◌then◌else◌};
ghost use Rattle.std.specs.Bool.{OnTrue};
ghost use Rattle.std.specs.Str.{bytes_eq};
ghost use Rattle.symbol_winners.specs.Winners.{lists};

use mo_types::{Bytes, OutOfMemory};
use name_ids::Name;
use std::alloc::Global;
use std::collections::HashSet;
use std::marker::Model;

/// Some names, each once, which contracts see as their list.
#[derive(Drop)]
pub struct NameSet<'a> {
    names: HashSet<Name<'a>>,
}

impl<'a> Model for NameSet<'a> {
    ghost use Rattle.std.specs.Prelude.{List, ℕ};

    ghost Value = { List (List ℕ) };

    ghost view = { λ set. set.names.keys };
}

impl<'a> NameSet<'a> {
    /// No names, without taking memory.
    pub(crate) fn new(alloc: Global) -> NameSet<'a>
        ensures { result ≡ [] }
    {
        NameSet {
            names: HashSet::new(alloc),
        }
    }

    /// Whether a name is there. Takes no memory.
    pub(crate) fn contains(&self, name: &[u8]) -> bool
        ensures { result ≡ lists self.now name.now }
    {
        self.names.contains(&Name::new(name))
    }

    /// Whether no name is there.
    pub(crate) fn is_empty(&self) -> bool
        ensures { OnTrue result (self.now ≡ []) }
    {
        self.names.is_empty()
    }

    /// With a name more.
    pub(crate) fn with(self, name: &'a [u8]) -> Result<NameSet<'a>, OutOfMemory>
        ensures { IfOk result (λ new. (other : List ℕ) → lists new other ≡ (if bytes_eq name.now other then true else lists self.entry other)) }
    {
        let NameSet { mut names } = self;
        names.insert(Name::new(name))?;
        Ok(NameSet { names })
    }

    /// Without a name.
    pub(crate) fn without(self, name: &'a [u8]) -> NameSet<'a>
        ensures { (other : List ℕ) → lists result other ≡ (if bytes_eq name.now other then false else lists self.entry other) }
    {
        let NameSet { mut names } = self;
        names.remove(&Name::new(name));
        NameSet { names }
    }
}

/// The set of some names.
#[tactic(auto, using(crate::proofs::SetLemmas::sets))]
pub(crate) fn set_of<'a>(alloc: Global, names: &'a [Bytes]) -> Result<NameSet<'a>, OutOfMemory>
    ensures { IfOk result (λ set. (name : List ℕ) → lists set name ≡ lists names.now name) }
{
    let mut set = NameSet::new(alloc);
    for name in names {
        set = set.with(name.as_slice())?;
    }
    Ok(set)
}
