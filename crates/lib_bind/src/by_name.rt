ghost use Rattle.std.specs.Prelude.{◌≡◌, ◌++◌, ◌∷◌, [], None, IfOk};
ghost use Rattle.lib_bind.specs.Found.{found};

use indexmap::IndexMap;
use mo_types::{Bytes, OutOfMemory};
use std::alloc::Global;
use std::marker::Model;

/// Values by names, each of which has one. Contracts see the pairs in the order in which they were added.
#[derive(Drop)]
pub struct ByName<V> {
    map: IndexMap<Bytes, V>,
}

impl<V> Model for ByName<V> {
    ghost use Rattle.std.specs.Prelude.{List, ℕ};

    ghost Value = { List (List ℕ × V) };

    ghost view = { λ values. values.map.entries };
}

impl<V: Copy + Drop> ByName<V> {
    /// No names, which take no memory.
    pub fn new(alloc: Global) -> ByName<V>
        ensures { result ≡ [] }
    {
        ByName {
            map: IndexMap::new(alloc),
        }
    }

    /// The value of a name. Takes no memory.
    pub fn get(&self, name: &Bytes) -> Option<V>
        ensures { result ≡ found name.now self.now }
    {
        self.map.get(name).copied()
    }

    /// Adds a name that has no value.
    pub fn add(self, name: Bytes, value: V) -> Result<ByName<V>, OutOfMemory>
        requires { found name self ≡ None }
        ensures { IfOk result (λ more. more ≡ self ++ (name, value) ∷ []) }
    {
        let ByName { mut map } = self;
        map.insert(name, value)?;
        Ok(ByName { map })
    }
}
