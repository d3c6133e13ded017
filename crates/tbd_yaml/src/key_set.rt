ghost use Rattle.std.specs.Prelude.{◌≡◌, [], ◌∷◌, ◌++◌, if◌then◌else◌, not, IfOk};
ghost use Rattle.tbd_yaml.specs.Blocks.{has_key};

use indexmap::IndexSet;
use mo_types::{Bytes, OutOfMemory};
use std::alloc::Global;
use std::marker::Model;

/// The keys of a map, which contracts see as the list of them.
#[derive(Drop)]
pub struct KeySet {
    keys: IndexSet<Bytes>,
}

impl Model for KeySet {
    ghost use Rattle.std.specs.Prelude.{List, ℕ};

    ghost Value = { List (List ℕ) };

    ghost view = { λ set. set.keys.keys };
}

impl KeySet {
    /// No keys, which take no memory.
    pub fn new(alloc: Global) -> KeySet
        ensures { result ≡ [] }
    {
        KeySet {
            keys: IndexSet::new(alloc),
        }
    }

    /// Adds a key, unless it is there, and says whether it was added.
    pub fn insert(&mut self, key: Bytes) -> Result<bool, OutOfMemory>
        ensures added { IfOk result (λ added. added ≡ not (has_key key self.old)) }
        ensures keys { IfOk result (λ added. self.new ≡ (if added then self.old ++ key ∷ [] else self.old)) }
    {
        Ok(self.keys.insert(key)?)
    }
}
