//! The names that libraries provide.
ghost use Rattle.std.specs.Prelude.{◌≡◌, ℕ, List, None, Some, IfOk, bytes_eq, if◌then◌else◌};
ghost use Rattle.lib_bind.specs.inner.Index.{known};
ghost use Rattle.lib_bind.specs.inner.Key.{bytes_of};

use crate::key::Key;
use crate::provider::Offer;
use mo_types::OutOfMemory;
use smallvec::SmallVec;
use std::alloc::Global;
use std::collections::HashMap;

/// For each name that is provided, by whom.
#[derive(Drop)]
pub struct NameIndex {
    map: HashMap<Key<'static>, Offer>,
}

impl NameIndex {
    /// The index of no names, which takes no memory.
    pub fn new(alloc: Global) -> NameIndex
        ensures { (name : List ℕ) → known result name ≡ None }
    {
        NameIndex {
            map: HashMap::new(alloc),
        }
    }

    /// By whom a name is provided. Takes no memory.
    pub fn get(&self, name: &[u8]) -> Option<Offer>
        ensures { result ≡ known self.now name.now }
    {
        let key = Key::Asked(name);
        self.map.get(&key).copied()
    }

    /// Notes by whom a name is provided, in place of what is known of it.
    pub fn note(self, alloc: Global, name: &[u8], offer: Offer) -> Result<NameIndex, OutOfMemory>
        ensures { IfOk result (λ new. (other : List ℕ) → known new other ≡ (if bytes_eq other name.now then Some offer else known self other)) }
    {
        let NameIndex { mut map } = self;
        map.insert(key_of(alloc, name)?, offer)?;
        Ok(NameIndex { map })
    }
}

// A key for a name, with a copy of it.
fn key_of(alloc: Global, name: &[u8]) -> Result<Key<'static>, OutOfMemory>
    ensures { IfOk result (λ key. bytes_of key ≡ name.now) }
{
    Ok(Key::Held(SmallVec::from_slice(alloc, name)?))
}
