//! The first of the keys that are equal.
ghost use Rattle.std.specs.Prelude.{◌≡◌, IfOk};
ghost use Rattle.fold_code.specs.inner.Firsts.{AreFirsts};

use indexmap::IndexMap;
use mo_types::OutOfMemory;
use std::alloc::Global;
use std::hash::Hash;

/// For each of some keys the place of the first that is equal to it.
pub(crate) fn firsts_of<K: Hash + Eq + Copy>(
    alloc: Global,
    keys: &[K],
) -> Result<Vec<usize>, OutOfMemory>
    ensures { IfOk result (λ firsts. AreFirsts K.eq keys.now firsts.items) }
{
    let mut places = IndexMap::new(alloc);
    let mut firsts = Vec::with_capacity(alloc, keys.len())?;
    for (at, key) in keys.iter().enumerate() {
        firsts.push(*places.entry(*key)?.or_insert(at))?;
    }
    Ok(firsts)
}
