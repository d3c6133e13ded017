//! Whether an atom is one of a list.
ghost use Rattle.std.specs.Prelude.{◌≡◌};
ghost use Rattle.std.specs.List.Sorted.{IsStrictlySortedBy};
ghost use Rattle.mo_types.specs.Keys.{compare_keys};
ghost use Rattle.mark_core.specs.Kept.{has};

use atom_index::{AtomIndex, find, is_at};
use mo_types::AtomKey;

/// Whether an atom is among those of a list whose keys rise. Takes no memory.
pub fn is_kept(keys: &[AtomKey], key: AtomKey) -> bool
    requires { IsStrictlySortedBy compare_keys keys.now }
    ensures { result ≡ has keys.now key }
{
    find(keys, &key).is_some()
}

/// The same, of an atom that mostly stands at a place.
pub fn is_kept_near(keys: &[AtomKey], near: usize, key: AtomKey) -> bool
    requires { IsStrictlySortedBy compare_keys keys.now }
    ensures { result ≡ has keys.now key }
{
    is_at(keys, near, &key) || is_kept(keys, key)
}

// The same, by the hints of the list.
pub(crate) fn is_hinted(keys: &[AtomKey], hints: &AtomIndex, key: &AtomKey) -> bool
    requires { IsStrictlySortedBy compare_keys keys.now }
    ensures { result ≡ has keys.now key.now }
{
    hints.find(keys, key).is_some()
}
