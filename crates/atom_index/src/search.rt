//! Searches among values in the order of their atoms.
ghost use Rattle.std.specs.Prelude.{◌≡◌, ◌≢◌, All, IsTrue, MatchOption};
ghost use Rattle.std.specs.List.Sorted.{IsSorted};
ghost use Rattle.std.specs.Ordering.{on};
ghost use Rattle.mo_types.specs.Keys.{compare_keys};
ghost use Rattle.atom_index.specs.Stands.{StandsAt};

use crate::keyed::Keyed;
use mo_types::{AtomKey, compare_atoms};

/// A place at which a value of an atom stands, or `None` exactly where none does. Takes no memory.
pub fn find<T: Keyed>(values: &[T], atom: &AtomKey) -> Option<usize>
    requires { IsSorted (on T.key_of compare_keys) values.now }
    ensures { MatchOption result (All (λ value. T.key_of value ≢ atom.now) values.now) (StandsAt T.key_of values.now atom.now) }
{
    match values.binary_search_by(|value| compare_atoms(value.key(), atom)) {
        Ok(at) => Some(at),
        Err(_) => None,
    }
}

/// Whether a value of an atom stands at a place.
#[inline(always)]
pub fn is_at<T: Keyed>(values: &[T], at: usize, atom: &AtomKey) -> bool
    ensures { IsTrue result → StandsAt T.key_of values.now atom.now at }
{
    match values.get(at) {
        Some(value) => is_same(value.key(), atom),
        None => false,
    }
}

/// Whether two atoms are the same one.
#[inline(always)]
pub fn is_same(a: &AtomKey, b: &AtomKey) -> bool
    ensures { IsTrue result → a.now ≡ b.now }
{
    a == b
}
