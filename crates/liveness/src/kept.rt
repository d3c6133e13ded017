//! Whether an atom is kept.

ghost use Rattle.std.specs.Prelude.{◌≡◌};
ghost use Rattle.std.specs.List.Sorted.{IsStrictlySortedBy};
ghost use Rattle.mo_types.specs.Keys.{compare_keys};
ghost use Rattle.mark_core.specs.Kept.{has};

use mark_core::is_kept;
use mo_types::AtomKey;

/// The last atom that was asked, with the answer: references of one atom mostly stand together.
#[derive(Clone, Copy)]
pub(crate) struct LastKept {
    pub key: AtomKey,
    pub kept: bool,
}

/// The answer for an atom, where that for another one is known.
pub(crate) fn ask(keys: &[AtomKey], last: LastKept, key: AtomKey) -> LastKept
    requires sorted { IsStrictlySortedBy compare_keys keys.now }
    requires known { last.kept ≡ has keys.now last.key }
    ensures key { result.key ≡ key }
    ensures kept { result.kept ≡ has keys.now key }
{
    if last.key == key {
        return LastKept {
            key,
            kept: last.kept,
        };
    }
    LastKept {
        key,
        kept: is_kept(keys, key),
    }
}
