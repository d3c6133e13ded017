//! How goals are bound.
ghost use Rattle.std.specs.Prelude.{◌≡◌, ◌<◌, ◌^◌};
ghost use Rattle.fixup_chain.specs.Imports as spec;

use mo_types::Goal;

/// The ordinal -2 in 16 bits: a look-up in all images (`loader.h`: BIND_SPECIAL_DYLIB_FLAT_LOOKUP).
const FLAT_LOOKUP: u16 = 0xfffe;

/// The ordinal -3 in 16 bits: a look-up as a weak definition (`loader.h`: BIND_SPECIAL_DYLIB_WEAK_LOOKUP).
const WEAK_LOOKUP: u16 = 0xfffd;

/// Whether the loader looks a goal up by its name.
pub(crate) fn is_bound(goal: &Goal) -> bool
    ensures { result ≡ spec.is_bound goal.now }
{
    match goal {
        Goal::WeakSelf(_, _, _) | Goal::Import { .. } | Goal::Flat(_) => true,
        Goal::Def(_, _) | Goal::Header | Goal::Nobody => false,
    }
}

/// The number of the library that has it, or a special one, in 16 bits.
pub(crate) fn ordinal_of(goal: &Goal) -> u16
    ensures { result ≡ spec.ordinal_of goal.now }
{
    match goal {
        Goal::WeakSelf(_, _, _) => WEAK_LOOKUP,
        Goal::Import {
            ordinal,
            by_weak,
            ..
        } => {
            if *by_weak {
                WEAK_LOOKUP
            } else {
                u16::from(*ordinal)
            }
        }
        Goal::Flat(_) => FLAT_LOOKUP,
        Goal::Def(_, _) | Goal::Header | Goal::Nobody => 0,
    }
}

/// Whether its name may be missing.
pub(crate) fn optional_of(goal: &Goal) -> bool
    ensures { result ≡ spec.optional_of goal.now }
{
    match goal {
        Goal::Import { optional, .. } => *optional,
        Goal::WeakSelf(_, _, _) | Goal::Flat(_) | Goal::Def(_, _) | Goal::Header | Goal::Nobody =>
            false,
    }
}
