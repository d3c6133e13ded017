ghost use Rattle.std.specs.Prelude.{◌≡◌, ℕ, MatchOption};
ghost use Rattle.std.specs.List.Sorted.{IsSorted};
ghost use Rattle.std.specs.Ordering.{on};
ghost use Rattle.tlv_plan.specs.Template.{HasOffset};
ghost use Rattle.tlv_plan.specs.declared.parts.Offset.{Offset};
ghost use Rattle.mo_types.specs.Keys.{compare_keys};

use crate::parts::{Offset, Template};
use mo_types::{AtomKey, compare_atoms};

/// The offset of an atom from the template's start in bytes, or `None` exactly where the atom isn't in the template.
/// Takes no memory.
pub fn offset_of(template: &Template, atom: AtomKey) -> Option<u64>
    ensures { MatchOption result ((offset : ℕ) → ¬ HasOffset template.now.places atom offset) (λ offset. HasOffset template.now.places atom offset) }
{
    find(template.places.as_slice(), &atom)
}

// The offset of an atom, among offsets in the order of their atoms.
fn find(offsets: &[Offset], atom: &AtomKey) -> Option<u64>
    requires { IsSorted (on (λ (o : Offset). o.atom) compare_keys) offsets.now }
    ensures { MatchOption result ((offset : ℕ) → ¬ HasOffset offsets.now atom.now offset) (λ offset. HasOffset offsets.now atom.now offset) }
{
    match offsets.binary_search_by(|o| compare_atoms(&o.atom, atom)) {
        Ok(at) => Some(offsets[at].offset),
        Err(_) => None,
    }
}
