//! What stands in the image for a literal.
ghost use Rattle.std.specs.Prelude.{◌≡◌};
ghost use Rattle.std.specs.Option.{option_copied};
ghost use Rattle.mo_types.specs.Keys.{compare_keys};
ghost use Rattle.literal_merge.specs.Standing as standing;
ghost use Rattle.literal_merge.specs.inner.Literals.{AreInOrder};

use mo_types::{AtomKey, Items, compare_atoms};

/// Which literal stands in the image for a literal: of all with the same bytes that go to one section of the image, the
/// one with the least key.
#[derive(Clone, Copy, Debug, PartialEq, Eq)]
pub struct Representative {
    pub literal: AtomKey,
    pub representative: AtomKey,
    /// The alignment of the representative is 2 to this power: the greatest among the literals for which it stands.
    pub align: u8,
}

/// What stands for each literal, in the order of these.
pub type RepresentativeList = Items<Representative>;

/// What stands for a literal, or `None` exactly where the atom is none of these.
pub fn representative_in(literals: &[Representative], key: AtomKey) -> Option<&Representative>
    requires { AreInOrder literals.now }
    ensures { option_copied result ≡ standing.literal_at literals.now key }
{
    match literals.binary_search_by(|literal| compare_atoms(&literal.literal, &key)) {
        Ok(at) => Some(&literals[at]),
        Err(_) => None,
    }
}

/// The atom that stands for one: of a literal its representative, of any other itself.
pub fn stands_for(literals: &[Representative], key: AtomKey) -> AtomKey
    requires { AreInOrder literals.now }
    ensures { result ≡ standing.stands_for literals.now key }
{
    match representative_in(literals, key) {
        Some(literal) => literal.representative,
        None => key,
    }
}
