//! Names as the keys of a table that owns them.
ghost use Rattle.std.specs.Prelude.{◌≡◌};

use crate::name::Name;
use indexmap::Equivalent;
use mo_types::{Bytes, hashed_front};
use std::hash::{Hash, Hasher};
use std::marker::Model;

/// A name that a table holds, which shares its bytes with the file that it is from; contracts see them. Its hash is that of
/// the `Name` by which it is looked up.
#[derive(Debug, Drop)]
pub struct HeldName(Bytes);

impl Model for HeldName {
    ghost use Rattle.std.specs.Prelude.{List, ℕ};

    ghost Value = { List ℕ };

    ghost view = { λ name. name.0 };
}

impl HeldName {
    /// The name of these bytes.
    pub(crate) fn new(bytes: Bytes) -> HeldName
        ensures { result ≡ bytes }
    {
        HeldName(bytes)
    }

    /// Its bytes.
    pub(crate) fn bytes(&self) -> &[u8]
        ensures { result.now ≡ self.now }
    {
        self.0.as_slice()
    }
}

impl PartialEq for HeldName {
    ghost use Rattle.std.specs.Prelude.{nat_eq};
    ghost use Rattle.std.specs.Cmp.Lexicographic.{pointwise, nat_list_eq_equiv};
    ghost use Rattle.std.specs.Cmp.{partial_equiv_from_equiv};

    ghost eq = { pointwise nat_eq };

    ghost laws = { partial_equiv_from_equiv nat_list_eq_equiv };

    fn eq(&self, other: &Self) -> bool {
        self.bytes() == other.bytes()
    }
}

impl Eq for HeldName {
    ghost use Rattle.std.specs.Cmp.Lexicographic.{nat_list_eq_equiv};

    ghost laws = { nat_list_eq_equiv };
}

impl Hash for HeldName {
    ghost use Rattle.std.specs.Prelude.{◌∷◌, ◌++◌, [], length, take};
    ghost use Rattle.std.specs.Hash as fed;
    ghost use Rattle.std.specs.Cmp.Rules.{hashing};
    ghost use Rattle.std.proofs.Common.{rules};

    ghost hash_input = { λ name. fed.usize (length name) ++ take 1024 name ∷ [] };

    ghost respects_eq = { Prim.search (hashing, rules) };

    fn hash<H: Hasher>(&self, state: &mut H) {
        let bytes = self.bytes();
        state.write_usize(bytes.len());
        state.write(hashed_front(bytes));
    }
}

impl<'a> Equivalent<HeldName> for &Name<'a> {
    ghost use Rattle.std.specs.Prelude.{nat_eq};
    ghost use Rattle.std.specs.Cmp.Lexicographic.{pointwise, nat_list_eq_equiv};
    ghost use Rattle.std.specs.Cmp.Rules.{hashing};
    ghost use Rattle.std.proofs.Common.{rules};

    ghost equivalent = { λ query held. pointwise nat_eq query.now held };

    ghost respects_hash = { Prim.search (hashing, rules) };

    ghost respects_eq = { λ query. nat_list_eq_equiv.congr query.now };

    fn equivalent(&self, held: &HeldName) -> bool {
        self.bytes() == held.bytes()
    }
}
