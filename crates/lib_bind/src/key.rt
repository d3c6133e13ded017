//! Names as keys of a map that has copies of them.
ghost use Rattle.std.specs.Prelude.{◌≡◌};
ghost use Rattle.lib_bind.specs.inner.Key.{bytes_of};

use name_ids::Name;
use smallvec::SmallVec;
use std::hash::{Hash, Hasher};

/// A name that a map has, or one that it is asked for, hashed and compared as a `Name`. Of the names that a map has,
/// those of at most 48 bytes stand in its own entries, and longer ones each in a block of memory.
#[derive(Drop)]
pub enum Key<'a> {
    Held(SmallVec<u8, 48>),
    Asked(&'a [u8]),
}

impl<'a> Key<'a> {
    // The bytes of the name.
    fn bytes(&self) -> &[u8]
        ensures { result.now ≡ bytes_of self.now }
    {
        match self {
            Key::Held(name) => name.as_slice(),
            Key::Asked(name) => *name,
        }
    }
}

impl<'a> PartialEq for Key<'a> {
    ghost use Rattle.std.specs.Prelude.{nat_eq};
    ghost use Rattle.std.specs.Ordering.{on};
    ghost use Rattle.std.specs.Cmp.Lexicographic.{pointwise};
    ghost use Rattle.std.specs.Cmp.Rules.{comparing};
    ghost use Rattle.std.proofs.Common.{rules};

    ghost eq = { on bytes_of (pointwise nat_eq) };

    ghost laws = { Prim.search (comparing, rules) };

    fn eq(&self, other: &Self) -> bool {
        Name::new(self.bytes()) == Name::new(other.bytes())
    }
}

impl<'a> Eq for Key<'a> {
    ghost use Rattle.std.specs.Cmp.Rules.{comparing};
    ghost use Rattle.std.proofs.Common.{rules};

    ghost laws = { Prim.search (comparing, rules) };
}

impl<'a> Hash for Key<'a> {
    ghost use Rattle.std.specs.Prelude.{◌∷◌, ◌++◌, [], length, take};
    ghost use Rattle.std.specs.Hash as fed;
    ghost use Rattle.std.specs.Cmp.Rules.{hashing};
    ghost use Rattle.std.proofs.Common.{rules};

    ghost hash_input = { λ key. fed.usize (length (bytes_of key)) ++ take 1024 (bytes_of key) ∷ [] };

    ghost respects_eq = { Prim.search (hashing, rules) };

    fn hash<H: Hasher>(&self, state: &mut H) {
        Name::new(self.bytes()).hash(state);
    }
}
