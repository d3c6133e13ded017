ghost use Rattle.std.specs.Prelude.{◌≡◌};
ghost use Rattle.mo_types.specs.declared.key.AtomKey.{AtomKey as Key};

use mo_types::AtomKey;

/// A value that belongs to an atom.
pub trait Keyed {
    // the atom
    ghost key_of: { Self → Key };

    /// The atom to which the value belongs.
    fn key(&self) -> &AtomKey
        ensures { result.now ≡ key_of self.now };
}

impl Keyed for AtomKey {
    ghost key_of = { λ atom. atom };

    #[inline(always)]
    fn key(&self) -> &AtomKey {
        self
    }
}
