//! The atoms that are placed.
ghost use Rattle.std.specs.Prelude.{◌≡◌, ◌≢◌, All, IfOk, MatchOption, length};
ghost use Rattle.atom_index.specs.Stands.{StandsAt};
ghost use Rattle.sect_place.specs.Addresses.{AreOnce};
ghost use Rattle.sym_out.specs.inner.Tables.{atom_of};

use atom_index::{find, is_at};
use mo_types::AtomKey;
use sect_place::{Layout, Placed};
use std::marker::Model;

/// The atoms of a layout, each once, in the order of their keys. Contracts see the list of them.
#[derive(Drop)]
pub(crate) struct PlacedAtoms<'a> {
    placed: &'a [Placed],
}

impl<'a> Model for PlacedAtoms<'a> {
    ghost use Rattle.std.specs.Prelude.{List};
    ghost use Rattle.sect_place.specs.declared.layout.Placed.{Placed};
    ghost use Rattle.sym_out.specs.inner.Tables.{AreInOrder};

    ghost Value = { List Placed };

    ghost view = { λ p. p.placed.now };

    ghost invariant = { λ p. AreInOrder p.placed.now };
}

impl<'a> PlacedAtoms<'a> {
    /// Those of a layout.
    pub fn of(layout: &'a Layout) -> PlacedAtoms<'a>
        requires { AreOnce layout.now.placed }
        ensures { result ≡ layout.now.placed }
    {
        PlacedAtoms {
            placed: layout.placed.as_slice(),
        }
    }

    /// All of them.
    pub fn as_slice(&self) -> &'a [Placed]
        ensures { result.now ≡ self.now }
    {
        self.placed
    }

    /// How many there are.
    pub fn len(&self) -> usize
        ensures { result ≡ length self.now }
    {
        self.placed.len()
    }

    /// The place of an atom, or `None` exactly where it isn't placed. Takes no memory.
    pub fn find(&self, atom: &AtomKey) -> Option<usize>
        ensures found { MatchOption result (All (λ p. p.atom ≢ atom.now) self.now) (StandsAt atom_of self.now atom.now) }
        ensures once { AreOnce self.now }
    {
        find(self.placed, atom)
    }

    /// The same, of an atom that mostly stands at a place or before it.
    pub fn find_near(&self, near: usize, atom: &AtomKey) -> Option<usize>
        ensures found { MatchOption result (All (λ p. p.atom ≢ atom.now) self.now) (StandsAt atom_of self.now atom.now) }
        ensures once { AreOnce self.now }
    {
        if is_at(self.placed, near, atom) {
            return Some(near);
        }
        self.find_before(near, atom)
    }

    // The same, of an atom that mostly stands before a place.
    fn find_before(&self, near: usize, atom: &AtomKey) -> Option<usize>
        ensures found { MatchOption result (All (λ p. p.atom ≢ atom.now) self.now) (StandsAt atom_of self.now atom.now) }
        ensures once { AreOnce self.now }
    {
        let before = near.saturating_sub(1);
        if is_at(self.placed, before, atom) {
            return Some(before);
        }
        self.find(atom)
    }
}
