//! Where the values of a list stand, by the atoms to which they belong.
//!
//! The list is sorted by its atoms' keys (`compare_keys`), and a value says by `Keyed` which atom is its own. `find`
//! answers a place at which a value of an atom stands (`StandsAt`, in `specs/Stands.antt`), or `None` exactly where
//! none does. It searches among the values in their order, and takes no memory.
//!
//! `AtomIndex` is a table beside such a list, so that it costs the same to ask for an atom, however many there are.
//! Its `find` has the contract of the other one. Nothing is proved of what the table holds: a place that it tells is
//! looked at, and what it misses is searched for. `AtomIndex::of` takes memory for the table; want of it is the one
//! error here.
//!
//! `is_at` and `is_same` promise something of a yes alone: that a value of the atom stands at the place, or that both
//! atoms are the same one. The searches stand in the module `search`, the table in `index`.
//!
//! The contracts refuse a body that answers the place at which a value would stand where none does, one that answers
//! the place behind it, and one that takes a missing hint for an answer.
#![tactic(auto)]

mod index;
mod keyed;
mod search;

pub use index::AtomIndex;
pub use keyed::Keyed;
pub use search::{find, is_at, is_same};
