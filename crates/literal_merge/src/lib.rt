//! What stands in the image for literals (`loader.h`: S_CSTRING_LITERALS, S_4BYTE_LITERALS and its kin).
//!
//! `representatives` answers exactly what stands for each literal of whole loaded files, in the order of these
//! (`representatives_of`, in `specs/Representatives.antt`): a literal is an atom of a section of literals, and of all
//! with the same bytes that go to one section of the image the one with the least key stands for all. A
//! `Representative` has both keys, and the alignment with which the one that stands is placed: the greatest among
//! those for which it stands. The one error is want of memory.
//!
//! `representative_in` looks up what stands for a literal, `None` exactly where the atom is none, and `stands_for`
//! answers the atom that stands for any one: for an atom that is no literal itself (`specs/Standing.antt`). Both want
//! the list to be in order.
//!
//! The module `literal` finds the literals of files, and `groups` those that are the same. The laws say that a
//! representative is the same literal with the least key of all (`representatives_have_the_least_keys`), and that
//! literals that are the same have one representative, which so stands for itself.
//!
//! No body meets the contracts that lets the last of the same literals stand for all, that places it with the
//! alignment of the first, or that joins literals of two segments.
#![tactic(auto)]

mod groups;
mod laws;
mod literal;
mod representative;

pub use groups::representatives;
pub use laws::{representatives_have_the_least_keys, the_same_literals_have_one_representative};
pub use representative::{Representative, RepresentativeList, representative_in, stands_for};
