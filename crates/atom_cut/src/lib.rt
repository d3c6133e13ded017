//! The atoms of an object: the pieces into which its linked sections are cut, each placed as a whole.
//!
//! This crate cuts an object into its atoms: `cut` gives exactly the atoms of the definition, for every object that
//! was read whole. A linked section is cut at each literal, after each string, or at the symbols that may cut. Its
//! laws say that atoms follow each other from the section's start to its end, lose no byte, and have rising keys, and
//! that an offset belongs to the atom with the greatest cut not above it. `bytes_of` gives an atom's part of its
//! section's bytes, of which it copies none: as many as the atom's size, or none where the section is zerofill
//! (`atoms_have_their_bytes`). The definition is `atoms_of` (`specs/Atoms.antt` of `mo_types`), and what the laws
//! speak of stands in `specs/Laws.antt`.
//!
//! Refused are a body that cuts at an alternative entry, one that cuts behind the last NUL of a section of strings
//! too, one that cuts at symbols where the object's header doesn't allow it, and one that takes addresses for offsets.
#![tactic(auto)]

mod contents;
mod cutting;
mod laws;
mod offsets;
mod pieces;
mod section_cuts;

pub use contents::bytes_of;
pub use cutting::cut;
pub use laws::{
    atoms_have_their_bytes, atoms_tile, keys_rise, no_byte_is_lost,
    offset_belongs_to_the_greatest_cut,
};
