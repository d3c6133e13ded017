//! The fields of references in an image: what each is to hold, and the bytes of atoms with their fields.
//!
//! A `Met` is a reference with what it means in the image: its field's place in the atom, its kind, and the address
//! that it leads to with what is added or subtracted. `field_of` (`specs/Field.antt`) says what the field holds, by
//! the kind (`mach-o/arm64/reloc.h`) and the instruction that is there, or which value doesn't fit it.
//!
//! `patch_atom` writes the fields of one atom and leaves all other bytes (`ArePatched`). Where values don't fit it
//! answers the one at the least place, and writes nothing. It takes no memory. `patch_range` writes the atoms of a
//! piece of an image, each with its bytes and fields at its place, and leaves all other bytes (`specs/Range.antt`); a
//! `Meeting` tells it the references of each. Where values don't fit it answers the first one of the atom with the
//! least key. It takes memory for the references of one atom at a time. That fields lie apart in their atom's bytes and
//! atoms stand one behind the other is a condition of these calls (`AreFields`, `AreWork`), and nothing tests it.
//!
//! The laws say that what was written reads back as the target (`fields_read_back`), that instructions keep their other
//! bits, that no byte is in two fields or two atoms, and that the bytes are one thing and exist, where all values fit
//! (`atoms_are_placed_or_a_fault_exists`).
//!
//! Refused are a body that adds an addend twice, one that cuts a branch out of reach to its lowest bits, and one that
//! has written bytes before it answers a fault.
#![tactic(auto)]

mod atom;
mod fault;
mod field;
mod laws;
mod meeting;
mod met;
mod range;

pub use atom::patch_atom;
pub use laws::{
    atoms_are_placed_or_a_fault_exists, fields_of_references_lie_apart, fields_read_back,
    instructions_keep_their_other_bits, no_byte_is_in_two_atoms, no_byte_is_in_two_fields,
    patched_bytes_are_one,
};
pub use meeting::Meeting;
pub use met::{Met, RangeFault};
pub use range::{PatchFault, PlacedWork, patch_range};
