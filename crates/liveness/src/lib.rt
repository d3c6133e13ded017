//! What keeps atoms: the roots, and what leads from one atom to another; and which names they refer to lead nowhere.
//!
//! `roots` answers exactly the atoms from which all that the image keeps is reached (`specs/Roots.antt`; ld(1):
//! `-dead_strip`; `nlist.h`: N_NO_DEAD_STRIP; `loader.h`: S_ATTR_NO_DEAD_STRIP). `edges` answers two lists, without
//! what leads to roots (`specs/Edges.antt`): the edges, from an atom to where its references lead, and from a function
//! to what handles its exceptions; and the supports, from atoms of sections with S_ATTR_LIVE_SUPPORT to where their
//! references lead. It goes by the goals of each file's symbols. `mark_core` tells which atoms are kept by these.
//!
//! `undefined` answers the least name that leads nowhere, of those to which kept atoms refer, by their references and as
//! the personalities of their unwind entries, and those that the command wants, with what messages call the first file
//! that refers to it, and `None` exactly where there is no such name (`specs/Undefined.antt`). It takes no memory.
//! `ref_order` puts a file's references in the order of their atoms, and `next_spots` answers those of one atom, as the
//! file lists them (`specs/Order.antt`). The one error is want of memory.
//!
//! The laws say that an edge leads to the atom of its reference's goal (`edges_lead_to_goals`), that edges and
//! supports go file by file, and that the name that is told is the first of the least ones (`the_least_name_is_told`).
//!
//! No body meets its contract that makes roots of definitions that were beaten, that takes one atom's being kept for
//! that of all of its file, that leaves out wanted names, or that passes over what a reference subtracts.
#![tactic(auto)]

mod atom_set;
mod ends;
mod kept;
mod laws;
mod leading;
mod lost;
mod order;
mod run;
mod standing;
mod starting;

pub use laws::{edges_are_file_by_file, edges_lead_to_goals, the_least_name_is_told};
pub use leading::edges;
pub use lost::{Lost, undefined};
pub use order::{RefOrder, ref_order};
pub use run::next_spots;
pub use starting::roots;
