//! The atoms of an image: those that are kept because other kept atoms lead to them.
//!
//! `kept_from` answers the kept atoms of edges, supports and roots (`IsKept`, in `specs/Kept.antt`): the least set
//! that has the roots, with an atom the one to which an edge leads from it, and with an atom the one that supports it.
//! They stand by rising key, each once. The order of edges, supports and roots doesn't count, nor how often one is
//! listed. `kept` answers the same for copies of edges, and for roots in any order. The one error of both is want of
//! memory.
//!
//! Edges and supports become one list of arrows, sorted by where they begin (`arrows`), which are followed from the
//! roots (`reach`). A `KeySet` is a set of atoms by rising key, whose table makes it cost the same to ask for one,
//! however many there are. `is_kept` and `is_kept_near` say whether an atom is one of a list whose keys rise. None of
//! these questions takes memory.
//!
//! The laws say that all edges, supports and roots have kept atoms (`kept_atoms_exist`), and just one list of them
//! (`kept_atoms_are_one_list`), and that edges that end in a root, and supports that begin in one, may be left out
//! (`what_leads_to_roots_adds_nothing`).
//!
//! A body that keeps the roots alone, or the end of each edge, wherever it begins, isn't proved, nor one that leaves
//! out supports.
#![tactic(auto)]

mod arrows;
mod key_set;
mod laws;
mod lookup;
mod marking;
mod reach;

pub use key_set::KeySet;
pub use laws::{kept_atoms_are_one_list, kept_atoms_exist, what_leads_to_roots_adds_nothing};
pub use lookup::{is_kept, is_kept_near};
pub use marking::{kept, kept_from};
