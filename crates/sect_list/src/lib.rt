//! Which sections with atoms an image has, and in which order (`loader.h`: section_64).
//!
//! `out_sections` gathers the kept atoms by where their own sections go, a common symbol's in `__common`, and puts the
//! sections in order: by segment; in it those with bytes first, thread-local data last of them, then thread-local
//! zerofill and other zerofill; and of thread-local sections one with their greatest alignment first. Which sections
//! these are, and what each lists, is said in `specs/OutSections.antt`; the one error is want of memory.
//!
//! The laws say that each kept atom is listed (`each_kept_atom_is_listed`), and none twice
//! (`no_atom_is_listed_twice`). The contract refuses a body that leaves a section's atoms in the segment that the
//! object names, where constants go to another one.
#![tactic(auto)]

mod gather;
mod home;
mod laws;
mod lead;
mod listing;
mod order;
mod to;

pub use laws::{each_kept_atom_is_listed, no_atom_is_listed_twice};
pub use listing::out_sections;
