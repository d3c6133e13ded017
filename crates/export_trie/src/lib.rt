//! The export trie of a Mach-O image: written for a list of exports, and searched for a name.
//!
//! This crate writes the trie of a list of exports, in which the loader looks names up, and searches any bytes as a
//! trie. `find` is the walk of the definition, on all bytes and without memory. `write_trie` gives the one trie:
//! nodes in preorder, edges as long as they can be, each node at the least place that agrees with the sizes of those
//! before. In it `find` gives each export its flags and address, and every other name is absent.
//!
//! The definition stands in `specs/Trie.antt`, the walk in `specs/Lookup.antt`, and the places of nodes in
//! `specs/Sizes.antt`. The module `order` puts exports in the order of their names, `nodes` makes the nodes, `places`
//! gives each its place, and `spell` appends their bytes.
//!
//! The contracts refuse a walk that takes a name's beginning for the name, one that follows an edge back to a node
//! before, and a writer that drops flags or counts each child's place as one byte.
#![tactic(auto)]

mod export;
mod family;
mod lookup;
mod nodes;
mod order;
mod places;
mod spell;
mod write;

pub use export::{ExportAddress, ExportAddresses};
pub use lookup::{Found, find};
pub use write::write_trie;
