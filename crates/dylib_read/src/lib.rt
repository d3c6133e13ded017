//! Reads binary dynamic libraries (`loader.h`): what their load commands say of them, and the exports of their tries.
//!
//! `read_dylib` answers what the definition has (`specs/Dylib.antt`), for all bytes: a library, or its first fault.
//!
//! `read_head` is for the commands (`specs/Head.antt`): the install name and the versions of the first LC_ID_DYLIB, the
//! names of the LC_REEXPORT_DYLIB in their order, and where the trie of the exports lies, by the first
//! LC_DYLD_EXPORTS_TRIE or else the first LC_DYLD_INFO_ONLY or LC_DYLD_INFO. Or it tells the first of these that stands:
//! the header is cut short, the file is for another machine, it is of another type, a command passes the others' end,
//! none names the library, a command that is read is too small or has no name, at the least such one. The rules of header
//! and commands stand in `specs/Commands.antt`. It takes time n for n bytes, and names are parts of the file.
//!
//! `read_trie` is for the exports (`specs/Trie.antt`): the names whose walks end at them, each once, in byte order, with
//! the marks of weak ones. A walk goes from the root along the first edge whose label begins what is left of the name,
//! until nothing is left. Names that begin with `$ld$` are no symbols. A trie is broken where a walk comes to no node or
//! goes to one that isn't behind the last, and where two edges of nodes that are walked lead to one place.
//!
//! As walks go forward, one pass over the places meets each node once, after the one that leads to it (`trie_walk`). Where
//! the label of an edge begins that of an earlier one, what is left of the longer label is noted at the edge's node as a
//! bound: no walk comes there with a rest that begins so. Then names are put together from the nodes back (`trie_name`),
//! and exports sorted. The tries of linkers have no bounds; there it takes time n log n for n bytes of trie and names.
//!
//! Refused are a body that takes the place of other opcodes for that of the exports, one that exchanges the versions, one
//! that takes a second edge to a node, and one that marks exports as weak by another flag.
#![tactic(auto)]

mod commands;
mod dylib;
mod fault;
mod head;
mod roles;
mod trie;
mod trie_fault;
mod trie_name;
mod trie_node;
mod trie_walk;

pub use dylib::{Dylib, read_dylib};
pub use fault::{DylibFault, DylibRule};
pub use head::{DylibHead, TrieRange, read_head};
pub use trie::{DylibExport, DylibExports, read_trie};
pub use trie_fault::TrieFault;
