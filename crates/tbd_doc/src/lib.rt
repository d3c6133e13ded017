//! What a stub library says: the documents of a TBD text, version 4, that hold for arm64 on macOS.
//!
//! `read_stubs` answers exactly the stub library that documents are, or the fault of the first document that has one
//! (`stub_file_of`, in `specs/Stubs.antt`). It wants documents that are walks through trees, fewer than 2^32. A
//! document other than the first that isn't for this target is passed over. A `StubFault` is that a document isn't of
//! version 4, that the first one isn't for the target, or that one, whose number it has, lacks an install name or has
//! a value of another form than its key's; or want of memory.
//!
//! A `Stub` is one document: its install name, its versions, the install names that it re-exports, in the order of the
//! text, and its exports, in the order of their names, each once (`IsWhole`). An `Export` is weak just where its name
//! is among the weak ones (`exports_are_those_of_names`).
//!
//! The module `nodes` finds items and values by the places of their first events in the walk; `forms` tests the form
//! of each key's value (`specs/Forms.antt`), `names` gathers the names of items, and `exports` puts them in order.
//! Names share the text's bytes.
//!
//! Refused are a body that counts items of other targets, one that takes the linker's directives (`$ld$`) for names,
//! and one that makes weak exports strong.
#![tactic(auto)]

mod exports;
mod fault;
mod forms;
mod laws;
mod names;
mod nodes;
mod read;
mod stub;
mod texts;

pub use fault::StubFault;
pub use laws::{a_walk_is_read_as_its_tree, exports_are_those_of_names, what_is_read_is_whole};
pub use read::read_stubs;
pub use stub::{Export, ExportList, Stub, StubFile, StubList};
