//! The libraries that an image is bound to (`loader.h`: two-level namespaces), and which of them provides a name.
//!
//! `closure` finds the libraries that a command line names with all that they re-export, breadth first. A library is
//! dropped where an earlier one has its install name; the others have the ordinals 1, 2, 3, and the 241st is one too
//! many. A re-exported one is looked for among the documents that are there, and then at the paths of
//! `reexport_paths`. The definition is a program over files (`bound_after`, in `specs/Closure.antt`), which `closure`
//! runs (`Closes`): files are asked for the paths that it tries and that the cache hasn't, each once, and the first one
//! without an answer decides. A `BindFault` is a file that couldn't be read, a refusal, or want of memory. The stubs are
//! to stand by rising positions (`are_named`).
//!
//! `Libraries` are documents with their links, the documents that each library reaches, and a table of the names that
//! they export. `offer_of` and `provider_of` answer the first library by ordinal that provides a name, in its own
//! document or in one that it re-exports, `None` exactly where none does (`specs/Provides.antt`). They take no memory.
//!
//! The laws say that a provider is the first library from whose document a path of links leads to one that exports the
//! name, that links are just the re-exports of the texts, that what is bound is one thing, and that finitely many files
//! have an end.
//!
//! Refused are a body that goes depth first through re-exports, one that tries a path again that wasn't there, and one
//! that answers a provider's ordinal by the number of its document.
#![tactic(auto)]

mod bind_fault;
mod binding;
mod by_name;
mod checks;
mod choosing;
mod closing;
mod fill;
mod growing;
mod index;
mod key;
mod laws;
mod libraries;
mod library;
mod named;
mod number_set;
mod paths;
mod provider;
mod reach;
mod sought;
mod stub_text;

pub use bind_fault::BindFault;
pub use binding::closure;
pub use checks::{are_libraries, are_links};
pub use laws::{
    a_finite_map_has_libraries, a_library_reaches_what_paths_lead_to, a_provider_is_the_first,
    links_are_all_reexports, what_is_bound_has_libraries, what_is_bound_is_one,
    what_is_bound_stays, what_is_known_was_answered, what_is_tried_goes_on,
    whole_libraries_are_one, without_a_provider_nothing_provides,
};
pub use libraries::Libraries;
pub use library::{Library, LibraryGraph, LibraryList, LinkList, NumberList};
pub use named::{NamedStub, StubFileList, are_named};
pub use paths::reexport_paths;
pub use provider::{Offer, Provider, offer_of, provider_of};
pub use stub_text::{read_reexported, read_stub_text};
