//! The files that the inputs of a link hold, objects and members of archives, and how one is read as the link loads
//! it.
//!
//! An `Input` is an object or an archive with its position on the command line, what messages call it, and its bytes;
//! a `Source` has the archive too that it is, if it is one. `all_ids` answers the files of all inputs: an object is
//! one, of number 0, and members count from 1, without the table of contents (ar(5); `specs/Files.antt`). `first_ids`
//! answers those that are loaded before any name asks for them: objects, and members of forced archives. `content_of`
//! answers what messages call a file, and its bytes, which it cuts out of an archive without a copy.
//!
//! `read_file` reads a file as the link loads it, whole, with its atoms and references, or answers exactly the first
//! fault of the definition (`read_as`): another kind of file, a rule that the object breaks or a feature that isn't
//! there. A `LoadFault` is a refusal or want of memory. `collect` joins what pieces of work brought, in their order, or
//! answers the fault of the first that has one (`specs/Collected.antt`).
//!
//! Inputs are to stand by rising positions (`AreInOrder`, in `specs/Sources.antt`). The contracts refuse a body that
//! takes an archive for a forced one only where it is the first input, one that reads the member behind, and one that
//! takes bitcode for a stub.
#![tactic(auto)]

mod all_files;
mod collecting;
mod contents;
mod fault;
mod input;
mod inputs;
mod reading;
mod sources;

pub use all_files::{all_ids, first_ids};
pub use collecting::collect;
pub use contents::{Held, content_of};
pub use fault::LoadFault;
pub use input::{Input, InputList};
pub use inputs::{Inputs, SourceList};
pub use reading::read_file;
pub use sources::Source;
