//! What links mean to the loader: laws alone, each on a call that does nothing.
//!
//! The central definition is `IsLinkOf` (`specs/LinkOf.antt`): an image links files. Each atom that it keeps stands in
//! memory at its address, a multiple of its alignment, apart from all others and in the segment to which its section
//! goes, each byte as its object has it but for the fields of its references; these tell where the references lead, by
//! the names of all files; a program begins at its entry, or at a stub that leads there; and the loader fills in the
//! pointers of these atoms and the slots that they need, and nothing else (`loader.h`, `nlist.h`, `fixup-chains.h`). Its
//! section `__unwind_info` tells how the functions of these atoms are unwound, with their language-specific data and the
//! functions that handle their exceptions, and tells of no others (`specs/Unwinding.antt`, `compact_unwind_encoding.h`).
//! What whole files link to is such an image (`what_is_linked_is_a_link`), and so is what is planned for words, of the
//! files that they load, where what the files have are bytes (`a_plan_is_a_link`).
//!
//! Below these stand laws of what was made (`image_laws`). A plan is of an image to which the files link
//! (`specs/Plans.antt`, `specs/Images.antt`), and what is read is whole (`specs/Tellings.antt`).
//!
//! The prover refuses other definitions: a common symbol of its own size alone, offsets in the template that count from the
//! start of memory, an entry in another image at its own address, and functions that are unwound from the start of memory.
#![tactic(auto)]

mod links;

pub use links::{
    a_plan_is_a_link, a_plan_is_a_linked_image, what_is_linked_is_a_link,
    what_is_linked_is_an_image, what_is_planned_is_of_whole_objects,
};
