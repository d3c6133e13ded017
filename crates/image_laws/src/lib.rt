//! What images that were made mean to the loader and to what unwinds their functions (`loader.h`, `fixup-chains.h`,
//! `compact_unwind_encoding.h`): laws alone, each on a call that does nothing.
//!
//! An image that was made has a layout, pointers, and their chains (`Imaged`, in `specs/Means.antt`). Once it is loaded, each
//! section stands at its address with the bytes of the file, or zeros where it has none there (segment_command_64), and each
//! kept atom with its patched bytes. Places in kept atoms and the header are goals. The loader finds each pointer, of atoms and
//! of slots, and nothing else; each leads to its goal, a stub leads there through its slot, and the field of each reference
//! that the image serves tells its goal (`specs/References.antt`). A program begins where its entry is reached
//! (`specs/Entry.antt`). The section `__unwind_info` tells of the functions of kept unwind entries and of no other place
//! (`specs/Unwinding.antt`). What links mean stands in `loader_laws`.
//!
//! What the laws want of a link stands in `specs/References.antt`: pointers can be filled in (`AreFillable`), each stub has the
//! slot that it loads (`StubsHaveSlots`), and the image has what a reference tells (`IsServed`); and what they want of unwind
//! entries in `specs/Unwinding.antt` (`AreUnwindable`, `IsEntryServed`).
//!
//! The proofs go from the file to what it means: where the parts stand in it (`proofs/Layouts.antt`, `Blank.antt`, `Begun.antt`),
//! how the loader goes through its load commands (`Walk.antt`, `Sought.antt`, `Commanding.antt`), what is in memory
//! (`Mapping.antt`, `Loading.antt`, `OwnBytes.antt`), its pointers and their chains (`Pointing.antt`, `Overlaps.antt`,
//! `Carrying.antt`), its stubs (`Stubbing.antt`), its references (`Telling.antt`), and its unwind entries (`Unwinding.antt`,
//! `Entries.antt`).
//!
//! The prover refuses other definitions: a field that stands at its atom's start, an entry that isn't counted from where
//! `__TEXT` begins, sections without bytes in the file that aren't zeros, and stubs whose goals have no slots.
#![tactic(auto)]

mod laws;

pub use laws::{
    atoms_are_in_memory, images_have_a_layout, kept_atoms_have_goals, no_kept_atom_is_left_out,
    programs_begin_at_their_entry, references_tell_their_goals, sections_are_in_memory,
    stubs_lead_to_their_goals, the_loader_fills_in_pointers, unwind_info_tells_of_kept_entries,
};
