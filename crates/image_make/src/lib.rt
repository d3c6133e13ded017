//! The image of the atoms that are kept: its layout, its header with the load commands, its atoms with their fields, its
//! slots and stubs, `__unwind_info`, and the chains of the pointers that the loader fills in.
//!
//! `make_image` answers the image of what `ImageInputs` has, or why there is none (`IsMade`, in `specs/Made.antt`): the
//! parts of `specs/Parts.antt` at their places, and each atom with bytes at its place with the fields of its references. It
//! is written by as many workers as the command says, in one allocation. A `MakeFault` is that what stands before
//! `__LINKEDIT`, or else the whole image, is too large, that a value is out of range, the first one (`specs/Faults.antt`), or
//! want of memory. Kept atoms are to rise by their keys, files are to be whole, alignments at most 2^14, imports fewer than
//! 2^24, and what references lead to within 2^63 bytes of the start of its atom (`specs/Near.antt`). Unwind entries are to be
//! those of kept atoms, with at most three personalities (`specs/Frames.antt`). Where there are some, everything is placed
//! twice: the bytes of `__unwind_info` tell where everything stands, and as many bytes as the first placing's are placed.
//!
//! `kept_atoms` answers the atoms whose keys are kept, file by file, a literal with the greatest alignment of those for
//! which it stands, and those of common symbols (`specs/Atoms.antt`). `work_of` answers those with bytes in the file, in the
//! order of the image, with their places (`specs/Rows.antt`). What references mean is said in `ref_meet`, what the words of
//! pointers are in `fixup_chain`, and where slots and stubs stand in `slot_place`.
//!
//! The module `laying` makes the layout, `frames` the bytes of `__unwind_info`, `front` the header, `parts` the blank image, and
//! `filling` puts the atoms into it; `unfit` finds the first value that is out of range; `making` is the line of these. The laws
//! say that whole files have an image or a fault (`an_image_or_a_fault_exists`), as what is laid out stands apart
//! (`what_is_laid_is_work`). What images mean to the loader is said in `image_laws`.
//!
//! Their contracts refuse a body that writes thread-local zeros, one that gives a slot 4 bytes, one that leaves out the
//! atoms of common symbols, one that tells of the later of two values, and one that gives `__unwind_info` a byte too many.
#![tactic(auto)]

mod commons;
mod fault;
mod filling;
mod flags;
mod frames;
mod front;
mod kept;
mod laws;
mod laying;
mod making;
mod parts;
mod rows;
mod unfit;

pub use fault::MakeFault;
pub use kept::{KeptAtom, KeptList, kept_atoms};
pub use laws::{an_image_or_a_fault_exists, what_is_laid_is_work};
pub use making::{ImageInputs, make_image};
pub use rows::work_of;
