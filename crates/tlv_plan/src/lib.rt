//! The template of an image's thread-local variables (`loader.h`: S_THREAD_LOCAL_REGULAR, S_THREAD_LOCAL_ZEROFILL):
//! what the loader copies for each thread, and the offset of each variable from its start.
//!
//! `template` puts the kept atoms of the thread-local sections one behind the other, sections and atoms in the order
//! of their lists, each at the least place that its alignment allows. A `Template` has each atom's offset, in the
//! order of the atoms, and its alignment and size, all exactly those of the definition (`specs/Template.antt`).
//! `template` wants atoms by rising key, alignments of at most 2^14, and a template of fewer than 2^64 bytes, which
//! `fits` tests; its one error is want of memory. `offset_of` answers an atom's offset, or `None` exactly where the
//! template doesn't have the atom; neither it nor `fits` takes memory. `greatest_align` and `is_thread_local` tell of
//! sections alone.
//!
//! The module `place` walks through sections and atoms, `plan` puts their offsets in order, and `room` tells where the
//! template would end. The laws say that each offset is a multiple of its atom's alignment, that atoms stand apart and
//! within the template (`atoms_stand_apart`), that places are least (`places_are_least`), and that an atom has one
//! offset where the sections list none twice (`offsets_are_one`).
//!
//! A body that counts each section's offsets from 0, that leaves alignments out, or that doesn't count the last atom's
//! size isn't proved.
#![tactic(auto)]

mod laws;
mod lookup;
mod parts;
mod place;
mod plan;
mod room;

pub use laws::{
    atoms_stand_apart, offsets_are_aligned, offsets_are_one, places_are_least,
    the_greatest_alignment_counts,
};
pub use lookup::offset_of;
pub use parts::{Offset, OffsetList, Template};
pub use plan::{greatest_align, is_thread_local, template};
pub use room::fits;
