//! What a link needs to know of the unwind entries of kept atoms (`mach-o/compact_unwind_encoding.h`).
//!
//! `kept_unwinds` answers the entries of kept atoms, file by file (`specs/Kept.antt`), from which all else here is told.
//! `first_dwarf` answers the first of them whose encoding leaves the unwinding to `__eh_frame`, by atom and place, or `None`
//! exactly where there is none (`specs/Dwarf.antt`). `personalities` answers the goals of the functions that handle
//! exceptions, each once, in the order of their slots (`specs/Personalities.antt`), `many_personalities` whether they are more
//! than an encoding can tell apart, and `personality_needs` the slot that each needs. `unwind_rows` answers the rows that
//! `unwind_out` writes, by where all of a `Scene` of `ref_meet` stands (`specs/Rows.antt`). The one error is want of memory.
//!
//! The laws say that slots which serve the listed personalities serve those of all entries (`slots_serve_all_personalities`),
//! and that all that stands before `__unwind_info` stands at one place, however many bytes that has
//! (`unwind_info_moves_nothing_before`, `specs/Twice.antt`): an image is placed twice, as its rows hang on addresses. The rows
//! of both placings have sections of one size (`unwind_info_has_one_size`), so that it fits where it stands; and with more
//! bytes no image is smaller (`more_unwind_info_makes_no_image_smaller`).
//!
//! A body that takes entries of atoms that aren't kept, one that answers the last of the entries in place of the first, one
//! that lets four personalities pass, and one whose rows end where they begin don't meet the contracts.
#![tactic(auto)]

mod dwarf;
mod goals;
mod handlers;
mod kept;
mod laws;
mod rows;

pub use dwarf::first_dwarf;
pub use handlers::{many_personalities, personalities, personality_needs};
pub use kept::{KeptUnwind, KeptUnwinds, kept_unwinds};
pub use laws::{
    more_unwind_info_makes_no_image_smaller, slots_serve_all_personalities,
    unwind_info_has_one_size, unwind_info_moves_nothing_before,
};
pub use rows::unwind_rows;
