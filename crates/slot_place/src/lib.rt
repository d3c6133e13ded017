//! Where the slots and stubs of an image stand, and the bytes of its stubs (`loader.h`: S_NON_LAZY_SYMBOL_POINTERS,
//! S_SYMBOL_STUBS, S_THREAD_LOCAL_VARIABLE_POINTERS).
//!
//! The linker's own sections are those of `sect_place` that list no atoms. `own_section` finds that of a way in which
//! goals are needed, `slot_starts` tells where all three begin, and `slot_address` where a goal's slot or stub stands
//! (`specs/Places.antt`): one behind the other, in the order of `slot_plan`'s lists. `stub_bytes` answers the bytes of
//! `__stubs` (`specs/Stubs.antt`); its one error is want of memory, and the others take none.
//!
//! The laws say that a layout has such a section exactly where goals are needed so, with room for them
//! (`slots_have_sections`), that stubs and slots of an image of fewer than 2^32 bytes are within reach of each other
//! (`stubs_reach_slots`), and that a stub loads its slot and branches there (`stubs_load_their_slots`).
//!
//! A body that takes a section of atoms for the linker's own, one that gives a stub 8 bytes, one that counts a slot from
//! the stubs' start, and one whose stubs load the slot of another goal don't meet the contracts.
#![tactic(auto)]

mod laws;
mod places;
mod stubs;

pub use laws::{slots_have_sections, stubs_load_their_slots, stubs_reach_slots};
pub use places::{SlotStarts, own_section, slot_address, slot_starts};
pub use stubs::stub_bytes;
