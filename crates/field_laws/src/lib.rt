//! What the fields of an image tell the loader: each row of the table `Denotes` of `image_read` as a law of its own, on a
//! call that does nothing. The crate has no code beside these.
//!
//! A field holds what a reference met (`Holds`, `specs/Memory.antt`): its number stands in memory, and tells the value that was
//! met with the addend. So it does in patched bytes that stand in memory. What was met is one of these, and then the field
//! tells the reference's goal (`specs/Fields.antt`, `specs/Pointers.antt`):
//!
//! - the goal's own address (`MetOwn`), for a branch, an instruction or a difference;
//! - a slot whose fixup leads to the goal (`MetSlot`), for an instruction or a distance;
//! - an address from which a branch reaches the goal (`MetWay`): a stub of the goal (`MetStub`), or an island. Bytes that
//!   `slot_place` has for a stub are a stub where they stand in memory, and so is an island (`GoesBy`);
//! - a pointer whose fixup leads to the goal (`IsPointerTo`), or to a slot of the goal (`IsPointerToSlot`); the field then
//!   holds the word of a chain (`MetWord`);
//! - the goal's offset in the template of thread-local variables (`MetOffset`), which no fixup touches.
//!
//! The fixup that the loader finds at a pointer, as `chain_laws` has it, leads to the pointer's goal, by the addresses at which
//! a layout has its atoms.
//!
//! The prover refuses other definitions: a slot to which the addend of its reference is added, a branch by a stub to a goal
//! plus an addend, a rebase that counts from anything but where `__TEXT` begins, and an offset in the template that the
//! loader rebases.
#![tactic(auto)]

mod laws;

pub use laws::{
    branches_are_told, fields_in_memory_hold_what_was_met, found_pointers_are_held,
    islands_reach_their_goals, own_addresses_are_told, pointers_are_told,
    pointers_have_their_words, rebases_have_36_bits, slots_are_told, stubs_reach_their_goals,
    template_offsets_are_told,
};
