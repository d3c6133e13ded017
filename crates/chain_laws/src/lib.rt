//! What the loader finds of the chains that an image carries (`fixup-chains.h`), by the readings of `image_read` alone.
//!
//! An image carries chains (`IsCarried`) where its segments stand as the layout has them, its LC_DYLD_CHAINED_FIXUPS
//! names the place at which the chains' part stands, and each of their words is in memory at its address. Then the
//! loader finds at each pointer's address the pointer (`IsFound`): a rebase to the offset of what it leads to, or a
//! bind of its name with its ordinal and addend. At all other addresses it finds nothing, and nothing is broken.
//!
//! So no distance skips a pointer, no chain runs on into the next page, and each import has its own name. The law is
//! `the_loader_finds_each_pointer`, on a call that does nothing, and the definition stands in `specs/Carried.antt`.
//! The crate has no code beside it. `fixup_chain` makes the chains.
#![tactic(auto)]

mod laws;

pub use laws::the_loader_finds_each_pointer;
