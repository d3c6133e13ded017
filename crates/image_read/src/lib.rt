//! Reads images as the loader does (`loader.h`, `mach-o/fixup-chains.h`), on all bytes and without memory.
//!
//! This crate reads images as the loader does, from the public headers alone: nothing of it knows how this linker
//! writes. Each call answers on all bytes, without memory, exactly what its definition gives. `mapped` is the byte at
//! an address, by the first segment that holds it. `fixup_at` is the rebase or bind at an address on the chain of its
//! page, with imports of formats 1 and 3, plain elsewhere, or broken; hostile chains end, since each pointer is
//! behind the one before. The walk along a page goes through the places of its chain and no others, and where it
//! finds none of them broken each has a whole pointer (`a_walk_follows_the_chain`); an image without the command of
//! fixups is plain everywhere (`without_fixups_all_is_plain`); and two images that differ only outside memory and the
//! tables of fixups are read alike (`nothing_else_is_read`). `import_name` is an import's name. `denote` is what a
//! field tells by its kind: an address, an import with an addend, a difference, an offset in a page, or that it can't
//! be told. `Denotes` (`specs/Denotes.antt`) joins these readings to the goals of references, a row for each kind: no
//! call answers it, and in a small image that is written out by hand each row holds (`fields_tell_their_goals`).
//!
//! Its contracts refuse a reading that finds no byte where a segment is longer than its part of the file, one that
//! lets a chain run on into the next page, and one that takes special ordinals for positive numbers.
#![tactic(auto)]

mod commands;
mod fixups;
mod imports;
mod laws;
mod meaning;
mod memory;
mod window;

pub use commands::{cmd, cmdsize, fits, ncmds};
pub use fixups::{FixupRead, fixup_at};
pub use imports::import_name;
pub use laws::{
    a_walk_follows_the_chain, fields_tell_their_goals, nothing_else_is_read,
    without_fixups_all_is_plain,
};
pub use meaning::{Meaning, denote};
pub use memory::mapped;
