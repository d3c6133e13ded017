//! The header and the load commands of an image (`loader.h`).
//!
//! `commands` answers exactly the bytes of the header and of all commands behind it (`commands_of`, in
//! `specs/Commands.antt`): the segments with the headers of their sections, what the image is, where its parts stand,
//! how it starts, its libraries, search paths and signature. A field of 32 bits whose number is larger holds it modulo
//! 2^32, and a name of more than 16 bytes stands there as its first 16 (`specs/Names.antt`). `__LINKEDIT`, the last
//! segment, ends where the last part ends that is there (`specs/Segments.antt`). It wants a whole layout; its one
//! error is want of memory.
//!
//! `other_size` answers how many bytes the commands other than those of segments have (`specs/Sizes.antt`). It takes
//! no memory. `PartKinds` says which parts are there that are made at last, each of which brings its commands, and
//! `PartSizes` where these stand, how many symbols of each kind there are, the entry and the header's flags.
//!
//! The module `front` puts the header before the commands, `segments` and `sections` make those of segments, `others`
//! and `libraries` the others (`specs/Others.antt`), `strings` the strings behind commands, and `fields` narrow
//! fields.
//!
//! Its contract refuses a body that tells the entry as an address, one that writes a library that is both weak and
//! re-exported as re-exported, and one that counts a command's string without its padding.
#![tactic(auto)]

mod fields;
mod front;
mod libraries;
mod others;
mod parts;
mod sections;
mod segments;
mod sizes;
mod strings;

pub use front::commands;
pub use parts::{PartKinds, PartPlace, PartSizes};
pub use sizes::other_size;
