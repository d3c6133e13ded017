//! The structures of Mach-O files as records, each with its bytes in a file and its reading at a place
//! (`loader.h`, `nlist.h`, `reloc.h`), and the numbers that the headers name.
//!
//! `read` gives each field as the number or name at its place; `write` appends the structure's bytes, which read back
//! as the structure whatever follows, or leaves the output as it was. Each structure has its fields in a table, of
//! which its bytes are made, and its reading, with the place of each field. `fields` has the readers and writers of
//! single fields, by which `image_format` makes the structures that only images have.
//!
//! Headers are defined in `specs/Header.antt`, load commands in `specs/Command.antt`, `specs/Segment.antt`,
//! `specs/Dylib.antt` and `specs/Linkedit.antt`, and symbols and relocations in `specs/Symbol.antt` and
//! `specs/Relocation.antt`.
//!
//! Their contracts refuse a body that reads a count at the place of another field, one that writes an address for a
//! file's offset, one that takes the highest byte first, and one that empties the output where memory is refused.
#![tactic(auto)]

mod command;
mod dylib;
pub mod fields;
mod header;
mod linkedit;
pub mod loader;
pub mod nlist;
pub mod reloc;
mod relocation;
mod segment;
mod symbol;

pub use command::{BuildVersionCommand, DylinkerCommand, EntryPointCommand, UuidCommand};
pub use dylib::{DylibCommand, RpathCommand};
pub use header::MachHeader;
pub use linkedit::{DysymtabCommand, LinkeditDataCommand};
pub use relocation::RelocationInfo;
pub use segment::{SectionHeader, SegmentCommand};
pub use symbol::{Nlist, SymtabCommand};
