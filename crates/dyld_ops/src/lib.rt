//! The tables of fixups that `LC_DYLD_INFO_ONLY` tells of (`loader.h`: `dyld_info_command`, REBASE_OPCODE_, BIND_OPCODE_).
//!
//! `run_ops` reads the tables of an image, on all bytes: what they fix, by address, or the place of the first opcode at
//! fault. `specs/Opcodes.antt` says which opcode stands at a place, `specs/Machine.antt` what each does to a machine that has
//! a place, an ordinal, a name and an addend, and `specs/Runs.antt` what the machine comes to: `OpsAt` is a relation, from
//! one opcode to the next, until a table ends or an opcode is at fault. Numbers of more than ten bytes or of more than 64
//! bits aren't whole, and an ordinal has 32 bits. What stands in memory is read as `image_read` reads it.
//!
//! Fixups are kept in a map, so that an address that is fixed already is found as it comes. A name is copied once, where
//! its opcode stands, and each of its binds shares it.
//!
//! Its contract refuses a body that looks at no type of binds, one that fixes an address twice, one whose place stays half
//! a pointer behind, and one that takes one special ordinal for the other.
#![tactic(auto)]

mod decode;
mod fixup;
mod fixups;
mod info;
mod loader;
mod machine;
mod op;
mod run;
mod sleb;

pub use fixup::{OpAct, OpFixup, OpMap, OpsFault};
pub use run::run_ops;
