//! What a command line asks for (ld(1)), and the paths at which its inputs are looked for.
//!
//! `Command` is what the link reads of its words: `mo_cmd` makes it of them, and no layer that only reads it stands on
//! that parser. `paths_for` lists the paths of an input by name: in each directory that the command gives, under its
//! root, then in the default ones. The definition stands in `specs/Paths.antt` (`stem_of` is the file's name without
//! its ending): a directory that the command gives by an absolute path is taken under the root first and then by
//! itself, and in each directory the text of a stub library comes first, with the ending `.tbd`. The one error is want
//! of memory.
//!
//! The contract refuses a body that looks in the default directories themselves where the command gives a root.
#![tactic(auto)]

mod command;
mod paths;

pub use command::{Command, CommandInput, CommandInputList, InputForm};
pub use paths::paths_for;
