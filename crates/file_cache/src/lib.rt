//! Files that are asked for each path at most once.
//!
//! `ask` gives what stands under a path: the bytes of its file, or that no file has the path. What was answered is kept
//! (`FileCache`), so that a path for which the files were asked before is answered again without them; the bytes are
//! shared, and no copy is made.
//!
//! A definition that reads files is a *program* (`Program`, `specs/Program.antt`): by what stands under each path it has
//! the paths that it tries, in their order, and its end. Programs are put together by `>>=`, so that a line of a
//! definition is a line of the code. What a call did, which is such a program, is said by `Runs`
//! (`specs/Runs.antt`): the files were asked for the paths that the program tries and that weren't kept, each once; its
//! result is the program's end by whatever look-up gives the same answers; and where memory ran out, they were asked for
//! none that the program doesn't try. Its lemmas (`proofs/RunLemmas.antt`) put calls together as `>>=` does programs.
//!
//! Laws: a program that was run to its end is one over the files themselves where they tell what they hold and none
//! failed (`answers_are_those_of_the_files`), no path is asked for twice (`each_path_is_asked_once`), and so what was
//! answered is a finite map from paths to files (`file_told`), over which a program can be run
//! (`answers_are_what_is_told`).
//!
//! A body that asks for a kept path again, that keeps what it wasn't answered, or that answers for another path is
//! refused.
#![tactic(auto)]

mod asking;
mod cache;
mod laws;

pub use crate::asking::{AskFault, ask};
pub use crate::cache::FileCache;
pub use crate::laws::{
    answers_are_those_of_the_files, answers_are_what_is_told, each_path_is_asked_once,
};
