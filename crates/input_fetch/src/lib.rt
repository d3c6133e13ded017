//! The files of the inputs of a command line, fetched from outside.
//!
//! `fetch_inputs` asks for the paths of each input in turn, up to the first that is there: one `Content` for each input,
//! in their order, with the path under which it was found and its bytes, or the first 2^30 of them. A path that was asked
//! for before, for another input say, isn't asked for again: what was answered is kept in a `FileCache`. The first input
//! that has no file ends it (`Missing`, with the first of its paths), and so does a path that couldn't be read
//! (`ReadFault`); a `FetchStop` may also be want of memory. It wants at most 2^32 inputs. The paths are those of
//! `paths_for` of `command_line`.
//!
//! What is given is a program over what stands under each path (`contents_of`, in `specs/Contents.antt`), and the call
//! runs it (`Runs` of `file_cache`): the paths that are asked for are those that the program tries, and the first of them
//! where memory ran out.
//!
//! The laws say the same of files that can all be read (`specs/There.antt`): contents are those of the first path that is
//! there (`contents_are_the_first_that_are_there`), a path is missing just where it is the first of the first input that
//! has none there, and an input always has a path (`an_input_has_a_path`).
//!
//! The contract refuses a body that ends at the first path that isn't there, one that asks for a path after one that
//! is there, and one that tells a read fault as a missing file.
#![tactic(auto)]

mod content;
mod fetch;
mod laws;
mod stop;

pub use content::{Content, ContentList};
pub use fetch::fetch_inputs;
pub use laws::{
    an_input_has_a_path, contents_are_the_first_that_are_there, files_that_are_told_can_be_read,
    the_first_missing_input_ends_all,
};
pub use stop::FetchStop;
