//! The words of a command line (ld(1)), read to a command.
//!
//! `read_words` answers exactly the command of the definition for the words after the program's name, or the first
//! fault (`command_by`, in `specs/Command.antt`), by the `Rows` of the table of options that a form of the link has:
//! a word that these don't have is unknown. `read_all_words` is the same by all rows (`whole_command_of`). How many
//! workers the words name (`workers_by`) is no part of a command: so no definition of the link can look at it.
//!
//! The module `parts` tells what each word is: an option, one of its values, a path, or unknown. `faults` finds the
//! first rule of the first part that breaks one; a `UsageFault` has the number of the word, counted from 1, or 0 for a
//! rule on all words. `sorted` finds the parts of each field, and `build` and `lists` make the `Command` of them: a
//! field is the last of its items, all of them in order, or whether one is there. `CommandOption` is the table itself:
//! the name of an option, how many values it takes and which `CommandField` it gives. `read_list` reads a list of
//! names, one a line, and `version` a text X, X.Y or X.Y.Z.
//!
//! The laws say that items and words are the same thing written in two ways: the spellings of the items are the words
//! (`words_are_consumed`), and items that are well spelled are read back (`items_are_read_back`). A command is that of
//! its items, and a path alone gives every field its default.
//!
//! The contracts refuse a body that takes the first of two outputs, one that lets a word with a NUL pass, and one that
//! lets a name with a wildcard pass.
#![tactic(auto)]

mod build;
mod faults;
mod laws;
mod lists;
mod name_list;
mod numbers;
mod options;
mod parts;
mod read;
mod sorted;
mod usage_fault;
mod values;

pub use command_line::{Command, CommandInput, CommandInputList, InputForm, paths_for};
pub use laws::{
    a_command_is_that_of_its_items, a_path_alone_has_the_defaults, items_are_read_back,
    words_are_consumed,
};
pub use name_list::read_list;
pub use numbers::version;
pub use options::{CommandField, CommandOption};
pub use parts::Rows;
pub use read::{CommandLine, read_all_words, read_words};
pub use usage_fault::UsageFault;
