//! From loaded files to the winner of each name: which candidate of a name stands for it in the image.
//!
//! A candidate is a symbol of a file that may stand for its name; its word (`candidate_word`) has its strength first,
//! then its file, then its place among the file's symbols. `least_words` answers the least word of each name's
//! candidates, by the name's number. `winners` makes a `SymbolTable` by these words (`specs/SymbolTable.antt`): of
//! each name that has a candidate the one with the least word, and what stands for each literal. A `Winner` has its
//! atom and offset, of a common symbol the greatest size and alignment of its name, and whether other images see it
//! (`specs/Winners.antt`; ld(1): `-exported_symbols_list`). The table finds a name's winner by the name or its number,
//! without memory, and `None` exactly where the name has none.
//!
//! `duplicate` answers the least name with two strong definitions and the files of its first two, `None` exactly where
//! no name has two (`specs/Duplicates.antt`). `place_of` answers in which atom a file's symbol stands, and at which
//! offset (`specs/Places.antt`). The module `found` gathers candidates, `best` has what is held of each name, and
//! `exports` tells what other images see. Files are to be whole; the one error is want of memory.
//!
//! The laws say that all files have a symbol table and a least duplicate or none (`a_symbol_table_exists`,
//! `a_least_duplicate_exists`), and just one of each, that the stronger and then the earlier candidate wins, that a
//! duplicate is told by its two least words (`duplicates_have_the_least_words`), and that the order of reading is nothing.
//! A body that lets any candidate win, one that compares a word without its highest bits, one that tells a duplicate by its
//! greatest words, and one that passes over two definitions in one file don't meet the contracts.
#![tactic(auto)]

mod best;
mod choosing;
mod chosen;
mod duplicates;
mod exports;
mod firsts;
mod found;
mod front;
mod keyed;
mod laws;
mod name_index;
mod name_set;
mod places;
mod symbol_table;
mod weak;
mod winner;
mod winning;
mod words;

pub use duplicates::duplicate;
pub use laws::{
    a_least_duplicate_exists, a_name_has_one_winner, a_symbol_table_exists,
    candidates_have_numbers, duplicates_are_one, duplicates_have_the_least_words, the_earlier_wins,
    the_order_of_reading_is_nothing, the_stronger_wins, winners_are_one_list,
};
pub use places::{Place, place_of};
pub use symbol_table::SymbolTable;
pub use winner::{Winner, WinnerList};
pub use winning::winners;
pub use words::least_words;
