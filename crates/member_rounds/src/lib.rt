//! The files that a link loads: objects, and round by round the members of archives for which names ask.
//!
//! `load` answers exactly the files of the definition, by rising id, or the first refusal (`loaded_of`, in
//! `specs/Rounds.antt`). In the first round come the objects, which were read before, and the members of forced
//! archives (ld(1): `-force_load`, `-all_load`); in each further one all members at once for which the names ask that
//! are wanted so far and have no candidate. The rounds end when one brings no file. Each file is read once, by one of
//! so many workers, whose number doesn't change the answer. Refusals come for the first round that has one: the fault
//! of the least of its files that has one, and then that of 2^24 names or more. The other error is want of memory.
//!
//! With the files come all names of the link, each numbered once in the round in which it comes first (`AreNames`), and
//! the numbers of the files' symbols. Where an archive offers anything, each round's files join a race of the names,
//! whose start is the last round's words (`words_after`): a name without a word has no candidate, and asks.
//!
//! `asked_by` answers the member for which a name asks: the least-numbered one that the table of the first archive
//! with the name gives to it; `None` exactly where no archive has it, where a library that stands before the archive
//! provides it, and for names of the image's header. It takes no memory, and finds the name by an `OfferIndex`.
//!
//! The laws say that rounds grow and end (`rounds_end`), that what is loaded was asked for, and that it asks for nothing
//! more (`what_is_loaded_asks_for_nothing_more`). The contracts refuse a body that loads in a later round a member that
//! is loaded already, one that asks with the words of the round before the last, one that lets a library behind an
//! archive provide a name in the archive's stead, and one that tells the fault of a later file.
#![tactic(auto)]

mod asked;
mod asking;
mod files_by_name;
mod first_reading;
mod id_set;
mod in_order;
mod laws;
mod loading;
mod naming;
mod offer_index;
mod round_race;
mod round_reading;
mod round_rules;
mod taking;

pub use asked::asked_by;
pub use laws::{
    a_library_before_takes_the_name, each_file_was_asked_for, headers_ask_nobody,
    nothing_more_is_asked_for, rounds_end, rounds_grow, what_is_loaded_asks_for_nothing_more,
    what_is_loaded_could_be_read, what_is_loaded_rises, what_is_loaded_was_asked_for,
};
pub use loading::load;
pub use offer_index::OfferIndex;
