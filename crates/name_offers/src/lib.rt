//! What files offer in the race of names: the word of each candidate, for its name's number.
//!
//! `race_words` runs a whole race: it answers the words of names after a race of so many workers, exactly those of
//! `run` of `race_core` over the offers of all candidates of the files (`bids_of`, in `specs/Offers.antt`). So each is
//! the least of the word at the start and of those of the name's candidates, whichever worker offers them. No workers
//! count as one. `words_after` answers the same for further files of a link, whose names have words already: it makes
//! few offers in place, without a race.
//!
//! `offer_all` is a race's middle: racers, one for each worker, offer the word of each candidate, one job a file. Their
//! offers together grew by those of all candidates, once each (`GrewBy`), and each racer has the race and the passes
//! that it had. On want of memory, which is the one error of these calls, the racers are given up. Files are to be
//! whole, names are to have all candidates' names, and numbers are to be those of the files' symbols (`numbers_of`);
//! there are at least as many words as names.
//!
//! The module `offering` has the workers' jobs, `racing` begins and ends the race, and `plain` makes offers without one.
//! The law `words_are_the_least` says that words that are the least of the candidates of some files are, after the offers
//! of further files, the least of the candidates of all.
//!
//! A body that offers a word only where it is less than what the race then holds isn't proved, nor one that begins the
//! race without the words that the names had, nor one that leaves out what one racer offered.
#![tactic(auto)]

mod laws;
mod offering;
mod plain;
mod racing;

pub use laws::words_are_the_least;
pub use offering::offer_all;
pub use racing::{race_words, words_after};
