//! The race of names, without threads: each name has a word, and an event offers a word for one of the names.
//!
//! An `Offer` says which worker offers which word for which name, a name being known by its number. `replay` makes the
//! offers one after the other, and leaves the words of `run` (`specs/Run.antt`): each name has the least of the word
//! that it had and of those that are offered for it (`least_word`). It wants names whose words are there, and can't
//! fail.
//!
//! The laws, in the module `laws`, say why anyone may run the race, in any order. A name's word isn't above the one at
//! the start, nor above one that is offered for it, and is one of these (`each_word_is_the_least`). The order of the
//! events doesn't change the words (`order_is_free`), nor does who made them and how often: lists with the same offers
//! give the same words (`offers_alone_decide`). To run two lists one after the other is to run both (`runs_follow`),
//! and no word rises (`no_word_rises`).
//!
//! A body that lets the greatest or the last word stay isn't proved, nor one that lets the worker count, or gives two
//! names one word.
#![tactic(auto)]

ghost use Rattle.std.specs.Prelude.{◌≡◌, ◌<◌, length, All};
ghost use Rattle.race_core.specs.Run.{bids_of, run};

mod laws;

pub use laws::{
    each_word_is_the_least, no_word_rises, offers_alone_decide, order_is_free, runs_follow,
};

/// A worker's offer of a word for a name, which is known by its number.
#[derive(Clone, Copy, Debug, PartialEq, Eq, Hash)]
pub struct Offer {
    pub worker: u32,
    pub name: u32,
    pub word: u64,
}

/// Makes the offers: each word becomes the least of itself and of the words offered for its name.
#[tactic(auto, using(crate::proofs::Runs::replay_loop))]
pub fn replay(words: &mut [u64], events: &[Offer])
    requires { All (λ e. e.name < length words.old) events.now }
    ensures { words.new ≡ run words.old (bids_of events.now) }
{
    for event in events {
        let place = &mut words[event.name as usize];
        *place = (*place).min(event.word);
    }
}
