//! What makes the words those of a race. Each function is a law, which its contract states, and does nothing.
ghost use Rattle.std.specs.Prelude.{◌≡◌, ℕ, ◌<◌, ◌≤◌, ◌++◌, List, length, slice_index, Contains};
ghost use Rattle.std.specs.List.Sorted.{IsPermutation};
ghost use Rattle.race_core.specs.declared.Offer.{Offer};
ghost use Rattle.race_core.specs.Run.{bids_of, run, IsLeast};

/// A name's word isn't above the one at the start, nor above one that is offered for the name, and it is one of these.
#[tactic(auto, using(crate::proofs::Runs::word_of_run))]
pub fn each_word_is_the_least()
    ensures { (start : List ℕ) (bids : List (ℕ × ℕ)) (name : ℕ) → name < length start
        → IsLeast (slice_index start name) (λ word. Contains bids (name, word)) (slice_index (run start bids) name) }
{}

/// The order of the events doesn't change the words.
#[tactic(auto, using(crate::proofs::Runs::orders))]
pub fn order_is_free()
    ensures { (start : List ℕ) (events others : List Offer) → IsPermutation events others → run start (bids_of events) ≡ run start (bids_of others) }
{}

/// Lists with the same offers, in any order and each any number of times, give the same words.
#[tactic(auto, using(crate::proofs::Runs::run_of_same))]
pub fn offers_alone_decide()
    ensures { (start : List ℕ) (bids others : List (ℕ × ℕ)) → ((bid : ℕ × ℕ) → Contains bids bid → Contains others bid)
        → ((bid : ℕ × ℕ) → Contains others bid → Contains bids bid) → run start bids ≡ run start others }
{}

/// To run the events of two lists one after the other is to run all of them.
#[tactic(auto, using(crate::proofs::Runs::runs))]
pub fn runs_follow()
    ensures { (start : List ℕ) (first second : List Offer) → run (run start (bids_of first)) (bids_of second) ≡ run start (bids_of (first ++ second)) }
{}

/// No word rises.
#[tactic(auto, using(crate::proofs::Runs::falls))]
pub fn no_word_rises()
    ensures { (start : List ℕ) (bids : List (ℕ × ℕ)) (name : ℕ) → slice_index (run start bids) name ≤ slice_index start name }
{}
