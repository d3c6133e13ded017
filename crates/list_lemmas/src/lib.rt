//! Lemmas of more than one crate, in `proofs/`: on the members of a list, on keys that are inserted each once, on a
//! list from a place on, on lists that rise in an order, and on ties of orders.
//!
//! The crate has no code, no definition and no contract: the lemmas are used by the proofs of other crates, and what
//! they say is said in the words of the standard library. `Members` has what holds of all members of a list, and what
//! searches find among them; `Inserted` the members of a list into which keys are inserted; `Places` a list from a
//! place on.
//!
//! `Rising` is on lists that rise in a total order: their elements, and that their members make them up, so that two
//! lists with the same members are one. `Ties` is on orders that compare one thing after another: what ties, ties in
//! each, and numbers that tie are the same.
#![tactic(auto)]
