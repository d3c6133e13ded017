//! Lemmas on lists in order, in `proofs/`: each list has its elements in order.
//!
//! The crate has no code, no definition and no contract: the lemmas are used by the proofs of other crates, where a
//! law says that there is a list by rising key, as the atoms that an image keeps or the winners of all names.
//! `Sorting` has a list's elements in a total order, as often as it has them, and each of them once.
#![tactic(auto)]
