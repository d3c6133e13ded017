//! Tests of the files of inputs, outside of the crates: the check of a crate's tests proves the crate once more, and
//! here it needn't.
#![tactic(auto)]

#[cfg(test)]
mod asks;
#[cfg(test)]
mod fetches;
