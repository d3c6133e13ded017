//! Tests of the crates that make the parts of an image or an input, outside of their crates: the check of a crate's
//! tests proves the crate once more, and here it needn't.
#![tactic(auto)]

#[cfg(test)]
mod chains;
#[cfg(test)]
mod link_gen_tests;
#[cfg(test)]
mod signatures;
#[cfg(test)]
mod unwinding;
