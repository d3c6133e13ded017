//! Tests of the reader of binary dynamic libraries, outside of its crate: the check of a crate's tests proves the crate
//! once more, and here it needn't.
#![tactic(auto)]

#[cfg(test)]
mod exports;
#[cfg(test)]
mod files;
#[cfg(test)]
mod heads;
