//! Tests of the readers of objects and archives, outside of their crates: the check of a crate's tests proves the crate
//! once more, and here it needn't.
#![tactic(auto)]

#[cfg(test)]
mod archives;
#[cfg(test)]
mod atoms;
#[cfg(test)]
mod edits;
#[cfg(test)]
mod objects;
#[cfg(test)]
mod references;
#[cfg(test)]
mod strings;
