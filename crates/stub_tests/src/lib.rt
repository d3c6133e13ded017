//! Tests of the readers of stub libraries and of the libraries that a link is bound to, outside of their crates: the
//! check of a crate's tests proves the crate once more, and here it needn't.
#![tactic(auto)]

#[cfg(test)]
mod closures;
#[cfg(test)]
mod libraries;
#[cfg(test)]
mod stubs;
#[cfg(test)]
mod texts;
