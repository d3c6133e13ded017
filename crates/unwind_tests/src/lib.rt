//! Tests of the reader of unwind entries, outside of its crate: the check of a crate's tests proves the crate once more,
//! and here it needn't.
#![tactic(auto)]

#[cfg(test)]
mod clang;
#[cfg(test)]
mod clang_objects;
#[cfg(test)]
mod entries;
#[cfg(test)]
mod made;
#[cfg(test)]
mod many;
