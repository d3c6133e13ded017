//! Tests of an image's symbols and map, outside of the crate: the check of a crate's tests proves the crate once more, and
//! here it needn't.
//!
//! `given` puts files, layouts and goals together by tables, `cases` has images with what is written of them, and `writing`
//! has it written.
#![tactic(auto)]

#[cfg(test)]
mod cases;
#[cfg(test)]
mod given;
#[cfg(test)]
mod writing;
