//! Tests of what lays images out and writes them, outside of their crates: the check of a crate's tests proves the
//! crate once more, and here it needn't.
//!
//! `slots`, `templates`, `kept` and `layouts` test the lists of slots, thread-local variables, sections and places,
//! `commands` headers and load commands, `fields` the fields of references, and `images` parts and atoms in images.
#![tactic(auto)]

#[cfg(test)]
mod commands;
#[cfg(test)]
mod fields;
#[cfg(test)]
mod given;
#[cfg(test)]
mod images;
#[cfg(test)]
mod kept;
#[cfg(test)]
mod layouts;
#[cfg(test)]
mod listed;
#[cfg(test)]
mod order;
#[cfg(test)]
mod slots;
#[cfg(test)]
mod templates;
