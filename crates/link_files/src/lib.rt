//! What loaded files link to: an image, or why there is none.
//!
//! `link_files` and, with the winners, `link_winners` are the line of steps from loaded files, whose names have numbers, to
//! their image, one a line in the order of refusals: the count of atoms, names with two strong definitions, the race of
//! words and the winners, where all symbols and the entry lead, the atoms that are kept, names that lead nowhere, unwind
//! entries that leave unwinding to `__eh_frame`, the count of personalities, the slots and stubs that are needed, the count
//! of imports, references that tell an address which another image has, and the image by its layout and its fields.
//! `IsLinked` (`specs/Linked.antt`) is the same line of definitions in the words of `link_steps`, after the limit of names,
//! and says nothing of their numbers; a step that only one answer meets, such as the atoms that are kept, is said by what
//! that answer is. `LinkCause` (`specs/Causes.antt`) lists in the same order why each step refuses.
//!
//! Files link to something (`a_link_exists`), and to one thing (`a_link_is_one`), which is a refusal exactly where its
//! cause stands and none before it does (`refusals_have_causes`); where it is an image none of the steps refused
//! (`images_went_through_all_steps`). All four come by one fact for each step. So refused are a body that links names
//! with two strong definitions, one that gives an entry in another image no stub, and one that doesn't ask for
//! wanted names.
#![tactic(auto)]

mod bound;
mod duplicates;
mod flags;
mod image;
mod keeping;
mod labels;
mod laws;
mod linking;
mod lost;
mod names;
mod racing;
mod resolved;
mod unwinding;

pub use laws::{a_link_exists, a_link_is_one, images_went_through_all_steps, refusals_have_causes};
pub use linking::link_files;
pub use names::wanted_names;
