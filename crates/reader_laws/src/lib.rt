//! What the definitions of readers give beyond what their own crates say: laws alone, and no code.
//!
//! A law has the answer of a definition as its premise, as `object_of bytes ≡ Ok object`. So it holds of all that is read,
//! and nobody has to test it again. No symbol's name of an object holds a NUL (`names_hold_no_nul`), as a string ends
//! before its first one. No common symbol is aligned to more than a page (`commons_are_low`), as that is a feature that
//! the linker doesn't have. The name of a command's entry holds no NUL (`entries_hold_no_nul`), as a word with one is at
//! fault, and the default has none. The ordinal of a library that provides a name is 240 at most (`ordinals_are_few`).
//!
//! Chained fixups want this of the names and ordinals of their imports, and a layout of alignments. The words of the laws
//! stand in `specs/Facts.antt`.
#![tactic(auto)]

mod laws;

pub use laws::{commons_are_low, entries_hold_no_nul, names_hold_no_nul, ordinals_are_few};
