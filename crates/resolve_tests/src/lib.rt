//! Tests of what loads files and resolves their names, outside of the crates: the check of a crate's tests proves the
//! crate once more, and here it needn't.
//!
//! `inputs` tests what inputs are, `loading` the rounds and the race of names, `numbers` the numbers of names,
//! `resolving` duplicates, places and literals, `goals` winners and where names lead, and `referring` what is lost.
#![tactic(auto)]

#[cfg(test)]
mod clang_names;
#[cfg(test)]
mod files;
#[cfg(test)]
mod forms;
#[cfg(test)]
mod given;
#[cfg(test)]
mod goals;
#[cfg(test)]
mod inputs;
#[cfg(test)]
mod libraries;
#[cfg(test)]
mod loading;
#[cfg(test)]
mod numbers;
#[cfg(test)]
mod racing;
#[cfg(test)]
mod referring;
#[cfg(test)]
mod resolving;
