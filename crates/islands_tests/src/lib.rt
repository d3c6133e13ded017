//! Tests of the islands of an image, outside of their crate: each case by hand, from the places that its atoms have.
#![tactic(auto)]

#[cfg(test)]
mod cases;
#[cfg(test)]
mod given;
