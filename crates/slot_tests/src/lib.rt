//! Tests of where slots and stubs stand, outside of the crate: sections, addresses and instructions, by hand.
#![tactic(auto)]

#[cfg(test)]
mod standing;
