//! Tests of functions that become one, outside of the crate: each case by hand.
#![tactic(auto)]

#[cfg(test)]
mod cycles;
#[cfg(test)]
mod differences;
#[cfg(test)]
mod given;
