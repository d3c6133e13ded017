//! Tests of what references need, outside of the crate: each kind of reference to each kind of goal, by hand.
#![tactic(auto)]

#[cfg(test)]
mod needs;
