//! Tests of the link over files, output and messages in memory, outside of `link_engine`: the check of a crate's tests
//! proves the crate once more, and here it needn't.
#![tactic(auto)]

#[cfg(test)]
mod each_gate;
#[cfg(test)]
mod runs;
