//! Tests of `dyld_ops`, outside of it: the check of a crate's tests proves the crate once more, and here it needn't.
#![tactic(auto)]

#[cfg(test)]
mod running;
