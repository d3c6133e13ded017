//! Tests of marks that are raced for, outside of their crate: marks that were counted by hand, two workers that meet, long
//! chains, wide stars and rings, and graphs beside a plain search. And what workers keep, beside what one thread keeps.
#![tactic(auto)]

#[cfg(test)]
mod graphs;
#[cfg(test)]
mod keeping;
#[cfg(test)]
mod marks;
#[cfg(test)]
mod tables;

// The name of the first row that doesn't hold, or nothing.
#[cfg(test)]
fn first_wrong(rows: &[(&'static str, bool)]) -> &'static str {
    for (name, holds) in rows {
        if !*holds {
            return name;
        }
    }
    ""
}
