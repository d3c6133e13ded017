//! Tests of groups and of the pairs that have islands, outside of the crate: each case by hand.
#![tactic(auto)]

#[cfg(test)]
mod cutting;
#[cfg(test)]
mod rounds;

// The name of the first row that doesn't hold, or nothing.
#[cfg(test)]
fn first_wrong(rows: &[(&'static str, bool)]) -> &'static str {
    for (name, holds) in rows {
        if !*holds {
            return name;
        }
    }
    ""
}
