//! Tests of the crates that every link stands on and of those that know a format, outside of them: the check of a
//! crate's tests proves the crate once more, and here it needn't.
//!
//! `numbers` tests bytes, instructions and structures, `types` what crates share and the lines of answers, `words`
//! command lines, `outside` files and outputs in memory, `jobs` workers and races of names, `tries` exports, and
//! `fixups` images as the loader reads them.
#![tactic(auto)]

#[cfg(test)]
mod fixups;
#[cfg(test)]
mod instructions;
#[cfg(test)]
mod jobs;
#[cfg(test)]
mod load_commands;
#[cfg(test)]
mod messages;
#[cfg(test)]
mod numbers;
#[cfg(test)]
mod outside;
#[cfg(test)]
mod races;
#[cfg(test)]
mod shared_races;
#[cfg(test)]
mod structures;
#[cfg(test)]
mod tries;
#[cfg(test)]
mod types;
#[cfg(test)]
mod words;

// The name of the first row that doesn't hold, or nothing.
#[cfg(test)]
fn first_wrong(rows: &[(&'static str, bool)]) -> &'static str {
    for (name, holds) in rows {
        if !*holds {
            return *name;
        }
    }
    ""
}
