//! Files that end too early.
use super::sample::{WHOLE, fault_of, sample, tells};
use mo_types::OutOfMemory;
use std::alloc::Global;

// The message for the sample's first bytes, by what they end in: the structure or table that the next byte
// belongs to is the first one outside the file.
const ENDS: [(usize, &str); 12] = [
    (4, "malformed at 0: notaninput"),
    (32, "malformed at 0: header"),
    (504, "malformed at 32: commands"),
    (528, "malformed at 504: commands"),
    (552, "malformed at 528: commands"),
    (568, "malformed at 104: section"),
    (600, "malformed at 184: section"),
    (608, "malformed at 264: section"),
    (616, "malformed at 424: section"),
    (632, "malformed at 104: relocations"),
    (656, "malformed at 184: relocations"),
    (664, "malformed at 424: relocations"),
];

fn expected(size: usize) -> &'static str {
    for (end, text) in &ENDS {
        if size < *end {
            return text;
        }
    }
    "malformed at 504: symbols"
}

/// Whether each first part of the sample tells what it ends in, and the whole has no fault.
pub fn files_cut_short(alloc: Global) -> Result<bool, OutOfMemory> {
    let bytes = sample(alloc)?;
    for size in 0..WHOLE {
        let part = bytes.get(..size).unwrap_or(b"");
        if !tells(alloc, part, expected(size))? {
            return Ok(false);
        }
    }
    Ok(bytes.len() == WHOLE && fault_of(alloc, &bytes).is_none())
}
