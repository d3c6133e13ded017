//! What stands in the sample.
use super::described::{SectionRow, SymbolRow, is_object};
use super::sample::sample;
use mo_types::OutOfMemory;
use std::alloc::Global;

fn sections() -> &'static [SectionRow] {
    &[
        ("__TEXT", "__text", [0, 16, 2, 0x80000400, 552, 616, 2]),
        ("__DATA", "__data", [0x10, 32, 3, 0, 568, 632, 3]),
        ("__TEXT", "__cstring", [0x30, 8, 0, 2, 600, 0, 0]),
        ("__DATA", "__bss", [0x38, 8, 3, 1, 0, 0, 0]),
        // the alignment of a section that isn't linked counts as 0
        (
            "__DWARF",
            "__debug_info",
            [0x40, 8, 0, 0x02000000, 608, 656, 1],
        ),
    ]
}

fn symbols() -> &'static [SymbolRow] {
    &[
        ("_word", "defined", [2, 0x10], ""),
        ("_step", "passed", [0, 0], ""),
        ("_main", "defined", [1, 0], "external"),
        ("_helper", "undefined", [0, 0], "external"),
        // the bits of a common's alignment are those of other marks too
        ("_common", "common", [8, 3], "external"),
        ("_number", "absolute", [0, 0], ""),
        ("_debug", "defined", [5, 0x40], ""),
        ("_lost", "passed", [0, 0], ""),
    ]
}

/// Whether the sample is read with what stands in it.
pub fn sample_is_read(alloc: Global) -> Result<bool, OutOfMemory> {
    let bytes = sample(alloc)?;
    Ok(is_object(alloc, &bytes, sections(), symbols()))
}
