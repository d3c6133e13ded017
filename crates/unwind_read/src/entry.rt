//! The entries of compact unwind of an object, as they stand in its bytes.

ghost use Rattle.std.specs.Prelude.{◌≡◌, ◌+◌, ◌≤◌, length};
ghost use Rattle.unwind_read.specs.Entry.{compact_unwind_entry_at};

use mo_format::fields::{u32_at, u64_at};

/// A row of the section `__LD,__compact_unwind` (`compact_unwind_encoding.h`). Its pointers are filled in by
/// relocations.
#[derive(Clone, Copy, Debug, PartialEq, Eq)]
pub struct CompactUnwindEntry {
    /// range-start: where the range begins for which the entry stands, most often a function.
    pub function: u64,
    /// range-length, in bytes.
    pub length: u32,
    /// compact-unwind-encoding: how the frame is unwound.
    pub encoding: u32,
    /// personality-function, or 0.
    pub personality: u64,
    /// lsda: the data that are handed to the personality, or 0.
    pub lsda: u64,
}

impl CompactUnwindEntry {
    /// How many bytes it has in a file.
    pub const SIZE: usize = 32;

    /// Reads the entry whose first byte stands at the offset `at`.
    pub fn read(bytes: &[u8], at: usize) -> CompactUnwindEntry
        requires { at + Self.SIZE ≤ length bytes.now }
        ensures { result ≡ compact_unwind_entry_at bytes.now at }
    {
        CompactUnwindEntry {
            function: u64_at(bytes, at),
            length: u32_at(bytes, at + 8),
            encoding: u32_at(bytes, at + 12),
            personality: u64_at(bytes, at + 16),
            lsda: u64_at(bytes, at + 24),
        }
    }
}
