//! The numbers of the chains of fixups, from `fixup-chains.h`.

/// A chain of words of 64 bits, whose targets are offsets from the image's header, in steps of 4 bytes.
pub const DYLD_CHAINED_PTR_64_OFFSET: u16 = 6;

/// An import: 4 bytes, without an addend.
pub const DYLD_CHAINED_IMPORT: u32 = 1;

/// An import: 8 bytes, with an addend of 32 bits.
pub const DYLD_CHAINED_IMPORT_ADDEND: u32 = 2;

/// An import: 16 bytes, with an addend of 64 bits.
pub const DYLD_CHAINED_IMPORT_ADDEND64: u32 = 3;

/// The start of a page without fixups.
pub const DYLD_CHAINED_PTR_START_NONE: u16 = 0xffff;
