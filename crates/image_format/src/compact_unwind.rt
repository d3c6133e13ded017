//! The numbers of the section of compact unwind, from `compact_unwind_encoding.h`.

/// The only version of the section.
pub const UNWIND_SECTION_VERSION: u32 = 1;

/// A page whose rows have a function and an encoding, of 4 bytes each.
pub const UNWIND_SECOND_LEVEL_REGULAR: u32 = 2;

/// A page whose rows have 4 bytes, and encodings of its own.
pub const UNWIND_SECOND_LEVEL_COMPRESSED: u32 = 3;

/// The bit of an encoding whose row begins no function.
pub const UNWIND_IS_NOT_FUNCTION_START: u32 = 0x8000_0000;

/// The bit of an encoding whose function has language-specific data.
pub const UNWIND_HAS_LSDA: u32 = 0x4000_0000;

/// The bits of an encoding that number its personality from 1, 0 for none.
pub const UNWIND_PERSONALITY_MASK: u32 = 0x3000_0000;

/// The bits of an encoding of arm64 that say how it unwinds.
pub const UNWIND_ARM64_MODE_MASK: u32 = 0x0f00_0000;

/// The value of these bits that leaves the unwinding to the entry of `__eh_frame` that the low bits name.
pub const UNWIND_ARM64_MODE_DWARF: u32 = 0x0300_0000;
