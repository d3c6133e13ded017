//! The numbers that opcodes have from `loader.h`.

/// An image's tables of fixups as opcodes (`dyld_info_command`).
pub const LC_DYLD_INFO_ONLY: u32 = 0x8000_0022;

/// A type of rebase: the address of a pointer.
pub const REBASE_TYPE_POINTER: u8 = 1;

/// The table of rebases ends.
pub const REBASE_OPCODE_DONE: u8 = 0x00;

/// The type of the rebases that follow.
pub const REBASE_OPCODE_SET_TYPE_IMM: u8 = 0x10;

/// Goes to an offset of a segment.
pub const REBASE_OPCODE_SET_SEGMENT_AND_OFFSET_ULEB: u8 = 0x20;

/// Goes on by a number of bytes.
pub const REBASE_OPCODE_ADD_ADDR_ULEB: u8 = 0x30;

/// Goes on by a number of pointers.
pub const REBASE_OPCODE_ADD_ADDR_IMM_SCALED: u8 = 0x40;

/// Rebases a number of pointers, one behind the other.
pub const REBASE_OPCODE_DO_REBASE_IMM_TIMES: u8 = 0x50;

/// A type of bind: the address of a pointer.
pub const BIND_TYPE_POINTER: u8 = 1;

/// An ordinal: the name is looked for in all images.
pub const BIND_SPECIAL_DYLIB_FLAT_LOOKUP: i32 = -2;

/// An ordinal: the name is looked for as a weak definition.
pub const BIND_SPECIAL_DYLIB_WEAK_LOOKUP: i32 = -3;

/// A flag of a name: it may be missing.
pub const BIND_SYMBOL_FLAGS_WEAK_IMPORT: u8 = 0x1;

/// The table of binds ends.
pub const BIND_OPCODE_DONE: u8 = 0x00;

/// The ordinal of a library, from 0 to 15.
pub const BIND_OPCODE_SET_DYLIB_ORDINAL_IMM: u8 = 0x10;

/// The ordinal of a library.
pub const BIND_OPCODE_SET_DYLIB_ORDINAL_ULEB: u8 = 0x20;

/// An ordinal that isn't above 0, by its lower four bits.
pub const BIND_OPCODE_SET_DYLIB_SPECIAL_IMM: u8 = 0x30;

/// The name, with its flags.
pub const BIND_OPCODE_SET_SYMBOL_TRAILING_FLAGS_IMM: u8 = 0x40;

/// The type of the binds that follow.
pub const BIND_OPCODE_SET_TYPE_IMM: u8 = 0x50;

/// The addend.
pub const BIND_OPCODE_SET_ADDEND_SLEB: u8 = 0x60;

/// Goes to an offset of a segment.
pub const BIND_OPCODE_SET_SEGMENT_AND_OFFSET_ULEB: u8 = 0x70;

/// Goes on by a number of bytes.
pub const BIND_OPCODE_ADD_ADDR_ULEB: u8 = 0x80;

/// Binds a pointer.
pub const BIND_OPCODE_DO_BIND: u8 = 0x90;
