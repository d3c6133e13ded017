//! The numbers that files have from `loader.h` and, of the machine and of memory, from `machine.h` and `vm_prot.h`.

/// The first four bytes of a file for 64 bits.
pub const MH_MAGIC_64: u32 = 0xfeed_facf;

/// The machine arm64.
pub const CPU_TYPE_ARM64: u32 = 0x0100_000c;

/// Any arm64.
pub const CPU_SUBTYPE_ARM64_ALL: u32 = 0;

/// The file type of an object.
pub const MH_OBJECT: u32 = 1;

/// The file type of a program.
pub const MH_EXECUTE: u32 = 2;

/// The file type of a library.
pub const MH_DYLIB: u32 = 6;

/// A flag of the header: every symbol has a definition, here or in a library that is named.
pub const MH_NOUNDEFS: u32 = 0x1;

/// A flag of the header: the file is input for the loader.
pub const MH_DYLDLINK: u32 = 0x4;

/// A flag of the header: imports name their library.
pub const MH_TWOLEVEL: u32 = 0x80;

/// A flag of the header: an object's sections may be cut at their symbols.
pub const MH_SUBSECTIONS_VIA_SYMBOLS: u32 = 0x2000;

/// A flag of the header: the file exports weak definitions.
pub const MH_WEAK_DEFINES: u32 = 0x8000;

/// A flag of the header: the file uses symbols of which the first definition counts that the loader finds.
pub const MH_BINDS_TO_WEAK: u32 = 0x1_0000;

/// A flag of the header: the library re-exports no other one.
pub const MH_NO_REEXPORTED_DYLIBS: u32 = 0x10_0000;

/// A flag of the header: the program may be loaded at any address.
pub const MH_PIE: u32 = 0x20_0000;

/// A flag of the header: there is a section of descriptors of thread-local variables.
pub const MH_HAS_TLV_DESCRIPTORS: u32 = 0x80_0000;

/// A bit of the commands that a loader may not pass over.
pub const LC_REQ_DYLD: u32 = 0x8000_0000;

/// `symtab_command`.
pub const LC_SYMTAB: u32 = 0x2;

/// `dysymtab_command`.
pub const LC_DYSYMTAB: u32 = 0xb;

/// `dylib_command`: a library that the file loads.
pub const LC_LOAD_DYLIB: u32 = 0xc;

/// `dylib_command`: the library that the file is.
pub const LC_ID_DYLIB: u32 = 0xd;

/// `dylinker_command`.
pub const LC_LOAD_DYLINKER: u32 = 0xe;

/// `segment_command_64`.
pub const LC_SEGMENT_64: u32 = 0x19;

/// `uuid_command`.
pub const LC_UUID: u32 = 0x1b;

/// `linkedit_data_command`: the signature.
pub const LC_CODE_SIGNATURE: u32 = 0x1d;

/// `build_version_command`.
pub const LC_BUILD_VERSION: u32 = 0x32;

/// `dylib_command`: a library that the file loads where it is there.
pub const LC_LOAD_WEAK_DYLIB: u32 = 0x8000_0018;

/// `rpath_command`.
pub const LC_RPATH: u32 = 0x8000_001c;

/// `dylib_command`: a library that the file loads, and whose exports are its own ones too.
pub const LC_REEXPORT_DYLIB: u32 = 0x8000_001f;

/// `entry_point_command`.
pub const LC_MAIN: u32 = 0x8000_0028;

/// `linkedit_data_command`: the trie of the exports.
pub const LC_DYLD_EXPORTS_TRIE: u32 = 0x8000_0033;

/// `linkedit_data_command`: the chains of fixups.
pub const LC_DYLD_CHAINED_FIXUPS: u32 = 0x8000_0034;

/// The platform of programs for macOS.
pub const PLATFORM_MACOS: u32 = 1;

/// What memory may allow: nothing.
pub const VM_PROT_NONE: u32 = 0;

/// What memory may allow: to be read.
pub const VM_PROT_READ: u32 = 1;

/// What memory may allow: to be written.
pub const VM_PROT_WRITE: u32 = 2;

/// What memory may allow: to be run.
pub const VM_PROT_EXECUTE: u32 = 4;

/// A flag of a segment: it may not be written any more after the fixups.
pub const SG_READ_ONLY: u32 = 0x10;

/// The low 8 bits of a section's flags are its type.
pub const SECTION_TYPE: u32 = 0xff;

/// The other bits of a section's flags are its attributes.
pub const SECTION_ATTRIBUTES: u32 = 0xffff_ff00;

/// A type of section: of no other type.
pub const S_REGULAR: u32 = 0x0;

/// A type of section: zeros, which have no bytes in the file.
pub const S_ZEROFILL: u32 = 0x1;

/// A type of section: strings, each of which ends in NUL.
pub const S_CSTRING_LITERALS: u32 = 0x2;

/// A type of section: constants of 4 bytes.
pub const S_4BYTE_LITERALS: u32 = 0x3;

/// A type of section: constants of 8 bytes.
pub const S_8BYTE_LITERALS: u32 = 0x4;

/// A type of section: pointers to constants.
pub const S_LITERAL_POINTERS: u32 = 0x5;

/// A type of section: pointers to symbols, of 8 bytes, which the loader fills.
pub const S_NON_LAZY_SYMBOL_POINTERS: u32 = 0x6;

/// A type of section: code of a fixed size for each symbol, which jumps to it.
pub const S_SYMBOL_STUBS: u32 = 0x8;

/// A type of section: pointers to functions that run before the program.
pub const S_MOD_INIT_FUNC_POINTERS: u32 = 0x9;

/// A type of section: constants of 16 bytes.
pub const S_16BYTE_LITERALS: u32 = 0xe;

/// A type of section: what thread-local variables hold at first.
pub const S_THREAD_LOCAL_REGULAR: u32 = 0x11;

/// A type of section: thread-local variables that hold zeros at first, which have no bytes in the file.
pub const S_THREAD_LOCAL_ZEROFILL: u32 = 0x12;

/// A type of section: descriptors of thread-local variables.
pub const S_THREAD_LOCAL_VARIABLES: u32 = 0x13;

/// A type of section: pointers to such descriptors.
pub const S_THREAD_LOCAL_VARIABLE_POINTERS: u32 = 0x14;

/// An attribute of a section: it holds instructions alone.
pub const S_ATTR_PURE_INSTRUCTIONS: u32 = 0x8000_0000;

/// An attribute of a section: nothing of it may be left out.
pub const S_ATTR_NO_DEAD_STRIP: u32 = 0x1000_0000;

/// An attribute of a section: what leads to something that is kept is kept.
pub const S_ATTR_LIVE_SUPPORT: u32 = 0x0800_0000;

/// An attribute of a section: it is for debuggers.
pub const S_ATTR_DEBUG: u32 = 0x0200_0000;

/// An attribute of a section: it holds some instructions.
pub const S_ATTR_SOME_INSTRUCTIONS: u32 = 0x400;

/// In the table of indirect symbols: a symbol of the file's own, which isn't in the table of symbols.
pub const INDIRECT_SYMBOL_LOCAL: u32 = 0x8000_0000;
