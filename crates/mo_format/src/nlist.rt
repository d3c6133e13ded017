//! The numbers that symbols have from `nlist.h`, and those of libraries in them from `loader.h`.

/// Bits of `n_type`: any of them is set where the entry is a debugger's.
pub const N_STAB: u8 = 0xe0;

/// A bit of `n_type`: the symbol is seen by other objects, but by no other image.
pub const N_PEXT: u8 = 0x10;

/// Bits of `n_type`: what the symbol stands for.
pub const N_TYPE: u8 = 0x0e;

/// A bit of `n_type`: the symbol is seen by other objects.
pub const N_EXT: u8 = 0x01;

/// What a symbol stands for: what another file defines, or an area that a file may share.
pub const N_UNDF: u8 = 0x0;

/// What a symbol stands for: a number.
pub const N_ABS: u8 = 0x2;

/// What a symbol stands for: a place in the section `n_sect`.
pub const N_SECT: u8 = 0xe;

/// What a symbol stands for: what another image defines, and so it was when this one was linked before.
pub const N_PBUD: u8 = 0xc;

/// What a symbol stands for: the symbol of another name.
pub const N_INDR: u8 = 0xa;

/// The `n_sect` of a symbol that stands in no section.
pub const NO_SECT: u8 = 0;

/// A bit of `n_desc`: nothing of the definition may be left out.
pub const N_NO_DEAD_STRIP: u16 = 0x0020;

/// A bit of `n_desc`: there need be no definition.
pub const N_WEAK_REF: u16 = 0x0040;

/// A bit of `n_desc`: another definition of the name may stand in place of this one.
pub const N_WEAK_DEF: u16 = 0x0080;

/// A bit of `n_desc`: the definition is a function that answers where the symbol stands.
pub const N_SYMBOL_RESOLVER: u16 = 0x0100;

/// A bit of `n_desc`: the section isn't cut at the symbol.
pub const N_ALT_ENTRY: u16 = 0x0200;

/// The number of a library that stands for the image itself.
pub const SELF_LIBRARY_ORDINAL: u8 = 0x0;

/// The greatest number that a library may have in a symbol.
pub const MAX_LIBRARY_ORDINAL: u8 = 0xfd;

/// The number of a library that stands for all that are loaded.
pub const DYNAMIC_LOOKUP_ORDINAL: u8 = 0xfe;
