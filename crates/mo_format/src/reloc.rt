//! The kinds of relocations of arm64, from `arm64/reloc.h`, each with what its field holds.

/// The address of the target, or with a subtrahend before it the difference.
pub const ARM64_RELOC_UNSIGNED: u8 = 0;

/// What is taken from the target of the next relocation.
pub const ARM64_RELOC_SUBTRACTOR: u8 = 1;

/// The distance of a branch, `B` or `BL`, in its 26 bits.
pub const ARM64_RELOC_BRANCH26: u8 = 2;

/// The distance between pages, in the 21 bits of `ADRP`.
pub const ARM64_RELOC_PAGE21: u8 = 3;

/// The offset in a page, in the 12 bits of `ADD`, of a load or of a store.
pub const ARM64_RELOC_PAGEOFF12: u8 = 4;

/// The distance to the page of the target's slot, in the 21 bits of `ADRP`.
pub const ARM64_RELOC_GOT_LOAD_PAGE21: u8 = 5;

/// The offset in its page of the target's slot, in the 12 bits of a load.
pub const ARM64_RELOC_GOT_LOAD_PAGEOFF12: u8 = 6;

/// The address of the target's slot, or the distance to it.
pub const ARM64_RELOC_POINTER_TO_GOT: u8 = 7;

/// The distance to the page of the pointer to a thread-local variable's descriptor, in the 21 bits of `ADRP`.
pub const ARM64_RELOC_TLVP_LOAD_PAGE21: u8 = 8;

/// The offset in its page of the pointer to a thread-local variable's descriptor, in the 12 bits of a load.
pub const ARM64_RELOC_TLVP_LOAD_PAGEOFF12: u8 = 9;

/// What is added to the target of the next relocation.
pub const ARM64_RELOC_ADDEND: u8 = 10;

/// The address of the target, signed.
pub const ARM64_RELOC_AUTHENTICATED_POINTER: u8 = 11;
