//! What the loader does to the pointers of an image, as opcodes tell it.

use mo_types::{Bytes, Items, OutOfMemory};
use std::alloc::{AllocError, AllocFailed};

/// What a pointer becomes when the image is loaded.
#[derive(Debug, Drop)]
pub enum OpAct {
    /// An address of the image, by its distance in bytes from the image's header.
    Rebase {
        offset: u64,
    },
    /// The address of a name of another image.
    Bind {
        name: Bytes,
        /// The library's number in the image, counted from 1; -2 for all images, and -3 for a weak definition
        /// (`loader.h`: BIND_SPECIAL_DYLIB_FLAT_LOOKUP, BIND_SPECIAL_DYLIB_WEAK_LOOKUP).
        ordinal: i32,
        /// What is added to the address.
        addend: i64,
        /// Whether the name may be missing when the image is loaded.
        optional: bool,
    },
}

/// A pointer of 8 bytes that the loader fills.
#[derive(Debug, Drop)]
pub struct OpFixup {
    pub address: u64,
    pub act: OpAct,
}

/// Fixups by address.
pub type OpMap = Items<OpFixup>;

/// Why the opcodes of an image can't be followed.
#[derive(Clone, Copy, Debug, PartialEq, Eq)]
pub enum OpsFault {
    /// The offset in the file of the first opcode at fault, or 0 where the load commands or a table don't fit the file.
    Broken { place: u64 },
    OutOfMemory,
}

impl From<AllocError> for OpsFault {
    ghost use Rattle.std.specs.Prelude.{◌≡◌};
    ghost use Rattle.dyld_ops.specs.declared.fixup.OpsFault.TheVariants as fault;

    ghost from_gives = { λ _ e. e ≡ fault.OutOfMemory };

    fn from(_e: AllocError) -> OpsFault {
        OpsFault::OutOfMemory
    }
}

impl From<OutOfMemory> for OpsFault {
    ghost use Rattle.std.specs.Prelude.{◌≡◌};
    ghost use Rattle.dyld_ops.specs.declared.fixup.OpsFault.TheVariants as fault;

    ghost from_gives = { λ _ e. e ≡ fault.OutOfMemory };

    fn from(_e: OutOfMemory) -> OpsFault {
        OpsFault::OutOfMemory
    }
}

impl<T: Drop> From<AllocFailed<T>> for OpsFault {
    ghost use Rattle.std.specs.Prelude.{◌≡◌};
    ghost use Rattle.dyld_ops.specs.declared.fixup.OpsFault.TheVariants as fault;

    ghost from_gives = { λ _ e. e ≡ fault.OutOfMemory };

    fn from(_e: AllocFailed<T>) -> OpsFault {
        OpsFault::OutOfMemory
    }
}
