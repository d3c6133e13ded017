ghost use Rattle.std.specs.Prelude.{◌≡◌};

use crate::cause::Feature;
use crate::memory::OutOfMemory;
use std::alloc::{AllocError, AllocFailed};

/// Why the references of an object aren't read. A place is that of a relocation in the object's bytes.
#[derive(Clone, Copy, Debug, PartialEq, Eq)]
pub enum RefFault {
    /// The first relocation of a pair isn't followed by its second.
    BadPair { place: u64 },
    /// No relocation has these flags.
    BadShape { place: u64 },
    /// A field lies where none may lie.
    BadPlace { place: u64 },
    /// A relocation names nothing that it may name.
    BadTarget { place: u64 },
    /// A relocation that the linker doesn't have.
    Unsupported(Feature),
    OutOfMemory,
}

impl From<AllocError> for RefFault {
    ghost use Rattle.mo_types.specs.declared.reference_fault.RefFault.TheVariants as fault;

    ghost from_gives = { λ _ e. e ≡ fault.OutOfMemory };

    fn from(_e: AllocError) -> RefFault {
        RefFault::OutOfMemory
    }
}

impl From<OutOfMemory> for RefFault {
    ghost use Rattle.mo_types.specs.declared.reference_fault.RefFault.TheVariants as fault;

    ghost from_gives = { λ _ e. e ≡ fault.OutOfMemory };

    fn from(_e: OutOfMemory) -> RefFault {
        RefFault::OutOfMemory
    }
}

impl<T: Drop> From<AllocFailed<T>> for RefFault {
    ghost use Rattle.mo_types.specs.declared.reference_fault.RefFault.TheVariants as fault;

    ghost from_gives = { λ _ e. e ≡ fault.OutOfMemory };

    fn from(_e: AllocFailed<T>) -> RefFault {
        RefFault::OutOfMemory
    }
}
