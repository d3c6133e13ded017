ghost use Rattle.std.specs.Prelude.{◌≡◌};
ghost use Rattle.lib_bind.specs.declared.bind_fault.BindFault.TheVariants as fault;

use mo_types::{Bytes, OutOfMemory, Refusal};
use std::alloc::{AllocError, AllocFailed};

/// Why the libraries of a command line and what they re-export aren't there.
#[derive(Debug, PartialEq, Eq, Drop)]
pub enum BindFault {
    /// A file couldn't be read.
    ReadFault { path: Bytes },
    /// There are too many libraries, a re-exported library is missing, or its file isn't a stub library.
    Refused(Refusal),
    OutOfMemory,
}

impl From<OutOfMemory> for BindFault {
    ghost from_gives = { λ _ e. e ≡ fault.OutOfMemory };

    fn from(_e: OutOfMemory) -> BindFault {
        BindFault::OutOfMemory
    }
}

impl From<AllocError> for BindFault {
    ghost from_gives = { λ _ e. e ≡ fault.OutOfMemory };

    fn from(_e: AllocError) -> BindFault {
        BindFault::OutOfMemory
    }
}

impl<T: Drop> From<AllocFailed<T>> for BindFault {
    ghost from_gives = { λ _ e. e ≡ fault.OutOfMemory };

    fn from(_e: AllocFailed<T>) -> BindFault {
        BindFault::OutOfMemory
    }
}
