ghost use Rattle.std.specs.Prelude.{◌≡◌};
ghost use Rattle.input_fetch.specs.declared.stop.FetchStop.TheVariants as stop;

use mo_types::{Bytes, OutOfMemory};
use std::alloc::{AllocError, AllocFailed};

/// Why the files of the inputs aren't there.
#[derive(Debug, PartialEq, Eq, Drop)]
pub enum FetchStop {
    /// A file couldn't be read.
    ReadFault { path: Bytes },
    /// No file has one of an input's paths, of which this is the first.
    Missing { path: Bytes },
    /// Memory was asked for and refused.
    OutOfMemory,
}

impl From<OutOfMemory> for FetchStop {
    ghost from_gives = { λ _ e. e ≡ stop.OutOfMemory };

    fn from(_e: OutOfMemory) -> FetchStop {
        FetchStop::OutOfMemory
    }
}

impl From<AllocError> for FetchStop {
    ghost from_gives = { λ _ e. e ≡ stop.OutOfMemory };

    fn from(_e: AllocError) -> FetchStop {
        FetchStop::OutOfMemory
    }
}

impl<T: Drop> From<AllocFailed<T>> for FetchStop {
    ghost from_gives = { λ _ e. e ≡ stop.OutOfMemory };

    fn from(_e: AllocFailed<T>) -> FetchStop {
        FetchStop::OutOfMemory
    }
}
