ghost use Rattle.std.specs.Prelude.{◌≡◌};

use mo_types::OutOfMemory;
use std::alloc::{AllocError, AllocFailed};

/// How many bytes some parts of an image have that are made elsewhere.
#[derive(Clone, Copy, Debug, PartialEq, Eq)]
pub struct PlaceSizes {
    /// The load commands but for those of segments (`loader.h`: LC_SEGMENT_64).
    pub commands: u128,
    /// `__unwind_info`, or 0 where the section isn't there.
    pub unwind: u64,
}

/// Why an image has no layout.
#[derive(Clone, Copy, Debug, PartialEq, Eq)]
pub enum PlaceFault {
    /// What stands before `__LINKEDIT` has this many bytes, 2^32 or more.
    ImageSize { value: i128 },
    OutOfMemory,
}

impl From<OutOfMemory> for PlaceFault {
    ghost use Rattle.sect_place.specs.declared.size.PlaceFault.TheVariants as fault;

    ghost from_gives = { λ _ e. e ≡ fault.OutOfMemory };

    fn from(_e: OutOfMemory) -> PlaceFault {
        PlaceFault::OutOfMemory
    }
}

impl From<AllocError> for PlaceFault {
    ghost use Rattle.sect_place.specs.declared.size.PlaceFault.TheVariants as fault;

    ghost from_gives = { λ _ e. e ≡ fault.OutOfMemory };

    fn from(_e: AllocError) -> PlaceFault {
        PlaceFault::OutOfMemory
    }
}

impl<T: Drop> From<AllocFailed<T>> for PlaceFault {
    ghost use Rattle.sect_place.specs.declared.size.PlaceFault.TheVariants as fault;

    ghost from_gives = { λ _ e. e ≡ fault.OutOfMemory };

    fn from(_e: AllocFailed<T>) -> PlaceFault {
        PlaceFault::OutOfMemory
    }
}
