ghost use Rattle.std.specs.Prelude.{◌≡◌};

use mo_types::{AtomKey, OutOfMemory};
use patch::RangeFault;
use sect_place::PlaceFault;
use std::alloc::{AllocError, AllocFailed};

/// Why atoms have no image.
#[derive(Debug, Drop)]
pub enum MakeFault {
    /// What stands before `__LINKEDIT` has 2^32 bytes or more, or, where all values are in range, the whole image.
    Place(PlaceFault),
    /// A value is out of range: the first one of the atom with the least key, or, before these, of a slot.
    Range {
        atom: Option<AtomKey>,
        fault: RangeFault,
    },
    /// Memory was asked for and refused.
    OutOfMemory,
}

impl From<OutOfMemory> for MakeFault {
    ghost use Rattle.image_make.specs.declared.fault.MakeFault.TheVariants as fault;

    ghost from_gives = { λ _ e. e ≡ fault.OutOfMemory };

    fn from(_e: OutOfMemory) -> MakeFault {
        MakeFault::OutOfMemory
    }
}

impl From<AllocError> for MakeFault {
    ghost use Rattle.image_make.specs.declared.fault.MakeFault.TheVariants as fault;

    ghost from_gives = { λ _ e. e ≡ fault.OutOfMemory };

    fn from(_e: AllocError) -> MakeFault {
        MakeFault::OutOfMemory
    }
}

impl<T: Drop> From<AllocFailed<T>> for MakeFault {
    ghost use Rattle.image_make.specs.declared.fault.MakeFault.TheVariants as fault;

    ghost from_gives = { λ _ e. e ≡ fault.OutOfMemory };

    fn from(_e: AllocFailed<T>) -> MakeFault {
        MakeFault::OutOfMemory
    }
}
