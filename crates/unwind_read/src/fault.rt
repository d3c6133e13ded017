use mo_types::OutOfMemory;
use std::alloc::{AllocError, AllocFailed};

/// Why the unwind entries of an object aren't read. The place is that of an entry in the object's bytes.
#[derive(Clone, Copy, Debug, PartialEq, Eq)]
pub enum UnwindFault {
    /// An entry, or a relocation of one, breaks the rule of entries.
    BadEntry { place: u64 },
    OutOfMemory,
}

impl From<AllocError> for UnwindFault {
    ghost use Rattle.std.specs.Prelude.{◌≡◌};
    ghost use Rattle.unwind_read.specs.declared.fault.UnwindFault.TheVariants as fault;

    ghost from_gives = { λ _ e. e ≡ fault.OutOfMemory };

    fn from(_e: AllocError) -> UnwindFault {
        UnwindFault::OutOfMemory
    }
}

impl From<OutOfMemory> for UnwindFault {
    ghost use Rattle.std.specs.Prelude.{◌≡◌};
    ghost use Rattle.unwind_read.specs.declared.fault.UnwindFault.TheVariants as fault;

    ghost from_gives = { λ _ e. e ≡ fault.OutOfMemory };

    fn from(_e: OutOfMemory) -> UnwindFault {
        UnwindFault::OutOfMemory
    }
}

impl<T: Drop> From<AllocFailed<T>> for UnwindFault {
    ghost use Rattle.std.specs.Prelude.{◌≡◌};
    ghost use Rattle.unwind_read.specs.declared.fault.UnwindFault.TheVariants as fault;

    ghost from_gives = { λ _ e. e ≡ fault.OutOfMemory };

    fn from(_e: AllocFailed<T>) -> UnwindFault {
        UnwindFault::OutOfMemory
    }
}
