ghost use Rattle.std.specs.Prelude.{◌≡◌};

use mo_types::{OutOfMemory, UsageRule};
use std::alloc::{AllocError, AllocFailed};

/// Why words aren't a command.
#[derive(Clone, Copy, Debug, PartialEq, Eq)]
pub enum UsageFault {
    /// The least word at fault, counted from 1, or 0 for a rule on all words.
    At { word: u64, rule: UsageRule },
    OutOfMemory,
}

impl From<OutOfMemory> for UsageFault {
    ghost use Rattle.mo_cmd.specs.declared.usage_fault.UsageFault.TheVariants as fault;

    ghost from_gives = { λ _ e. e ≡ fault.OutOfMemory };

    fn from(_e: OutOfMemory) -> UsageFault {
        UsageFault::OutOfMemory
    }
}

impl From<AllocError> for UsageFault {
    ghost use Rattle.mo_cmd.specs.declared.usage_fault.UsageFault.TheVariants as fault;

    ghost from_gives = { λ _ e. e ≡ fault.OutOfMemory };

    fn from(_e: AllocError) -> UsageFault {
        UsageFault::OutOfMemory
    }
}

impl<T: Drop> From<AllocFailed<T>> for UsageFault {
    ghost use Rattle.mo_cmd.specs.declared.usage_fault.UsageFault.TheVariants as fault;

    ghost from_gives = { λ _ e. e ≡ fault.OutOfMemory };

    fn from(_e: AllocFailed<T>) -> UsageFault {
        UsageFault::OutOfMemory
    }
}
