use mo_types::OutOfMemory;
use std::alloc::{AllocError, AllocFailed};

/// Why a step has no value.
#[derive(Debug, PartialEq, Eq, Drop)]
pub enum StepFault<S> {
    /// What stands in the inputs stops it.
    Stop(S),
    /// Memory was asked for and refused.
    OutOfMemory,
}

impl<S: Drop> From<OutOfMemory> for StepFault<S> {
    ghost use Rattle.std.specs.Prelude.{◌≡◌};
    ghost use Rattle.link_steps.specs.declared.fault.StepFault.TheVariants as fault;

    ghost from_gives = { λ _ e. e ≡ fault.OutOfMemory };

    fn from(_e: OutOfMemory) -> StepFault<S> {
        StepFault::OutOfMemory
    }
}

impl<S: Drop> From<AllocError> for StepFault<S> {
    ghost use Rattle.std.specs.Prelude.{◌≡◌};
    ghost use Rattle.link_steps.specs.declared.fault.StepFault.TheVariants as fault;

    ghost from_gives = { λ _ e. e ≡ fault.OutOfMemory };

    fn from(_e: AllocError) -> StepFault<S> {
        StepFault::OutOfMemory
    }
}

impl<S: Drop, T: Drop> From<AllocFailed<T>> for StepFault<S> {
    ghost use Rattle.std.specs.Prelude.{◌≡◌};
    ghost use Rattle.link_steps.specs.declared.fault.StepFault.TheVariants as fault;

    ghost from_gives = { λ _ e. e ≡ fault.OutOfMemory };

    fn from(_e: AllocFailed<T>) -> StepFault<S> {
        StepFault::OutOfMemory
    }
}
