ghost use Rattle.std.specs.Prelude.{◌≡◌};

use crate::cause::{Feature, Rule, Which};
use crate::memory::OutOfMemory;
use std::alloc::{AllocError, AllocFailed};
use std::error::Error;
use std::fmt;

/// Why a file isn't read. A place is an offset in its bytes.
#[derive(Clone, Copy, Debug, PartialEq, Eq)]
pub enum ObjFault {
    /// A rule of the format that the file breaks.
    Malformed { place: u64, rule: Rule },
    /// A feature that the linker doesn't have.
    Unsupported(Feature),
    /// A quantity that reaches its limit.
    Limit(Which),
    OutOfMemory,
}

impl From<AllocError> for ObjFault {
    ghost use Rattle.mo_types.specs.declared.object_fault.ObjFault.TheVariants as fault;

    ghost from_gives = { λ _ e. e ≡ fault.OutOfMemory };

    fn from(_e: AllocError) -> ObjFault {
        ObjFault::OutOfMemory
    }
}

impl From<OutOfMemory> for ObjFault {
    ghost use Rattle.mo_types.specs.declared.object_fault.ObjFault.TheVariants as fault;

    ghost from_gives = { λ _ e. e ≡ fault.OutOfMemory };

    fn from(_e: OutOfMemory) -> ObjFault {
        ObjFault::OutOfMemory
    }
}

impl<T: Drop> From<AllocFailed<T>> for ObjFault {
    ghost use Rattle.mo_types.specs.declared.object_fault.ObjFault.TheVariants as fault;

    ghost from_gives = { λ _ e. e ≡ fault.OutOfMemory };

    fn from(_e: AllocFailed<T>) -> ObjFault {
        ObjFault::OutOfMemory
    }
}

impl fmt::Display for ObjFault {
    ghost use Rattle.std.specs.Prelude.{Some};
    ghost use Rattle.mo_types.specs.FaultText.{object_fault_text};

    ghost output = { λ fault. Some (object_fault_text fault) };

    fn fmt<W: fmt::Write>(&self, f: &mut fmt::Formatter<W>) -> fmt::Result {
        match self {
            ObjFault::Malformed { place, rule } => {
                let name = rule.as_str();
                write!(f, "malformed at {place}: {name}")
            }
            ObjFault::Unsupported(feature) => {
                let name = feature.as_str();
                write!(f, "unsupported: {name}")
            }
            ObjFault::Limit(which) => {
                let name = which.as_str();
                write!(f, "limit: {name}")
            }
            ObjFault::OutOfMemory => write!(f, "out of memory"),
        }
    }
}

impl Error for ObjFault {}
